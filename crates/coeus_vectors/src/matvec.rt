//! Score replies.

ghost use Rattle.std.specs.Prelude.{ℕ, ◌≡◌, ◌+◌, ◌<◌, length, slice_index_or, IsTrue, IfOk, All};
ghost use Rattle.co_matvec.specs.Weights.{AreEntries, Precedes};
ghost use Rattle.co_switch.specs.Keys.{keys_degree};

use crate::bfv::{Shown, encryption, have_degree, put_all_opened, slots_message};
use crate::cases::{BadCase, Case, degree_of};
use crate::gates::Watch;
use crate::lines::put_ciphers;
use crate::switch::keyed;
use co_bfv::{Cipher, Secret};
use co_matvec::{Weights, score};
use co_switch::{KeySet, Steps};
use rand_core::SeedableRng;
use rand_xoshiro::SplitMix64;
use std::alloc::AllocError;
use std::thread::Threads;

/// The line of a case, behind the name of its call.
pub fn line<R: Threads + Sync>(rt: &R, case: Case) -> Result<String, BadCase> {
    let mut line = String::new(case.alloc);
    match case.call() {
        "score" | "slots" | "order" | "held" => put_scores(rt, &mut line, case)?,
        _ => return Err(BadCase::Unfit),
    }
    Ok(line)
}

/// The entries that a field lists, three numbers each: term, document and weight.
fn entries(case: Case) -> Result<Vec<(u32, u32, u16)>, AllocError> {
    let numbers = case.numbers("weights")?;
    let mut all = Vec::new(case.alloc);
    for entry in numbers.chunks_exact(3) {
        if let [term, document, weight] = entry {
            all.push((*term, *document, u16::try_from(*weight).unwrap_or(0)))?;
        }
    }
    Ok(all)
}

/// Whether an entry is in range.
fn is_within(documents: u32, terms: u32, entry: &(u32, u32, u16)) -> bool
    ensures { IsTrue result → (entry.now.0 < terms) × (entry.now.1 < documents) }
{
    entry.0 < terms && entry.1 < documents
}

/// Whether an entry comes before another.
fn precedes(entry: &(u32, u32, u16), next: &(u32, u32, u16)) -> bool
    ensures { IsTrue result → Precedes entry.now next.now }
{
    entry.0 < next.0 || entry.0 == next.0 && entry.1 < next.1
}

/// Whether all entries are in range.
fn are_within(documents: u32, terms: u32, entries: &[(u32, u32, u16)]) -> bool
    ensures { IsTrue result → All (λ e. (e.0 < terms) × (e.1 < documents)) entries.now }
{
    for entry in entries {
        if !is_within(documents, terms, entry) {
            return false;
        }
    }
    true
}

/// Whether each entry comes before the next.
fn ascend(entries: &[(u32, u32, u16)]) -> bool
    ensures { IsTrue result → (i : ℕ) (d : ℕ × ℕ × ℕ) → i + 1 < length entries.now
        → Precedes (slice_index_or entries.now i d) (slice_index_or entries.now (i + 1) d) }
{
    for next in 1..entries.len() {
        if !precedes(&entries[next - 1], &entries[next]) {
            return false;
        }
    }
    true
}

/// Whether entries are in range and ascend.
fn are_entries(documents: u32, terms: u32, entries: &[(u32, u32, u16)]) -> bool
    ensures { IsTrue result → AreEntries documents terms entries.now }
{
    are_within(documents, terms, entries) && ascend(entries)
}

/// The weights of a case, of a secret's degree.
fn weights(case: Case, secret: &Secret) -> Result<Weights, BadCase>
    ensures { IfOk result (λ w. w.degree ≡ length secret.now) }
{
    let degree = degree_of(secret.degree())?;
    let entries = entries(case)?;
    let documents = case.number("documents");
    let terms = case.number("terms");
    if !are_entries(documents, terms, &entries) {
        return Err(BadCase::Unfit);
    }
    Ok(Weights::new(case.alloc, degree, documents, terms, &entries)?)
}

/// The query of a case, drawn block by block.
fn queries(
    case: Case,
    blocks: usize,
    secret: &Secret,
    words: &mut SplitMix64,
) -> Result<Vec<Cipher>, BadCase> {
    let mut query = Vec::new(case.alloc);
    match draw(case, blocks, secret, words, &mut query) {
        Ok(()) => Ok(query),
        Err(fault) => Err(fault),
    }
}

fn draw(
    case: Case,
    blocks: usize,
    secret: &Secret,
    words: &mut SplitMix64,
    query: &mut Vec<Cipher>,
) -> Result<(), BadCase> {
    for block in 0..blocks {
        let cipher = block_query(case, block, secret, words)?;
        keep(query, cipher)?;
    }
    Ok(())
}

fn keep(ciphers: &mut Vec<Cipher>, cipher: Cipher) -> Result<(), AllocError> {
    Ok(ciphers.push(cipher)?)
}

/// The ciphertext of a keyword block.
fn block_query(
    case: Case,
    block: usize,
    secret: &Secret,
    words: &mut SplitMix64,
) -> Result<Cipher, BadCase> {
    let name = format!(in case.alloc; "query{block}")?;
    let message = slots_message(case, name.as_str())?;
    encryption(case.alloc, &message, secret, words)
}

/// The replies to a query.
fn replies<R: Threads + Sync>(
    rt: &R,
    case: Case,
    weights: &Weights,
    secret: &Secret,
    keys: &KeySet,
    query: &[Cipher],
    gate: &Watch,
) -> Result<Vec<Cipher>, BadCase>
    requires weights { weights.now.degree ≡ length secret.now }
    requires keys { keys_degree keys.now ≡ length secret.now }
{
    if query.len() != weights.keyword_blocks() || !have_degree(query, secret.degree()) {
        return Err(BadCase::Unfit);
    }
    let workers = case.number("workers").clamp(1, 64);
    let mut steps = Steps::begin();
    Ok(score(
        rt, case.alloc, weights, keys, query, workers, gate, &mut steps,
    )?)
}

fn put_scores<R: Threads + Sync>(rt: &R, line: &mut String, case: Case) -> Result<(), BadCase> {
    let mut words = SplitMix64::seed_from_u64(case.number("stream") as u64);
    let (secret, keys) = keyed(case, &mut words)?;
    let weights = weights(case, &secret)?;
    put_scores_by(rt, line, case, &weights, &secret, &keys, &mut words)
}

/// The scores of a case, and what its gate was told.
fn put_scores_by<R: Threads + Sync>(
    rt: &R,
    line: &mut String,
    case: Case,
    weights: &Weights,
    secret: &Secret,
    keys: &KeySet,
    words: &mut SplitMix64,
) -> Result<(), BadCase>
    requires weights { weights.now.degree ≡ length secret.now }
    requires keys { keys_degree keys.now ≡ length secret.now }
{
    let query = queries(case, weights.keyword_blocks(), secret, words)?;
    let gate = Watch::of(case);
    let replies = replies(rt, case, weights, secret, keys, &query, &gate)?;
    put_found(line, case, secret, &query, &replies)?;
    Ok(gate.put(line, case.call())?)
}

/// The slots that the replies open to, behind the digests of query and replies where they are
/// known.
fn put_found(
    line: &mut String,
    case: Case,
    secret: &Secret,
    query: &[Cipher],
    replies: &[Cipher],
) -> Result<(), BadCase> {
    if case.call() == "score" {
        put_ciphers(case.alloc, line, query)?;
        put_ciphers(case.alloc, line, replies)?;
    }
    put_all_opened(case.alloc, line, secret, replies, Shown::Slots)
}
