//! Retrievals: the query, its expansion, the reply, and what it opens to.

ghost use Rattle.std.specs.Prelude.{◌≡◌, ◌≤◌, length, IfOk, IsTrue};
ghost use Rattle.co_math.specs.Logarithms.{log2_up};
ghost use Rattle.co_bfv.specs.Ciphertexts.{ciphertext_degree};
ghost use Rattle.co_switch.specs.Keys.{keys_degree};

use crate::bfv::{
    Shown, drawn, encrypted, encryption, have_degree, put_cipher_digest, put_each_opened,
};
use crate::cases::{BadCase, Case, degree_of};
use crate::gates::Watch;
use crate::lines::{put, put_bytes, put_ciphers};
use crate::slots::put_fault;
use crate::switch::keyed;
use co_bfv::{Cipher, Secret};
use co_pir::{Rows, answer, expand, levels, open_reply, query_message};
use co_ring::{Degree, Modulus, Poly};
use co_switch::{KeySet, Steps};
use rand_core::SeedableRng;
use rand_xoshiro::SplitMix64;
use std::alloc::Global;
use std::thread::Threads;

/// The line of a case, behind the name of its call.
pub fn line<R: Threads + Sync>(rt: &R, case: Case) -> Result<String, BadCase> {
    let mut line = String::new(case.alloc);
    match case.call() {
        "query" => put_query(&mut line, case)?,
        "retrieve" | "order" | "held" => put_retrieval(rt, &mut line, case)?,
        "open" => put_opened_reply(&mut line, case)?,
        _ => return Err(BadCase::Unfit),
    }
    Ok(line)
}

/// The message that asks for a row.
fn message(case: Case) -> Result<Poly, BadCase>
    ensures { IfOk result (λ p. p.modulus ≡ Modulus.Plain) }
{
    let degree = case.degree()?;
    let rows = case.number("rows");
    let row = case.number("row");
    if row >= rows || rows > degree.get() {
        return Err(BadCase::Unfit);
    }
    Ok(query_message(case.alloc, degree, rows, row)?)
}

/// The coefficients other than 0, each behind its place.
fn put_query(line: &mut String, case: Case) -> Result<(), BadCase> {
    let message = message(case)?;
    for k in 0..message.degree() {
        if message.coeff(k) != 0 {
            put(line, k as u128)?;
            put(line, message.coeff(k) as u128)?;
        }
    }
    Ok(())
}

fn put_retrieval<R: Threads + Sync>(rt: &R, line: &mut String, case: Case) -> Result<(), BadCase> {
    let mut words = SplitMix64::seed_from_u64(case.number("stream") as u64);
    let (secret, keys) = keyed(case, &mut words)?;
    let query = query(case, &secret, &mut words)?;
    put_found(rt, line, case, &secret, &keys, &query)
}

/// What comes of a query, and what the gate of the case was told.
fn put_found<R: Threads + Sync>(
    rt: &R,
    line: &mut String,
    case: Case,
    secret: &Secret,
    keys: &KeySet,
    query: &Cipher,
) -> Result<(), BadCase>
    requires { keys_degree keys.now ≡ ciphertext_degree query.now }
{
    if case.call() == "retrieve" {
        put_cipher_digest(case.alloc, line, query)?;
        let expanded = expanded(case, keys, query)?;
        put_each_opened(case.alloc, line, secret, &expanded, Shown::Coefficients)?;
    }
    let gate = Watch::of(case);
    put_reply(line, case, secret, &replied(rt, case, keys, query, &gate)?)?;
    Ok(gate.put(line, case.call())?)
}

/// What the reply opens to, behind its digest where that is known.
fn put_reply(
    line: &mut String,
    case: Case,
    secret: &Secret,
    reply: &[Cipher],
) -> Result<(), BadCase> {
    if case.call() == "retrieve" {
        put_ciphers(case.alloc, line, reply)?;
    }
    put_row(case.alloc, line, secret, reply)
}

fn query(case: Case, secret: &Secret, words: &mut SplitMix64) -> Result<Cipher, BadCase>
    ensures { IfOk result (λ c. ciphertext_degree c ≡ length secret.now) }
{
    let message = message(case)?;
    encryption(case.alloc, &message, secret, words)
}

/// Whether there are expansion keys for so many rows.
fn suffices(keys: &KeySet, rows: u32) -> bool
    ensures some { IsTrue result → 1 ≤ rows }
    ensures enough { IsTrue result → log2_up rows ≤ length keys.now.expansions }
{
    rows >= 1 && rows <= 4096 && levels(rows) as usize <= keys.expansions().len()
}

fn expanded(case: Case, keys: &KeySet, query: &Cipher) -> Result<Vec<Cipher>, BadCase>
    requires { keys_degree keys.now ≡ ciphertext_degree query.now }
{
    let rows = case.number("rows");
    if !suffices(keys, rows) || rows as usize > query.degree() {
        return Err(BadCase::Unfit);
    }
    Ok(expand(case.alloc, query, keys, rows, &mut Steps::begin())?)
}

/// The rows of a case.
fn table(case: Case, degree: Degree, rows: u32) -> Result<Rows, BadCase>
    requires { 1 ≤ rows }
    ensures degree { IfOk result (λ t. t.degree ≡ degree) }
    ensures rows { IfOk result (λ t. t.rows ≡ rows) }
{
    let chunks = case.number("chunks");
    let bytes = case.bytes("bytes")?;
    let n = degree.get();
    if rows > n || chunks > 4096 {
        return Err(BadCase::Unfit);
    }
    if bytes.len() != rows as usize * (chunks as usize * (2 * n as usize)) {
        return Err(BadCase::Unfit);
    }
    Ok(Rows::new(case.alloc, degree, rows, chunks, &bytes)?)
}

fn replied<R: Threads + Sync>(
    rt: &R,
    case: Case,
    keys: &KeySet,
    query: &Cipher,
    gate: &Watch,
) -> Result<Vec<Cipher>, BadCase>
    requires { keys_degree keys.now ≡ ciphertext_degree query.now }
{
    let rows = case.number("rows");
    if !suffices(keys, rows) {
        return Err(BadCase::Unfit);
    }
    let table = table(case, degree_of(query.degree())?, rows)?;
    let mut steps = Steps::begin();
    let workers = case.number("workers").clamp(1, 64);
    Ok(answer(
        rt, case.alloc, &table, keys, query, workers, gate, &mut steps,
    )?)
}

/// The bytes that a reply opens to, or the first place that spells none.
fn put_row(
    alloc: Global,
    line: &mut String,
    secret: &Secret,
    reply: &[Cipher],
) -> Result<(), BadCase> {
    if !have_degree(reply, secret.degree()) || secret.degree() > 4096 || reply.len() > 4096 {
        return Err(BadCase::Unfit);
    }
    match open_reply(alloc, secret, reply) {
        Ok(bytes) => Ok(put_bytes(alloc, line, bytes.as_slice())?),
        Err(fault) => put_fault(line, fault),
    }
}

/// The bytes of a reply of two ciphertexts, of given messages.
fn put_opened_reply(line: &mut String, case: Case) -> Result<(), BadCase> {
    let mut words = SplitMix64::seed_from_u64(case.number("stream") as u64);
    let secret = drawn(case, &mut words)?;
    let first = encrypted(case, "first", &secret, &mut words)?;
    let second = encrypted(case, "second", &secret, &mut words)?;
    put_row(case.alloc, line, &secret, &[first, second])
}
