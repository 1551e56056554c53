//! The round of the scores.

ghost use Rattle.std.specs.Prelude.{◌≡◌, ◌+◌, ◌-◌, ◌*◌, ◌==◌, ◌<◌, ◌≤◌, ◌++◌, true, ℕ, List, length, take, slice_index, min, IfOk, IfErr, OnOk};
ghost use Rattle.std.specs.List.{list_any};
ghost use Rattle.co_link.specs.declared.messages.Target.TheVariants as targets;
ghost use Rattle.co_math.specs.Parameters.{plain_modulus};
ghost use Rattle.co_math.specs.Coefficients.{AreBelow};
ghost use Rattle.co_noise.specs.Shapes.{document_blocks};
ghost use Rattle.co_slots.specs.Slots.{slot};
ghost use Rattle.co_bfv.specs.Ciphertexts.{Ciphertext};
ghost use Rattle.co_bfv.specs.Encryptions.{decrypted};
ghost use Rattle.co_bfv.specs.Totals.{ciphertext_at};
ghost use Rattle.co_ring.specs.Polynomials.{degree_of};
ghost use Rattle.co_matvec.specs.Weights.{keyword_slot};
ghost use Rattle.co_matvec.specs.Replies.{HasSlots};
ghost use Rattle.co_wire.specs.Bodies.{SpellsCiphers, ciphers_bytes};
ghost use Rattle.co_wire.specs.Lengths.{cipher_size, reply_size};
ghost use Rattle.co_rounds.specs.Asked.{AreKeywordMessages, encryptions_draw};
ghost use Rattle.co_rounds.specs.Scoring.{scores_read};
ghost use Rattle.co_client.specs.Rounds.{round_call, RoundFails, LinkFails, Ranks, queries_request, queries_rest};

use crate::fault::SearchFault;
use crate::querying::{ask_ciphers, put_query};
use crate::reading::cipher_at;
use crate::starting::Reader;
use co_bfv::decrypt;
use co_link::{Bytes, Link, Target};
use co_list::Listed;
use co_ring::{Degree, Modulus, Poly, Spectrum};
use co_slots::SlotTable;
use co_text::{Ranked, ranking};
use co_wire::request_length;
use rand_core::Rng;
use std::alloc::{AllocError, Global};

/// Whether a term is a keyword.
fn is_keyword(keywords: &[u32], term: usize) -> bool
    ensures { result ≡ list_any (λ y. y == term) keywords.now }
{
    keywords.iter().any(|keyword| *keyword as usize == term)
}

/// A slot of the keyword polynomial of a block of terms: 1 where the term of its column is a
/// keyword.
#[tactic(auto, unfolding(co_matvec::specs::Weights::keyword_slot))]
fn slot_at(keywords: &[u32], degree: usize, block: usize, p: usize) -> u64
    requires degree { (2 ≤ degree) × (degree ≤ 4096) }
    requires block { block ≤ 16384 }
    ensures value { result ≡ keyword_slot degree keywords.now block p }
    ensures small { result < plain_modulus }
{
    let half = degree / 2;
    u64::from(is_keyword(keywords, block * half + p % half))
}

/// The slots of the keyword polynomial of a block of terms.
fn fill_slots(keywords: &[u32], block: usize, slots: &mut [u64])
    requires degree { (2 ≤ length slots.old) × (length slots.old ≤ 4096) }
    requires block { block ≤ 16384 }
    ensures slots { (p : ℕ) → p < length slots.old → slice_index slots.new p
        ≡ keyword_slot (length slots.old) keywords.now block p }
    ensures small { AreBelow plain_modulus slots.new }
{
    for p in 0..slots.len() {
        slots[p] = slot_at(keywords, slots.len(), block, p);
    }
}

/// Writes the keyword polynomial of a block of terms. Slots and spectrum are scratch.
fn write_keywords(
    table: &SlotTable,
    keywords: &[u32],
    block: usize,
    slots: &mut [u64],
    scratch: &mut Spectrum,
    message: &mut Poly,
)
    requires degree { (2 ≤ table.now) × (table.now ≤ 4096) }
    requires block { block ≤ 16384 }
    requires slots_degree { length slots.old ≡ table.now }
    requires scratch_modulus { scratch.old.modulus ≡ Modulus.Plain }
    requires scratch_degree { length scratch.old.values ≡ table.now }
    requires message_modulus { message.old.modulus ≡ Modulus.Plain }
    requires message_degree { degree_of message.old ≡ table.now }
    ensures modulus { message.new.modulus ≡ Modulus.Plain }
    ensures spelled { HasSlots table.now (keyword_slot table.now keywords.now block)
        message.new.coeffs }
    ensures scratch_modulus { scratch.new.modulus ≡ Modulus.Plain }
    ensures scratch_degree { length scratch.new.values ≡ table.now }
{
    fill_slots(keywords, block, slots);
    table.encode(slots, scratch, message);
    let _ = message.degree();
}

/// The body of a request for scores: a query for each block of terms.
fn score_queries<R: Rng>(
    alloc: Global,
    reader: &Reader,
    keywords: &[u32],
    rng: &mut R,
) -> Result<Bytes, AllocError>
    ensures body { IfOk result
        (λ body. (messages : List (List ℕ)) → AreKeywordMessages reader.now.shape
        keywords.now messages
        → body ≡ ciphers_bytes (encryptions_draw reader.now.secret messages (R.stream rng.old)).0) }
    ensures rest { OnOk result ((messages : List (List ℕ)) → AreKeywordMessages reader.now.shape
        keywords.now messages
        → R.stream rng.new ≡ queries_rest reader.now.secret messages (R.stream rng.old)) }
{
    let secret = reader.secret();
    let shape = reader.tested().shape();
    let size = shape.degree() as usize;
    let degree = Degree::of(size);
    let table = SlotTable::new(alloc, degree)?;
    let mut scratch = Spectrum::zero(alloc, Modulus::Plain, degree)?;
    let mut message = Poly::zero(alloc, Modulus::Plain, degree)?;
    let mut room = vec![in alloc; 0u64; size]?;
    let slots = room.as_mut_slice();
    let long = request_length(reader.tested(), Target::Score);
    let mut body = Vec::with_capacity(alloc, long as usize)?;
    let blocks = shape.keyword_blocks();
    for block in 0..blocks {
        write_keywords(
            &table,
            keywords,
            block as usize,
            slots,
            &mut scratch,
            &mut message,
        );
        put_query(alloc, secret, &message, rng, &mut body)?;
    }
    Ok(Bytes::from_vec(body))
}

/// Adds the scores of the documents of a block, which are the first slots of its reply.
fn add_scores(slots: &[u64], documents: usize, scores: &mut Vec<u32>) -> Result<(), AllocError>
    requires { AreBelow plain_modulus slots.now }
    ensures { OnOk result
        (scores.new.items ≡ scores.old.items ++ take
        (documents - length scores.old.items) slots.now) }
{
    let count = slots.len().min(documents.saturating_sub(scores.len()));
    for slot in &slots[..count] {
        scores.push(*slot as u32)?;
    }
    Ok(())
}

/// The slots of the reply of a block. The spectrum is scratch.
fn read_slots(
    alloc: Global,
    reader: &Reader,
    table: &SlotTable,
    body: &[u8],
    block: usize,
    scratch: &mut Spectrum,
    slots: &mut [u64],
) -> Result<(), AllocError>
    requires table { table.now ≡ reader.now.shape.degree }
    requires whole { (block + 1) * cipher_size reader.now.shape.degree ≤ length body.now }
    requires slots_degree { length slots.old ≡ table.now }
    requires scratch_modulus { scratch.old.modulus ≡ Modulus.Plain }
    requires scratch_degree { length scratch.old.values ≡ table.now }
    ensures slots { OnOk result
        ((cs : List Ciphertext) (count : ℕ) → SpellsCiphers reader.now.shape.degree
        count cs body.now
        → (p : ℕ) → p < table.now → slice_index slots.new p
        ≡ slot (decrypted reader.now.secret (ciphertext_at cs block)) p) }
    ensures small { OnOk result (AreBelow plain_modulus slots.new) }
    ensures scratch_modulus { OnOk result (scratch.new.modulus ≡ Modulus.Plain) }
    ensures scratch_degree { OnOk result (length scratch.new.values ≡ table.now) }
{
    let secret = reader.secret();
    let degree = Degree::of(secret.degree());
    let cipher = cipher_at(alloc, degree, body, block)?;
    let message = decrypt(alloc, secret, &cipher)?;
    table.decode(&message, scratch, slots);
    Ok(())
}

/// The scores of all documents, which the replies show.
fn read_scores(alloc: Global, reader: &Reader, body: &[u8]) -> Result<Vec<u32>, AllocError>
    requires { length body.now ≡ reply_size reader.now.shape targets.Score }
    ensures { IfOk result (λ scores. (cs : List Ciphertext) → SpellsCiphers reader.now.shape.degree
        (document_blocks reader.now.shape) cs body.now
        → scores.items ≡ scores_read reader.now.shape reader.now.secret cs) }
{
    let shape = reader.tested().shape();
    let size = shape.degree() as usize;
    let degree = Degree::of(size);
    let documents = shape.documents() as usize;
    let table = SlotTable::new(alloc, degree)?;
    let mut scratch = Spectrum::zero(alloc, Modulus::Plain, degree)?;
    let mut room = vec![in alloc; 0u64; size]?;
    let slots = room.as_mut_slice();
    let mut scores = Vec::with_capacity(alloc, documents)?;
    let blocks = shape.document_blocks();
    for block in 0..blocks {
        read_slots(
            alloc,
            reader,
            &table,
            body,
            block as usize,
            &mut scratch,
            slots,
        )?;
        add_scores(slots, documents, &mut scores)?;
    }
    Ok(scores)
}

/// Asks for the scores by keywords, which are numbers of terms, and ranks the documents by them.
/// After an error the rest of the stream is not stated.
pub fn score_hits<K: Link, R: Rng>(
    alloc: Global,
    link: &mut K,
    rng: &mut R,
    reader: &Reader,
    keywords: &[u32],
) -> Result<Listed<Ranked>, SearchFault>
    requires { K.is_ready link.old ≡ true }
    ensures ranked { IfOk result
        (λ hits. (messages : List (List ℕ)) → AreKeywordMessages reader.now.shape
        keywords.now messages
        → Ranks reader.now.shape reader.now.secret (K.exchanges link.old) (K.exchanges link.new)
        (queries_request targets.Score reader.now.secret messages (R.stream rng.old)) hits) }
    ensures rest { OnOk result ((messages : List (List ℕ)) → AreKeywordMessages reader.now.shape
        keywords.now messages
        → R.stream rng.new ≡ queries_rest reader.now.secret messages (R.stream rng.old)) }
    ensures refused { IfErr result (λ fault. (messages : List (List ℕ))
        → AreKeywordMessages reader.now.shape
        keywords.now messages
        → RoundFails (reply_size reader.now.shape targets.Score) (K.exchanges link.old)
        (K.exchanges link.new)
        (queries_request targets.Score reader.now.secret messages (R.stream rng.old)) fault) }
    ensures cause { LinkFails (K.faults link.old) (K.faults link.new) (K.last_failed link.new)
        (round_call reader.now.shape targets.Score) result }
    ensures few { IfOk result (λ hits. length hits ≤ reader.now.shape.hits) }
    ensures ready { K.is_ready link.new ≡ true }
    ensures beside { K.beside link.new ≡ K.beside link.old }
{
    let Ok(queries) = score_queries(alloc, reader, keywords, rng) else {
        return Err(SearchFault::OutOfMemory);
    };
    let shape = reader.tested().shape();
    let _ = shape.degree();
    let blocks = shape.document_blocks();
    let body = ask_ciphers(alloc, link, reader, Target::Score, queries, blocks)?;
    let Ok(scores) = read_scores(alloc, reader, body.as_slice()) else {
        return Err(SearchFault::OutOfMemory);
    };
    match ranking(alloc, &scores, shape.hits()) {
        Ok(hits) => Ok(hits),
        Err(_) => Err(SearchFault::OutOfMemory),
    }
}
