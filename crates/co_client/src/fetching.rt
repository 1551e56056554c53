//! The round of the document.

ghost use Rattle.std.specs.Prelude.{◌≡◌, ◌+◌, ◌<◌, ◌≤◌, true, List, Option, length, All, IfOk, IfErr, OnOk};
ghost use Rattle.co_link.specs.declared.messages.Target.TheVariants as targets;
ghost use Rattle.co_bfv.specs.Ciphertexts.{Ciphertext};
ghost use Rattle.co_wire.specs.Bodies.{SpellsCiphers, ciphers_bytes};
ghost use Rattle.co_wire.specs.Lengths.{reply_size};
ghost use Rattle.co_rounds.specs.Asked.{encryptions_draw};
ghost use Rattle.co_rounds.specs.Recording.{is_within_bins};
ghost use Rattle.co_client.specs.Rounds.{round_call, RoundFails, LinkFails, Gives, queries_request, queries_rest, bin_messages};
ghost use Rattle.co_client.specs.Records.{text_read, picked_record, picked_read, bin_asked};
ghost use Rattle.co_client.specs.Faults.{IsReadAs};

use crate::fault::SearchFault;
use crate::querying::{ask_ciphers, put_row};
use crate::reading::open_part;
use crate::starting::Reader;
use co_link::{Bytes, Link, Target};
use co_pack::{Place, Record};
use co_ring::Degree;
use co_wire::request_length;
use rand_core::Rng;
use std::alloc::{AllocError, Global};

/// The body of a request for a bin: one query.
fn bin_query<R: Rng>(
    alloc: Global,
    reader: &Reader,
    bin: u32,
    rng: &mut R,
) -> Result<Bytes, AllocError>
    requires { bin < reader.now.shape.bins }
    ensures body { IfOk result
        (λ body. body
        ≡ ciphers_bytes (encryptions_draw reader.now.secret (bin_messages reader.now.shape bin)
        (R.stream rng.old)).0) }
    ensures rest { OnOk result
        (R.stream rng.new ≡ queries_rest reader.now.secret (bin_messages reader.now.shape bin)
        (R.stream rng.old)) }
{
    let bins = reader.tested().shape().bins();
    let room = request_length(reader.tested(), Target::Document);
    let mut body = Vec::with_capacity(alloc, room as usize)?;
    put_row(alloc, reader, bins, bin, rng, &mut body)?;
    Ok(Bytes::from_vec(body))
}

/// Asks for a bin, and gives the body of the reply, which spells it. After an error the rest of the
/// stream is not stated.
pub fn fetch<K: Link, R: Rng>(
    alloc: Global,
    link: &mut K,
    rng: &mut R,
    reader: &Reader,
    bin: u32,
) -> Result<Bytes, SearchFault>
    requires ready { K.is_ready link.old ≡ true }
    requires bin { bin < reader.now.shape.bins }
    ensures came { IfOk result
        (Gives reader.now.shape.degree reader.now.shape.chunks (K.exchanges link.old)
        (K.exchanges link.new)
        (queries_request targets.Document reader.now.secret (bin_messages reader.now.shape bin)
        (R.stream rng.old))) }
    ensures rest { OnOk result
        (R.stream rng.new ≡ queries_rest reader.now.secret (bin_messages reader.now.shape bin)
        (R.stream rng.old)) }
    ensures refused { IfErr result
        (RoundFails (reply_size reader.now.shape targets.Document) (K.exchanges link.old)
        (K.exchanges link.new)
        (queries_request targets.Document reader.now.secret (bin_messages reader.now.shape bin)
        (R.stream rng.old))) }
    ensures cause { LinkFails (K.faults link.old) (K.faults link.new) (K.last_failed link.new)
        (round_call reader.now.shape targets.Document) result }
    ensures ready { K.is_ready link.new ≡ true }
    ensures beside { K.beside link.new ≡ K.beside link.old }
{
    let query = bin_query(alloc, reader, bin, rng)?;
    let chunks = reader.tested().shape().chunks();
    ask_ciphers(alloc, link, reader, Target::Document, query, chunks)
}

/// The bin of the picked record, the first where there is none.
pub fn bin_of(records: &[Record], pick: u32) -> u32
    requires { 1 ≤ pick }
    ensures { result ≡ bin_asked (picked_record records.now pick) }
{
    match records.get(pick as usize - 1) {
        Some(record) => record.place.bin,
        None => 0,
    }
}

/// The text at a place of the bin that a reply spells.
fn read_text(
    alloc: Global,
    reader: &Reader,
    body: &[u8],
    place: Place,
) -> Result<Bytes, SearchFault>
    requires whole { length body.now ≡ reply_size reader.now.shape targets.Document }
    requires within { is_within_bins reader.now.shape place ≡ true }
    ensures { (cs : List Ciphertext) → SpellsCiphers reader.now.shape.degree
        reader.now.shape.chunks cs body.now
        → IsReadAs result (text_read reader.now.secret cs place) }
{
    let shape = reader.tested().shape();
    let degree = Degree::of(shape.degree() as usize);
    let secret = reader.secret();
    let chunks = shape.chunks();
    let bin = open_part(alloc, secret, degree, body, chunks, Target::Document, 0)?;
    let start = place.offset as usize;
    let text = &bin.as_slice()[start..start + place.length as usize];
    match Bytes::copy_of(alloc, text) {
        Ok(text) => Ok(text),
        Err(_) => Err(SearchFault::OutOfMemory),
    }
}

/// The number and the text of the document of the picked record, from the reply that spells its
/// bin. Where no record is picked nothing is opened.
pub fn read_document(
    alloc: Global,
    reader: &Reader,
    body: &[u8],
    records: &[Record],
    pick: u32,
) -> Result<Option<(u32, Bytes)>, SearchFault>
    requires pick { 1 ≤ pick }
    requires whole { length body.now ≡ reply_size reader.now.shape targets.Document }
    requires within { All (λ r. is_within_bins reader.now.shape r.place ≡ true) records.now }
    ensures { (cs : List Ciphertext) → SpellsCiphers reader.now.shape.degree
        reader.now.shape.chunks cs body.now
        → IsReadAs result (picked_read reader.now.secret cs (picked_record records.now pick)) }
{
    let Some(record) = records.get(pick as usize - 1) else {
        return Ok(None);
    };
    let text = read_text(alloc, reader, body, record.place)?;
    Ok(Some((record.document, text)))
}
