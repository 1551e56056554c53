//! The round of the records.

ghost use Rattle.std.specs.Prelude.{◌≡◌, ◌+◌, ◌*◌, ◌<◌, ◌≤◌, true, ℕ, List, Option, Some, None, Ok, length, map, IfOk, IfErr, OnOk};
ghost use Rattle.std.specs.List.{All, position};
ghost use Rattle.co_link.specs.declared.messages.Target.TheVariants as targets;
ghost use Rattle.co_noise.specs.Limits.{most_hits};
ghost use Rattle.co_bucket.specs.Lists.{bucket_count};
ghost use Rattle.co_bucket.specs.Rows as rows_specs;
ghost use Rattle.co_bucket.specs.Bytes as layouts;
ghost use Rattle.co_bucket.specs.Bytes.{record_row};
ghost use Rattle.co_bfv.specs.Ciphertexts.{Ciphertext};
ghost use Rattle.co_pack.specs.Records.{record_of};
ghost use Rattle.co_wire.specs.Bodies.{SpellsCiphers, ciphers_bytes};
ghost use Rattle.co_wire.specs.Lengths.{reply_size};
ghost use Rattle.co_rounds.specs.Asked.{encryptions_draw};
ghost use Rattle.co_rounds.specs.Placing.{place_in_bucket};
ghost use Rattle.co_rounds.specs.Recording as recordings;
ghost use Rattle.co_client.specs.Rounds.{round_call, RoundFails, LinkFails, Gives, queries_request, queries_rest, record_messages};
ghost use Rattle.co_client.specs.Placings.{places_asked, HaveBuckets, ArePlaced, shown_of};
ghost use Rattle.co_client.specs.Gathered.{with_bins, ReadsReplies, RecordsFail, records_rest};
ghost use Rattle.co_client.specs.Records as readings;
ghost use Rattle.co_client.specs.Records.{checked, record_read, records_read};
ghost use Rattle.co_client.specs.Faults.{IsReadAs};

use crate::fault::SearchFault;
use crate::placing::places;
use crate::querying::{ask_ciphers, put_row};
use crate::ranking::Ranked;
use crate::reading::open_part;
use crate::starting::Reader;
use co_bucket::{RECORD_COEFFICIENTS, buckets};
use co_link::{Bytes, Link, Target};
use co_list::Listed;
use co_noise::Shape;
use co_pack::{Place, RECORD_BYTES, Record, RecordFault, read_record};
use co_ring::Degree;
use co_text::Ranked as RankedDocument;
use co_wire::{record_chunks, request_length};
use rand_core::Rng;
use std::alloc::{AllocError, Global};

/// How many records a row of a bucket holds.
fn records_a_row(degree: u32) -> u32
    ensures value { result ≡ rows_specs.records_a_row degree }
    ensures some { 1 ≤ result }
{
    1u32.max(degree / RECORD_COEFFICIENTS)
}

/// The row of the record at a place of a bucket's list.
fn row_of(degree: u32, place: usize) -> usize
    ensures { result ≡ record_row degree place }
{
    place / records_a_row(degree) as usize
}

/// The body of a request for records: a query for the row of a place in each bucket.
fn record_queries<R: Rng>(
    alloc: Global,
    reader: &Reader,
    places: &[usize],
    rng: &mut R,
) -> Result<Bytes, AllocError>
    requires { All (λ p. record_row reader.now.shape.degree p < reader.now.shape.rows) places.now }
    ensures body { IfOk result (λ body. body ≡ ciphers_bytes (encryptions_draw reader.now.secret
        (record_messages reader.now.shape (map (record_row reader.now.shape.degree) places.now))
        (R.stream rng.old)).0) }
    ensures rest { OnOk result (R.stream rng.new ≡ queries_rest reader.now.secret
        (record_messages reader.now.shape (map (record_row reader.now.shape.degree) places.now))
        (R.stream rng.old)) }
{
    let shape = reader.tested().shape();
    let degree = shape.degree();
    let rows = shape.rows();
    let room = request_length(reader.tested(), Target::Meta);
    let mut body = Vec::with_capacity(alloc, room as usize)?;
    for place in places {
        let row = row_of(degree, *place) as u32;
        put_row(alloc, reader, rows, row, rng, &mut body)?;
    }
    Ok(Bytes::from_vec(body))
}

/// Asks each bucket for the row of a place in its list, and gives the body of the reply, which
/// spells what each bucket answers. After an error the rest of the stream is not stated.
fn gather<K: Link, R: Rng>(
    alloc: Global,
    link: &mut K,
    rng: &mut R,
    reader: &Reader,
    places: &[usize],
) -> Result<Bytes, SearchFault>
    requires ready { K.is_ready link.old ≡ true }
    requires rows { All (λ p. record_row reader.now.shape.degree p < reader.now.shape.rows)
        places.now }
    ensures came { IfOk result
        (Gives reader.now.shape.degree
        (bucket_count reader.now.shape.hits * layouts.record_chunks reader.now.shape.degree)
        (K.exchanges link.old) (K.exchanges link.new)
        (queries_request targets.Meta reader.now.secret
        (record_messages reader.now.shape (map (record_row reader.now.shape.degree) places.now))
        (R.stream rng.old))) }
    ensures rest { OnOk result (R.stream rng.new ≡ queries_rest reader.now.secret
        (record_messages reader.now.shape (map (record_row reader.now.shape.degree) places.now))
        (R.stream rng.old)) }
    ensures refused { IfErr result
        (RoundFails (reply_size reader.now.shape targets.Meta) (K.exchanges link.old)
        (K.exchanges link.new)
        (queries_request targets.Meta reader.now.secret
        (record_messages reader.now.shape (map (record_row reader.now.shape.degree) places.now))
        (R.stream rng.old))) }
    ensures cause { LinkFails (K.faults link.old) (K.faults link.new) (K.last_failed link.new)
        (round_call reader.now.shape targets.Meta) result }
    ensures ready { K.is_ready link.new ≡ true }
    ensures beside { K.beside link.new ≡ K.beside link.old }
{
    let queries = record_queries(alloc, reader, places, rng)?;
    let shape = reader.tested().shape();
    let degree = shape.degree();
    let count = buckets(shape.hits()) * record_chunks(degree);
    ask_ciphers(alloc, link, reader, Target::Meta, queries, count)
}

/// Whether a place is inside so many bins.
fn is_within_bins(shape: &Shape, bins: u32, place: Place) -> bool
    ensures { result ≡ recordings.is_within_bins (with_bins shape.now bins) place }
{
    let _ = shape.degree();
    place.bin < bins
        && place.offset as u64 + place.length as u64
            <= shape.chunks() as u64 * (2 * shape.degree() as u64)
}

/// The record of a document, where it is whole, the document's own, and its place is inside so many
/// bins.
fn check_record(
    alloc: Global,
    shape: &Shape,
    bins: u32,
    document: u32,
    bytes: &[u8],
) -> Result<Record, SearchFault>
    requires { length bytes.now ≡ RECORD_BYTES }
    ensures read { IsReadAs result
        (checked (with_bins shape.now bins) document (record_of bytes.now)) }
    ensures within { IfOk result
        (λ r. recordings.is_within_bins (with_bins shape.now bins) r.place ≡ true) }
{
    let record = match read_record(alloc, bytes) {
        Ok(record) => record,
        Err(RecordFault::BadRecord { place }) => {
            return Err(SearchFault::BadRecord { document, place });
        }
        Err(RecordFault::OutOfMemory) => return Err(SearchFault::OutOfMemory),
    };
    if record.document != document {
        return Err(SearchFault::WrongRecord {
            wanted: document,
            found: record.document,
        });
    }
    if !is_within_bins(shape, bins, record.place) {
        return Err(SearchFault::BadPlace { document });
    }
    Ok(record)
}

/// The record of a document that stands at a place of a bucket's list.
fn read_one(
    alloc: Global,
    reader: &Reader,
    body: &[u8],
    bins: u32,
    bucket: u32,
    place: usize,
    document: u32,
) -> Result<Record, SearchFault>
    requires whole { length body.now ≡ reply_size reader.now.shape targets.Meta }
    requires bucket { bucket < bucket_count reader.now.shape.hits }
    requires place { place ≡ place_in_bucket reader.now.shape bucket document }
    ensures read { (cs : List Ciphertext) (all : ℕ) → SpellsCiphers reader.now.shape.degree
        all cs body.now
        → IsReadAs result (record_read (with_bins reader.now.shape bins) reader.now.secret cs
        bucket document) }
    ensures within { IfOk result (λ r. recordings.is_within_bins (with_bins reader.now.shape bins)
        r.place ≡ true) }
{
    let shape = reader.tested().shape();
    let size = shape.degree();
    let degree = Degree::of(size as usize);
    let count = record_chunks(size);
    let secret = reader.secret();
    let row = open_part(alloc, secret, degree, body, count, Target::Meta, bucket)?;
    let start = RECORD_BYTES * (place % records_a_row(size) as usize);
    check_record(
        alloc,
        shape,
        bins,
        document,
        &row.as_slice()[start..start + RECORD_BYTES],
    )
}

/// Whether the hit of a rank is placed here.
fn is_placed_here(item: &Option<u32>, rank: u32) -> bool
    ensures { result ≡ readings.is_placed_here rank item.now }
{
    match item {
        Some(placed) => *placed == rank,
        None => false,
    }
}

/// Where the hit of a rank is placed.
fn placed_at(placed: &[Option<u32>], rank: u32) -> Option<usize>
    ensures { result ≡ position (readings.is_placed_here rank) placed.now }
{
    placed.iter().position(|item| is_placed_here(item, rank))
}

/// The bucket in which the hit of a rank is placed.
fn bucket_of(placed: &[Option<u32>], rank: u32) -> usize
    ensures { result ≡ readings.bucket_of placed.now rank }
{
    placed_at(placed, rank).unwrap_or(0)
}

/// The records of hits by rank, from the replies of the buckets in which they are placed. A place
/// is to be inside so many bins.
fn read_records(
    alloc: Global,
    reader: &Reader,
    body: &[u8],
    bins: u32,
    hits: &[RankedDocument],
    placed: &[Option<u32>],
    places: &[usize],
) -> Result<Listed<Record>, SearchFault>
    requires whole { length body.now ≡ reply_size reader.now.shape targets.Meta }
    requires placed { HaveBuckets reader.now.shape hits.now placed.now }
    requires few { length hits.now ≤ most_hits }
    requires places { places.now ≡ places_asked reader.now.shape hits.now placed.now }
    ensures read { (cs : List Ciphertext) (all : ℕ) → SpellsCiphers reader.now.shape.degree
        all cs body.now
        → IsReadAs result (records_read (with_bins reader.now.shape bins) reader.now.secret cs
        placed.now 0 hits.now) }
    ensures within { IfOk result
        (λ records. All (λ r. recordings.is_within_bins (with_bins reader.now.shape bins) r.place
        ≡ true) records) }
    ensures long { IfOk result (λ records. length records ≡ length hits.now) }
{
    let _ = reader.tested().shape().degree();
    let Ok(mut records) = Listed::with_capacity(alloc, hits.len()) else {
        return Err(SearchFault::OutOfMemory);
    };
    for rank in 0..hits.len() {
        let bucket = bucket_of(placed, rank as u32);
        let place = places[bucket];
        let document = hits[rank].document;
        let record = read_one(alloc, reader, body, bins, bucket as u32, place, document)?;
        let Ok(()) = records.push(record) else {
            return Err(SearchFault::OutOfMemory);
        };
    }
    Ok(records)
}

/// Asks for the records of ranked hits, and gives them by rank; none where the hits can't be
/// placed. A place is to be inside so many bins. After an error the rest of the stream is not
/// stated.
pub fn records<K: Link, R: Rng>(
    alloc: Global,
    reader: &Reader,
    link: &mut K,
    rng: &mut R,
    ranked: &Ranked,
    bins: u32,
) -> Result<Listed<Record>, SearchFault>
    requires ready { K.is_ready link.old ≡ true }
    requires rows { reader.now.shape.rows ≡ rows_specs.rows_of reader.now.shape.degree
        reader.now.shape.documents reader.now.shape.hits reader.now.shape.salt }
    requires few { length ranked.now.hits ≤ reader.now.shape.hits }
    requires placed { ArePlaced reader.now.shape ranked.now.hits ranked.now.buckets
        ranked.now.refused }
    ensures read { IfOk result
        (λ records. ReadsReplies reader.now ranked.now bins (K.exchanges link.old)
        (K.exchanges link.new) (R.stream rng.old) (Ok records)) }
    ensures long { IfOk result
        (λ records. length records ≡ length (shown_of ranked.now.refused ranked.now.hits)) }
    ensures within { IfOk result
        (λ records. All (λ r. recordings.is_within_bins (with_bins reader.now.shape bins) r.place
        ≡ true) records) }
    ensures rest { OnOk result
        (R.stream rng.new ≡ records_rest reader.now ranked.now (R.stream rng.old)) }
    ensures refused { IfErr result (RecordsFail reader.now ranked.now bins (K.exchanges link.old)
        (K.exchanges link.new) (R.stream rng.old)) }
    ensures cause { LinkFails (K.faults link.old) (K.faults link.new) (K.last_failed link.new)
        (round_call reader.now.shape targets.Meta) result }
    ensures ready { K.is_ready link.new ≡ true }
    ensures beside { K.beside link.new ≡ K.beside link.old }
{
    let shape = reader.tested().shape();
    let _ = shape.degree();
    let hits = ranked.shown();
    let placed = ranked.buckets.as_slice();
    let Ok(spots) = places(alloc, shape, hits, placed) else {
        return Err(SearchFault::OutOfMemory);
    };
    let asked = spots.as_slice();
    let rows = gather(alloc, link, rng, reader, asked)?;
    read_records(alloc, reader, rows.as_slice(), bins, hits, placed, asked)
}
