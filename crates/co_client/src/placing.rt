//! Which bucket each hit is asked of, and where its record stands there.

ghost use Rattle.std.specs.Prelude.{◌≡◌, ◌<◌, ◌≤◌, ℕ, Option, length, map, Some, None, ◌==◌, slice_index_or, IfOk, IfSome};
ghost use Rattle.std.specs.List.{position, All};
ghost use Rattle.std.specs.Option.{unwrap_or};
ghost use Rattle.std.specs.Ordering.{nat_cmp};
ghost use Rattle.co_text.specs.Order.{in_order};
ghost use Rattle.co_bucket.specs.Lists.{bucket_count, lists_of};
ghost use Rattle.co_bucket.specs.Rows.{rows_of};
ghost use Rattle.co_bucket.specs.Bytes.{record_row};
ghost use Rattle.co_rounds.specs.Placing.{choices_of, document_at};
ghost use Rattle.co_client.specs.Placings.{ArePlaced, AreFree, place_asked, places_asked};

use co_bucket::{
    Lists, MOST_ITEMS, Numbers, PlaceFault, Placement, bucket_lists, buckets, candidates, place,
};
use co_noise::Shape;
use co_text::Ranked;
use std::alloc::{AllocError, Global};
use std::collections::BTreeSet;

/// Documents and buckets, ascending, one bucket fewer than documents: why hits can't be placed.
pub type Witness = (Numbers, Numbers);

/// Where hits are placed.
#[derive(Drop)]
pub struct Placing {
    /// Bucket by bucket the rank of the hit that is placed there, from 0.
    pub buckets: Placement,
    /// Why they can't be placed. Then no bucket has a hit.
    pub refused: Option<Witness>,
}

/// The candidate buckets of each hit, by rank.
fn choices(alloc: Global, shape: &Shape, hits: &[Ranked]) -> Result<Vec<[u32; 3]>, AllocError>
    ensures value { IfOk result (λ choices. choices.items ≡ choices_of shape.now hits.now) }
    ensures within { IfOk result (λ choices. All (All (λ b. b < bucket_count shape.now.hits))
        choices.items) }
{
    let _ = shape.degree();
    let count = buckets(shape.hits());
    let mut choices = Vec::with_capacity(alloc, hits.len())?;
    for hit in hits {
        choices.push(candidates(shape.salt(), count, hit.document))?;
    }
    Ok(choices)
}

/// The document of the hit of a rank.
fn document_of(hits: &[Ranked], rank: u32) -> u32
    requires { rank < length hits.now }
    ensures { result ≡ document_at hits.now rank }
{
    hits[rank as usize].document
}

/// The documents of the hits of these ranks.
fn ranked_documents(
    alloc: Global,
    hits: &[Ranked],
    ranks: &[u32],
) -> Result<BTreeSet<u32>, AllocError>
    requires { All (λ r. r < length hits.now) ranks.now }
    ensures { IfOk result
        (λ documents. documents.keys ≡ in_order nat_cmp (map (document_at hits.now) ranks.now)) }
{
    let mut documents = BTreeSet::new(alloc);
    for rank in ranks {
        documents.insert(document_of(hits, *rank))?;
    }
    Ok(documents)
}

/// Numbers in their order.
fn list_of(alloc: Global, numbers: &BTreeSet<u32>) -> Result<Numbers, AllocError>
    ensures { IfOk result (λ list. list ≡ numbers.now.keys) }
{
    let mut list = Numbers::with_capacity(alloc, numbers.len())?;
    for number in numbers.iter() {
        list.push(*number)?;
    }
    Ok(list)
}

/// So many buckets without a hit.
fn free_buckets(alloc: Global, count: u32) -> Result<Placement, AllocError>
    ensures { IfOk result (AreFree count) }
{
    Ok(Placement::from_vec(vec![in alloc; None; count as usize]?))
}

/// Places the hits of a search, each in one of its candidate buckets, no two in one.
pub fn place_hits(alloc: Global, shape: &Shape, hits: &[Ranked]) -> Result<Placing, AllocError>
    requires { length hits.now ≤ MOST_ITEMS }
    ensures { IfOk result
        (λ placing. ArePlaced shape.now hits.now placing.buckets placing.refused) }
{
    let _ = shape.degree();
    let count = buckets(shape.hits());
    let choices = choices(alloc, shape, hits)?;
    match place(alloc, &choices, count) {
        Ok(placed) => Ok(Placing {
            buckets: placed,
            refused: None,
        }),
        Err(PlaceFault::NoPlacement { items, buckets }) => {
            let ascending = ranked_documents(alloc, hits, items.as_slice())?;
            let documents = list_of(alloc, &ascending)?;
            Ok(Placing {
                buckets: free_buckets(alloc, count)?,
                refused: Some((documents, buckets)),
            })
        }
        Err(PlaceFault::OutOfMemory) => Err(AllocError),
    }
}

/// Where a document stands in a list.
fn found_in(list: &[u32], document: u32) -> Option<usize>
    ensures { result ≡ position (λ d. d == document) list.now }
{
    list.iter().position(|listed| *listed == document)
}

/// The place of a document in a list, 0 where it isn't there.
fn place_in(list: &[u32], document: u32) -> usize
    ensures { result ≡ unwrap_or (position (λ d. d == document) list.now) 0 }
{
    found_in(list, document).unwrap_or(0)
}

/// The place in a bucket's list of the record that is asked: that of the hit of a rank, else the
/// first.
fn place_of(shape: &Shape, lists: &Lists, hits: &[Ranked], rank: Option<u32>, bucket: u32) -> usize
    requires lists { lists.now ≡ lists_of shape.now.salt (bucket_count shape.now.hits)
        shape.now.documents }
    requires rank { IfSome rank (λ r. r < length hits.now) }
    requires bucket { bucket < bucket_count shape.now.hits }
    requires rows { shape.now.rows ≡ rows_of shape.now.degree shape.now.documents shape.now.hits
        shape.now.salt }
    ensures value { result ≡ place_asked shape.now hits.now rank bucket }
    ensures row { record_row shape.now.degree result < shape.now.rows }
{
    let _ = shape.degree();
    match rank {
        Some(rank) => place_in(lists.list(bucket), document_of(hits, rank)),
        None => 0,
    }
}

/// The rank of the hit that is placed in a bucket.
fn rank_at(placed: &[Option<u32>], bucket: u32) -> Option<u32>
    ensures { result ≡ slice_index_or placed.now bucket None }
{
    match placed.get(bucket as usize) {
        Some(rank) => *rank,
        None => None,
    }
}

/// Bucket by bucket, the place in its list of the record that is asked.
pub fn places(
    alloc: Global,
    shape: &Shape,
    hits: &[Ranked],
    placed: &[Option<u32>],
) -> Result<Vec<usize>, AllocError>
    requires rows { shape.now.rows ≡ rows_of shape.now.degree shape.now.documents shape.now.hits
        shape.now.salt }
    requires ranks { (b r : ℕ) → slice_index_or placed.now b None ≡ Some r → r < length hits.now }
    ensures value { IfOk result
        (λ places. places.items ≡ places_asked shape.now hits.now placed.now) }
    ensures rows { IfOk result (λ places. All (λ p. record_row shape.now.degree p < shape.now.rows)
        places.items) }
{
    let _ = shape.degree();
    let count = buckets(shape.hits());
    let lists = bucket_lists(alloc, shape.salt(), count, shape.documents())?;
    let mut places = Vec::with_capacity(alloc, count as usize)?;
    for bucket in 0..count {
        let rank = rank_at(placed, bucket);
        places.push(place_of(shape, &lists, hits, rank, bucket))?;
    }
    Ok(places)
}
