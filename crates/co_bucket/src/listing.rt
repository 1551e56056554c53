//! The buckets in which a document may stand, and the documents that each bucket lists.

ghost use Rattle.std.specs.Prelude.{◌≡◌, ◌+◌, ◌<◌, ◌≤◌, ◌++◌, ℕ, List, [], ◌∷◌, length, slice_index_or, slice_set, IfOk, if◌then◌else◌};
ghost use Rattle.std.specs.List.{All};
ghost use Rattle.co_bucket.specs.Lists.{bucket_count, digest, word, candidates_of, is_in, lists_of};
ghost use Rattle.co_bucket.specs.Filling.{contents, AreShort, IsStepped};

use crate::{MOST_BUCKETS, MOST_ITEMS};
use sha2::{Digest, Sha256};
use std::alloc::{AllocError, Global};
use std::marker::Model;

/// How many buckets serve a number of hits.
pub fn buckets(hits: u32) -> u32
    requires some { 1 ≤ hits }
    requires few { hits ≤ MOST_ITEMS }
    ensures value { result ≡ bucket_count hits }
    ensures three { 3 ≤ result }
    ensures few { result ≤ MOST_BUCKETS }
{
    3u32.max((3 * hits).div_ceil(2))
}

#[tactic(auto, unfolding(crate::specs::Lists::digest))]
fn hash(salt: u32, document: u32) -> [u8; 32]
    ensures { result ≡ digest salt document }
{
    let mut hasher = Sha256::new();
    hasher.update(salt.to_be_bytes().as_slice());
    hasher.update(document.to_be_bytes().as_slice());
    hasher.finalize()
}

fn word_at(hash: &[u8; 32], at: usize) -> u64
    requires { at + 8 ≤ 32 }
    ensures { result ≡ word hash.now at }
{
    let mut bytes = [0; 8];
    bytes.copy_from_slice(&hash[at..at + 8]);
    u64::from_be_bytes(bytes)
}

/// The three buckets in which a document may stand, numbers below `buckets`; two of them may be the
/// same.
#[tactic(auto, unfolding(crate::specs::Lists::candidates_of))]
pub fn candidates(salt: u32, buckets: u32, document: u32) -> [u32; 3]
    requires { 0 < buckets }
    ensures value { result ≡ candidates_of salt buckets document }
    ensures within { All (λ b. b < buckets) result }
{
    let hash = hash(salt, document);
    let count = buckets as u64;
    [
        (word_at(&hash, 0) % count) as u32,
        (word_at(&hash, 8) % count) as u32,
        (word_at(&hash, 16) % count) as u32,
    ]
}

/// The documents that each bucket lists, ascending.
#[derive(Drop)]
pub struct Lists {
    lists: Vec<Vec<u32>>,
}

impl Model for Lists {
    ghost use Rattle.std.specs.Prelude.{ℕ, List};
    ghost use Rattle.co_bucket.specs.Filling.{contents, AreShort};

    ghost Value = { List (List ℕ) };

    ghost view = { λ l. contents l.lists.items };

    ghost invariant = { λ l. AreShort (contents l.lists.items) };
}

impl Lists {
    /// The documents that a bucket lists.
    pub fn list(&self, bucket: u32) -> &[u32]
        requires { bucket < length self.now }
        ensures { result.now ≡ slice_index_or self.now bucket [] }
    {
        self.lists[bucket as usize].as_slice()
    }

    /// The lists as vectors, for the crate's own counts.
    pub(crate) fn vectors(&self) -> &[Vec<u32>]
        ensures value { contents result.now ≡ self.now }
        ensures short { AreShort self.now }
    {
        self.lists.as_slice()
    }
}

/// The lists of all buckets for the documents below a number. Each document is hashed once.
pub fn bucket_lists(
    alloc: Global,
    salt: u32,
    buckets: u32,
    documents: u32,
) -> Result<Lists, AllocError>
    requires { 0 < buckets }
    ensures value { IfOk result (λ lists. lists ≡ lists_of salt buckets documents) }
    ensures many { IfOk result (λ lists. length lists ≡ buckets) }
{
    let lists = filled_lists(alloc, salt, buckets, documents)?;
    Ok(Lists { lists })
}

fn filled_lists(
    alloc: Global,
    salt: u32,
    buckets: u32,
    documents: u32,
) -> Result<Vec<Vec<u32>>, AllocError>
    requires { 0 < buckets }
    ensures { IfOk result (λ lists. contents lists.items ≡ lists_of salt buckets documents) }
{
    let mut lists = empty_lists(alloc, buckets)?;
    fill(&mut lists, salt, buckets, documents)?;
    Ok(lists)
}

fn empty_lists(alloc: Global, buckets: u32) -> Result<Vec<Vec<u32>>, AllocError>
    ensures many { IfOk result (λ lists. length lists.items ≡ buckets) }
    ensures empty { IfOk result (λ lists. (k : ℕ) → k < buckets
        → slice_index_or (contents lists.items) k [] ≡ []) }
{
    let mut lists: Vec<Vec<u32>> = Vec::with_capacity(alloc, buckets as usize)?;
    for bucket in 0..buckets {
        lists.push(Vec::new(alloc))?;
    }
    Ok(lists)
}

fn fill(lists: &mut [Vec<u32>], salt: u32, buckets: u32, documents: u32) -> Result<(), AllocError>
    requires some { 0 < buckets }
    requires many { length lists.old ≡ buckets }
    requires empty { (k : ℕ) → k < buckets → slice_index_or (contents lists.old) k [] ≡ [] }
    ensures { IfOk result (λ _. contents lists.new ≡ lists_of salt buckets documents) }
{
    for document in 0..documents {
        let row = candidates(salt, buckets, document);
        put_all(lists, &row, document)?;
    }
    Ok(())
}

/// Puts the document into the lists of its candidates, once into each.
fn put_all(lists: &mut [Vec<u32>], row: &[u32], document: u32) -> Result<(), AllocError>
    requires { All (λ b. b < length lists.old) row.now }
    ensures { IfOk result (λ _. IsStepped [] (λ list. list ++ document ∷ [])
        (contents lists.old) row.now (contents lists.new)) }
{
    for i in 0..row.len() {
        put_once(lists, &row[..i], row[i], document)?;
    }
    Ok(())
}

/// Puts the document into the bucket's list, unless it is there as one of `seen`.
fn put_once(
    lists: &mut [Vec<u32>],
    seen: &[u32],
    bucket: u32,
    document: u32,
) -> Result<(), AllocError>
    requires { bucket < length lists.old }
    ensures { IfOk result (λ _. contents lists.new ≡ (if is_in seen.now bucket
        then contents lists.old else slice_set (contents lists.old) bucket
        (slice_index_or (contents lists.old) bucket [] ++ document ∷ []))) }
{
    if seen.contains(&bucket) {
        return Ok(());
    }
    put(lists, bucket, document)
}

/// Puts the document at the end of the bucket's list.
fn put(lists: &mut [Vec<u32>], bucket: u32, document: u32) -> Result<(), AllocError>
    requires { bucket < length lists.old }
    ensures { IfOk result (λ _. contents lists.new ≡ slice_set (contents lists.old) bucket
        (slice_index_or (contents lists.old) bucket [] ++ document ∷ [])) }
{
    lists[bucket as usize].push(document)?;
    Ok(())
}
