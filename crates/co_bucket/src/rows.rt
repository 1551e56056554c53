//! How many rows of records hold the lists of the buckets.

ghost use Rattle.std.specs.Prelude.{◌≡◌, ◌+◌, ◌<◌, ◌≤◌, ◌^◌, [], length, take, map, max, false, slice_index, slice_set, if◌then◌else◌};
ghost use Rattle.std.specs.List.{All, fold};
ghost use Rattle.std.specs.Int.{div_ceil};
ghost use Rattle.co_bucket.specs.Lists.{bucket_count, is_in, lists_of};
ghost use Rattle.co_bucket.specs.Rows.{records_a_row, longest, row_count, rows_of, IsRowCount};
ghost use Rattle.co_bucket.specs.Filling.{contents, AreShort, IsStepped};

use crate::listing::{Lists, buckets, candidates};
use crate::{MOST_BUCKETS, MOST_ITEMS};

/// How many rows of a polynomial of the degree hold the records of each list, 256 bytes a record.
///
/// A row has two bytes a coefficient, and one record at least.
#[tactic(auto, unfolding(crate::specs::Rows::row_count))]
pub fn record_rows(lists: &Lists, degree: u32) -> u32
    ensures value { result ≡ row_count lists.now degree }
    ensures least { IsRowCount lists.now (records_a_row degree) result }
{
    rows_for(longest_length(lists.vectors()), degree)
}

/// The same for the documents below a number and the buckets of so many hits, with no lists.
///
/// It takes no memory, and hashes each document once.
#[tactic(auto, unfolding(crate::specs::Rows::rows_of, crate::specs::Rows::row_count))]
pub fn rows_needed(degree: u32, documents: u32, hits: u32, salt: u32) -> u32
    requires some { 1 ≤ hits }
    requires few { hits ≤ MOST_ITEMS }
    ensures value { result ≡ rows_of degree documents hits salt }
    ensures least { IsRowCount (lists_of salt (bucket_count hits) documents)
        (records_a_row degree) result }
{
    let buckets = buckets(hits);
    let counts = list_lengths(salt, buckets, documents);
    rows_for(greatest(&counts[..buckets as usize]), degree)
}

/// The coefficients that hold a record of 256 bytes, two bytes each.
pub const RECORD_COEFFICIENTS: u32 = 128;

/// How many rows hold the longest list.
fn rows_for(longest: u32, degree: u32) -> u32
    ensures { result ≡ max 1 (div_ceil longest (records_a_row degree)) }
{
    1u32.max(longest.div_ceil(1u32.max(degree / RECORD_COEFFICIENTS)))
}

/// The length of the longest list.
fn longest_length(lists: &[Vec<u32>]) -> u32
    requires { AreShort (contents lists.now) }
    ensures { result ≡ longest (contents lists.now) }
{
    let mut most = 0u32;
    for i in 0..lists.len() {
        most = most.max(lists[i].len() as u32);
    }
    most
}

/// The greatest of some numbers, 0 where there is none.
pub fn greatest(numbers: &[u32]) -> u32
    ensures { result ≡ fold max 0 numbers.now }
{
    let mut most = 0;
    for number in numbers {
        most = most.max(*number);
    }
    most
}

/// How many documents each bucket lists.
fn list_lengths(salt: u32, buckets: u32, documents: u32) -> [u32; MOST_BUCKETS]
    requires some { 0 < buckets }
    requires few { buckets ≤ MOST_BUCKETS }
    ensures { take buckets result ≡ map length (lists_of salt buckets documents) }
{
    let mut counts = [0; MOST_BUCKETS];
    for document in 0..documents {
        let row = candidates(salt, buckets, document);
        count_all(&mut counts, &row, document);
    }
    counts
}

/// Counts one document more at each of its candidates, after the documents before it.
fn count_all(counts: &mut [u32], row: &[u32], document: u32)
    requires within { All (λ b. b < length counts.old) row.now }
    requires room { document + 1 < 2 ^ 32 }
    requires few { All (λ b. slice_index counts.old b ≤ document) row.now }
    ensures { IsStepped 0 (λ n. n + 1) counts.old row.now counts.new }
{
    for i in 0..row.len() {
        count_once(counts, &row[..i], row[i]);
    }
}

/// Counts one more at the bucket, unless it was done as one of `seen`.
fn count_once(counts: &mut [u32], seen: &[u32], bucket: u32)
    requires within { bucket < length counts.old }
    requires room { is_in seen.now bucket ≡ false → slice_index counts.old bucket + 1 < 2 ^ 32 }
    ensures { counts.new ≡ (if is_in seen.now bucket then counts.old
        else slice_set counts.old bucket (slice_index counts.old bucket + 1)) }
{
    if !seen.contains(&bucket) {
        counts[bucket as usize] += 1;
    }
}
