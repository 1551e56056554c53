//! Finds a bucket for an item that has none, by moving others, or tells why there is none.
//!
//! The search goes breadth first over the items that can be left without a bucket in its stead. For
//! each of them it keeps the whole assignment of the others, so that no path is ever walked back.

ghost use Rattle.std.specs.Prelude.{◌≡◌, ◌≢◌, ◌+◌, ◌<◌, ◌≤◌, ℕ, [], length, slice_index, IfOk, IfSome, MatchOption};
ghost use Rattle.std.specs.List.{Contains};
ghost use Rattle.co_bucket.specs.Placement.{IsCandidate, IsAssignmentBut};
ghost use Rattle.co_bucket.specs.Reached.{AreReached, AreKept, IsStep, IfUnplaced, IsClosed};
ghost use Rattle.co_bucket.specs.Found.{IsFound};

use crate::MOST_ITEMS;
use std::alloc::{AllocError, Global};

/// The bucket of each item.
pub(crate) type Choices = [u32; MOST_ITEMS];

/// The item below `count` other than `hole` that has the bucket.
fn owner(choices: &Choices, count: usize, hole: usize, bucket: u32) -> Option<usize>
    requires { count ≤ MOST_ITEMS }
    ensures none { MatchOption result ((x : ℕ) → x < count → x ≢ hole
        → slice_index choices.now x ≢ bucket) (λ z. z < count) }
    ensures some { IfSome result (λ z. slice_index choices.now z ≡ bucket) }
    ensures other { IfSome result (λ z. z ≢ hole) }
{
    for i in 0..count {
        if i != hole && choices[i] == bucket {
            return Some(i);
        }
    }
    None
}

/// Items that can be left without a bucket, in the order in which they were found, and the bucket
/// that each but the first gave up; beside each item, the choices of all the others.
#[derive(Drop)]
pub(crate) struct Reached {
    pub(crate) items: Vec<u32>,
    pub(crate) buckets: Vec<u32>,
    pub(crate) shifted: Vec<Choices>,
}

/// Gives the bucket, a candidate, to the item reached at `at`: all are placed then, or its owner is
/// reached.
fn reach(
    candidates: &[[u32; 3]],
    choices: &Choices,
    count: usize,
    hole: usize,
    reached: &mut Reached,
    at: usize,
    bucket: u32,
) -> Result<Option<Choices>, AllocError>
    requires count { count ≤ MOST_ITEMS }
    requires reached { AreReached candidates.now count hole choices.now reached.old }
    requires at { at < length reached.old.items.items }
    requires bucket { IsCandidate candidates.now (slice_index reached.old.items.items at) bucket }
    ensures placed { IfOk result (IsStep candidates.now count hole choices.now reached.new) }
    ensures kept { IfOk result (IfUnplaced (AreKept reached.old reached.new)) }
    ensures closed { IfOk result (IfUnplaced (Contains reached.new.buckets.items bucket)) }
{
    if reached.buckets.contains(&bucket) {
        return Ok(None);
    }
    let mut filled = reached.shifted[at];
    filled[reached.items[at] as usize] = bucket;
    let Some(other) = owner(choices, count, hole, bucket) else {
        return Ok(Some(filled));
    };
    reached.items.push(other as u32)?;
    reached.buckets.push(bucket)?;
    reached.shifted.push(filled)?;
    Ok(None)
}

/// Tries each candidate of the item reached at `at`.
fn explore(
    candidates: &[[u32; 3]],
    choices: &Choices,
    count: usize,
    hole: usize,
    reached: &mut Reached,
    at: usize,
) -> Result<Option<Choices>, AllocError>
    requires count { count ≤ MOST_ITEMS }
    requires within { count ≤ length candidates.now }
    requires reached { AreReached candidates.now count hole choices.now reached.old }
    requires at { at < length reached.old.items.items }
    ensures placed { IfOk result (IsStep candidates.now count hole choices.now reached.new) }
    ensures kept { IfOk result (IfUnplaced (AreKept reached.old reached.new)) }
    ensures closed { IfOk result (IfUnplaced
        (IsClosed candidates.now reached.new.items.items reached.new.buckets.items at)) }
{
    let row = candidates[reached.items[at] as usize];
    for bucket in row {
        if let Some(placed) = reach(candidates, choices, count, hole, reached, at, bucket)? {
            return Ok(Some(placed));
        }
    }
    Ok(None)
}

/// What a search ends with: choices of all the items, or the items and buckets that were reached in
/// vain.
#[derive(Drop)]
pub(crate) enum Found {
    /// The bucket of each item.
    Placed(Choices),
    /// The items and buckets that were reached, one bucket fewer than items.
    Blocked { items: Vec<u32>, buckets: Vec<u32> },
}

/// Places all items below `count`, of which `hole` alone has no bucket.
pub(crate) fn search(
    alloc: Global,
    candidates: &[[u32; 3]],
    choices: &Choices,
    count: usize,
    hole: usize,
) -> Result<Found, AllocError>
    requires count { count ≤ MOST_ITEMS }
    requires within { count ≤ length candidates.now }
    requires hole { hole < count }
    requires placed { IsAssignmentBut candidates.now count hole choices.now }
    ensures { IfOk result (λ found. IsFound candidates.now count found) }
{
    let mut reached = Reached {
        items: Vec::new(alloc),
        buckets: Vec::new(alloc),
        shifted: Vec::new(alloc),
    };
    reached.items.push(hole as u32)?;
    reached.shifted.push(*choices)?;
    let mut at = 0;
    while at < reached.items.len() {
        if let Some(placed) = explore(candidates, choices, count, hole, &mut reached, at)? {
            return Ok(Found::Placed(placed));
        }
        at += 1;
    }
    Ok(Found::Blocked {
        items: reached.items,
        buckets: reached.buckets,
    })
}
