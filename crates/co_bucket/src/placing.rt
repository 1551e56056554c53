//! Puts items into buckets, one a bucket: the least assignment, or why there is none.

ghost use Rattle.std.specs.Prelude.{◌≡◌, ◌≢◌, ◌+◌, ◌<◌, ◌≤◌, ℕ, List, [], ◌∷◌, length, slice_index, slice_set, IfOk, MatchResult};
ghost use Rattle.std.specs.List.{All, Contains};
ghost use Rattle.co_bucket.specs.Placement.{IsAssignment, IsLeast, IsInverse, IsPlacement};
ghost use Rattle.co_bucket.specs.Refusal.{Refuses};

use crate::MOST_ITEMS;
use crate::finding::{Choices, Found, search};
use co_list::Listed;
use std::alloc::{AllocError, Global};
use thiserror::Error;

/// Bucket by bucket, the position of the item that is placed there.
pub type Placement = Listed<Option<u32>>;

/// Numbers of items or of buckets, in order.
pub type Numbers = Listed<u32>;

/// Why items are not placed.
#[derive(Debug, Drop, Error)]
pub enum PlaceFault {
    /// The witness that there is no assignment: items and buckets, ascending, one bucket fewer than
    /// items.
    ///
    /// In the shortest prefix without an assignment the items are those without any one of which
    /// that prefix has one; the buckets are all their candidates.
    #[error("no placement")]
    NoPlacement { items: Numbers, buckets: Numbers },
    #[error("out of memory")]
    OutOfMemory,
}

/// The items before `item` are placed: places it too.
fn place_one(
    alloc: Global,
    candidates: &[[u32; 3]],
    choices: &Choices,
    item: usize,
) -> Result<Choices, PlaceFault>
    requires few { length candidates.now ≤ MOST_ITEMS }
    requires item { item < length candidates.now }
    requires placed { IsAssignment candidates.now item choices.now }
    ensures { MatchResult result (λ bs. IsAssignment candidates.now (item + 1) bs)
        (Refuses candidates.now) }
{
    match search(alloc, candidates, choices, item + 1, item) {
        Err(_) => Err(PlaceFault::OutOfMemory),
        Ok(Found::Placed(placed)) => Ok(placed),
        Ok(
            Found::Blocked {
                mut items,
                mut buckets,
            },
        ) => {
            items.sort_unstable();
            buckets.sort_unstable();
            Err(PlaceFault::NoPlacement {
                items: Numbers::from_vec(items),
                buckets: Numbers::from_vec(buckets),
            })
        }
    }
}

/// An assignment of all items.
fn assign(alloc: Global, candidates: &[[u32; 3]]) -> Result<Choices, PlaceFault>
    requires few { length candidates.now ≤ MOST_ITEMS }
    ensures { MatchResult result (λ bs. IsAssignment candidates.now (length candidates.now) bs)
        (Refuses candidates.now) }
{
    let mut choices = [0; MOST_ITEMS];
    for item in 0..candidates.len() {
        choices = place_one(alloc, candidates, &choices, item)?;
    }
    Ok(choices)
}

/// Moves the item to `bucket`, one of its candidates `row`, where that is lower and the others can
/// follow.
fn prefer(
    alloc: Global,
    narrowed: &mut [[u32; 3]],
    row: [u32; 3],
    choices: Choices,
    item: usize,
    bucket: u32,
) -> Result<Choices, AllocError>
    requires few { length narrowed.old ≤ MOST_ITEMS }
    requires item { item < length narrowed.old }
    requires of { Contains row bucket }
    requires placed { IsAssignment (slice_set narrowed.old item row) (length narrowed.old) choices }
    ensures same { IfOk result (λ bs. slice_set narrowed.new item row
        ≡ slice_set narrowed.old item row) }
    ensures placed { IfOk result (λ bs. IsAssignment (slice_set narrowed.old item row)
        (length narrowed.old) bs) }
    ensures lower { IfOk result (λ bs. slice_index bs item ≤ slice_index choices item) }
    ensures least { IfOk result (λ bs. (f : List ℕ)
        → IsAssignment (slice_set narrowed.old item row) (length narrowed.old) f
        → slice_index f item ≡ bucket → slice_index bs item ≤ bucket) }
{
    if choices[item] <= bucket {
        return Ok(choices);
    }
    narrowed[item] = [bucket; 3];
    if let Found::Placed(better) = search(alloc, narrowed, &choices, narrowed.len(), item)? {
        return Ok(better);
    }
    Ok(choices)
}

/// Gives the item the lowest bucket that leaves the others an assignment, and leaves it no other
/// candidate.
fn lower(
    alloc: Global,
    narrowed: &mut [[u32; 3]],
    choices: Choices,
    item: usize,
) -> Result<Choices, AllocError>
    requires few { length narrowed.old ≤ MOST_ITEMS }
    requires item { item < length narrowed.old }
    requires placed { IsAssignment narrowed.old (length narrowed.old) choices }
    ensures changed { IfOk result (λ bs. narrowed.new ≡ slice_set narrowed.old item
        (slice_index bs item ∷ slice_index bs item ∷ slice_index bs item ∷ [])) }
    ensures placed { IfOk result (λ bs. IsAssignment narrowed.old (length narrowed.old) bs) }
    ensures least { IfOk result (λ bs. (f : List ℕ)
        → IsAssignment narrowed.old (length narrowed.old) f
        → slice_index bs item ≤ slice_index f item) }
{
    let row = narrowed[item];
    let mut choices = choices;
    for bucket in row {
        choices = prefer(alloc, narrowed, row, choices, item, bucket)?;
    }
    let bucket = choices[item];
    narrowed[item] = [bucket; 3];
    Ok(choices)
}

/// The least assignment, from any. Each item in turn keeps in `narrowed` the one bucket that it
/// got.
fn lower_all(
    alloc: Global,
    candidates: &[[u32; 3]],
    narrowed: &mut [[u32; 3]],
    choices: Choices,
) -> Result<Choices, AllocError>
    requires few { length candidates.now ≤ MOST_ITEMS }
    requires same { narrowed.old ≡ candidates.now }
    requires placed { IsAssignment candidates.now (length candidates.now) choices }
    ensures { IfOk result (IsLeast candidates.now) }
{
    let mut choices = choices;
    for item in 0..candidates.len() {
        choices = lower(alloc, narrowed, choices, item)?;
    }
    Ok(choices)
}

/// The least assignment, from any.
fn least(alloc: Global, candidates: &[[u32; 3]], choices: Choices) -> Result<Choices, AllocError>
    requires few { length candidates.now ≤ MOST_ITEMS }
    requires placed { IsAssignment candidates.now (length candidates.now) choices }
    ensures { IfOk result (IsLeast candidates.now) }
{
    let mut narrowed = Vec::from_slice(alloc, candidates)?;
    lower_all(alloc, candidates, &mut narrowed, choices)
}

/// Bucket by bucket, the item that is there.
fn by_bucket(
    alloc: Global,
    choices: &Choices,
    count: usize,
    buckets: u32,
) -> Result<Vec<Option<u32>>, AllocError>
    requires few { count ≤ MOST_ITEMS }
    requires within { (i : ℕ) → i < count → slice_index choices.now i < buckets }
    requires apart { (i j : ℕ) → i < j → j < count → slice_index choices.now i
        ≢ slice_index choices.now j }
    ensures length { IfOk result (λ placed. length placed.items ≡ buckets) }
    ensures inverse { IfOk result (λ placed. IsInverse count choices.now placed.items) }
{
    let mut placed = vec![in alloc; None; buckets as usize]?;
    for item in 0..count {
        placed[choices[item] as usize] = Some(item as u32);
    }
    Ok(placed)
}

/// Places each item in one of its candidate buckets, numbers below `buckets`, no two items in one.
///
/// Of all assignments it takes the one whose list of buckets, item by item, is the first in
/// lexicographic order. It grows augmenting paths breadth first, without recursion.
pub fn place(alloc: Global, candidates: &[[u32; 3]], buckets: u32) -> Result<Placement, PlaceFault>
    requires few { length candidates.now ≤ MOST_ITEMS }
    requires within { All (All (λ b. b < buckets)) candidates.now }
    ensures { MatchResult result (IsPlacement candidates.now buckets) (Refuses candidates.now) }
{
    let assigned = assign(alloc, candidates)?;
    let Ok(choices) = least(alloc, candidates, assigned) else {
        return Err(PlaceFault::OutOfMemory);
    };
    let Ok(placed) = by_bucket(alloc, &choices, candidates.len(), buckets) else {
        return Err(PlaceFault::OutOfMemory);
    };
    Ok(Placement::from_vec(placed))
}
