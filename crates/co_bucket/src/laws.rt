//! Facts on lists, rows and placements. Each function returns nothing: its contract is the fact.

ghost use Rattle.std.specs.Prelude.{◌≡◌, ◌*◌, ◌<◌, ◌↔◌, ℕ, List, [], length, take, drop, slice_index, slice_index_or, Option};
ghost use Rattle.std.specs.List.{Contains};
ghost use Rattle.std.specs.List.Sorted.{IsStrictlyIncreasing};
ghost use Rattle.co_bucket.specs.Lists.{bucket_count, candidates_of, listed, lists_of};
ghost use Rattle.co_bucket.specs.Rows.{records_a_row, rows_of, IsRowCount};
ghost use Rattle.co_bucket.specs.Bytes.{row_size, record_chunks, bucket_bytes, row_of, record_row, record_start, AreHeld};
ghost use Rattle.co_bucket.specs.Placement.{IsAssignment, IsLeast, IsPlacement, IsWitness};

/// A document is in a bucket's list exactly where the bucket is one of its candidates. A list
/// ascends.
pub fn lists_by_candidates()
    ensures of { (salt buckets documents bucket : ℕ) → bucket < buckets
        → slice_index_or (lists_of salt buckets documents) bucket []
        ≡ listed salt buckets documents bucket }
    ensures members { (salt buckets documents bucket document : ℕ)
        → Contains (listed salt buckets documents bucket) document
        ↔ ((document < documents) × Contains (candidates_of salt buckets document) bucket) }
    ensures ascend { (salt buckets documents bucket : ℕ)
        → IsStrictlyIncreasing (listed salt buckets documents bucket) }
{}

/// The rows of a shape are the fewest, at least one, that hold the list of each bucket.
pub fn rows_are_fewest()
    ensures { (degree documents hits salt : ℕ)
        → IsRowCount (lists_of salt (bucket_count hits) documents) (records_a_row degree)
        (rows_of degree documents hits salt) }
{}

/// The record at a position of a bucket's list stands in its row, and all rows are whole.
pub fn records_stand()
    ensures whole { (degree rows : ℕ) (spelled : ℕ → List ℕ) (list : List ℕ)
        → AreHeld degree rows spelled list → length (bucket_bytes degree rows spelled list)
        ≡ rows * row_size degree }
    ensures row { (degree rows : ℕ) (spelled : ℕ → List ℕ) (list : List ℕ)
        → AreHeld degree rows spelled list → (p : ℕ) → p < length list
        → record_row degree p < rows }
    ensures there { (degree rows : ℕ) (spelled : ℕ → List ℕ) (list : List ℕ)
        → AreHeld degree rows spelled list → (p : ℕ) → p < length list
        → take 256 (drop (record_start degree p) (row_of degree (record_row degree p)
        (bucket_bytes degree rows spelled list))) ≡ spelled (slice_index list p) }
    ensures chunks { (degree rows : ℕ) (spelled : ℕ → List ℕ) (list : List ℕ)
        → AreHeld degree rows spelled list → row_size degree ≡ record_chunks degree * (2 * degree) }
{}

/// Candidates have one placement at most: the least assignment is one.
pub fn one_placement()
    ensures choices { (cs : List (List ℕ)) (bs ds : List ℕ) → IsLeast cs bs → IsLeast cs ds
        → (i : ℕ) → i < length cs → slice_index bs i ≡ slice_index ds i }
    ensures placed { (cs : List (List ℕ)) (buckets : ℕ) (xs ys : List (Option ℕ))
        → IsPlacement cs buckets xs → IsPlacement cs buckets ys → xs ≡ ys }
{}

/// Candidates have one witness at most, and none where there is an assignment.
pub fn one_witness()
    ensures items { (cs : List (List ℕ)) (items buckets items' buckets' : List ℕ)
        → IsWitness cs items buckets → IsWitness cs items' buckets' → items ≡ items' }
    ensures buckets { (cs : List (List ℕ)) (items buckets items' buckets' : List ℕ)
        → IsWitness cs items buckets → IsWitness cs items' buckets' → buckets ≡ buckets' }
    ensures refuses { (cs : List (List ℕ)) (items buckets bs : List ℕ) → IsWitness cs items buckets
        → IsAssignment cs (length cs) bs → ⊥ }
{}
