//! Buckets and placement: which buckets may hold a document's record, and which bucket each hit
//! asks.
//!
//! The records of all documents are listed in buckets, so that a reader gets the records of all its
//! hits by asking each bucket once. A salted hash gives each document three candidate buckets; the
//! document is listed in each of them. The reader puts its hits into buckets, one a bucket:
//! `place`. Model: `Lists` is the list of the buckets' lists; a placement is the least assignment
//! of candidates to items, a relation over lists of choices, and its refusal a witness: one bucket
//! fewer than items. The bytes of a bucket are a definition, with the place of each record
//! (`laws`). Not here: what a record holds (co_pack), who reads the rows, which documents are hits.
#![tactic(auto)]

mod finding;
pub mod laws;
mod listing;
mod placing;
mod rows;

pub use listing::{Lists, bucket_lists, buckets, candidates};
pub use placing::{Numbers, PlaceFault, Placement, place};
pub use rows::{RECORD_COEFFICIENTS, greatest, record_rows, rows_needed};

/// The most items that are placed, which is the most hits of a search.
pub const MOST_ITEMS: usize = 64;

/// The number of buckets for that many hits.
pub const MOST_BUCKETS: usize = 96;
