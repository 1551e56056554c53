//! Bins and records: where each document's text stands, and the 256 bytes that say so.
//!
//! Texts of many lengths are put into bins of one size, so that every text is fetched in the same
//! way. Each document has a record of 256 bytes: its number, its place in the bins, and its title.
//! Model: places are the list that first fit by decreasing length gives, stated over the documents
//! in that order; a record has one spelling, and a second function from bytes to the record or the
//! first fault. Places lie in their bins, and apart (`laws`). Not here: which records a bucket
//! lists (co_bucket), the bytes of the bins (co_library), whether the place of a record that was
//! read lies in the bins (its reader).
#![tactic(auto)]

pub mod laws;
mod packing;
mod records;

pub use packing::{MOST_BIN_BYTES, MOST_DEGREE, Place, Places, bin_size, pack_bins};
pub use records::{RECORD_BYTES, Record, RecordFault, read_record, write_record};
