//! Lists: a vector whose contracts speak of a list.
//!
//! The crates above name theirs by an alias, as `pub type Bytes = Listed<u8>`.
#![tactic(auto)]

mod listed;

pub use listed::Listed;
