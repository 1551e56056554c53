//! The published numbers of a library, the noise of its replies, and the test that there is room
//! for it.
//!
//! Model: a `Shape` is its eight numbers, each in its range; a `Tested` is a shape with rows and
//! bins of at most the degree, and with twice each bound below the modulus of ciphertexts.
//! A bound is a formula in the shape and the parameters of co_math. All arithmetic is on whole
//! numbers below 2^112, and no call takes memory.
//! Not here: what noise is (co_math), which operations add it (co_bfv, co_switch and the crates
//! above them), and which rows a placement needs (co_bucket).
#![tactic(auto)]

mod bounds;
pub mod laws;
mod limits;
mod shape;
mod testing;

pub use bounds::{fresh_bound, modulus, retrieve_bound, score_bound, switch_bound};
pub use co_math::{is_degree, log2_up};
pub use limits::{
    MOST_BIN_BYTES, MOST_BINS, MOST_CHUNKS, MOST_DOCUMENTS, MOST_HITS, MOST_ROWS, MOST_TERMS,
};
pub use shape::{Shape, is_chunk_count};
pub use testing::{TestFault, Tested, test};
