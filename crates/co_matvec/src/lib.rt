//! Encrypted scores: a matrix of weights times an encrypted query.
//!
//! Model: `Weights` is the entries (term, document, weight) of a library, cut into blocks of n
//! documents and n/2 terms. The score reply of a document block is the sum over the keyword
//! blocks k and the rotations i of rotation i of query k times the diagonal polynomial of (k, i),
//! ciphertext for ciphertext. Where each query hides which of its block's terms are keywords, each
//! slot of a reply decrypts to a document's score.
//! Not here: rotations (co_rot), encryption (co_bfv), what slots are (co_slots), how keywords
//! become queries, and how ciphertexts are spelled in bytes.
#![tactic(auto)]

mod diagonals;
mod keys;
mod laws;
mod matrix;
mod scores;
mod sorting;
mod units;
mod weights;

pub use laws::{diagonals_have_polynomials, one_list, replies_mean_scores, replies_show_scores};
pub use scores::score;
pub use weights::Weights;
