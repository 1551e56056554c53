//! The index of a corpus, and plain search in it.
//!
//! A term weighs more in a document the more often it stands there, up to 63 times, and the fewer
//! documents have it (a tf-idf in whole numbers, with the inverse frequency in quarters of a bit).
//! [`build_index`] gives the vocabulary and the weights, [`plain_search`] the plain answer. The one
//! model is the list of documents: vocabulary, weights, scores and hits are defined straight from
//! it, and the definitions know nothing of the index.
//!
//! Not here: what the terms of a text are and how an answer is printed (co_text), how documents are
//! read (co_corpus), and how an index is published (co_library).
#![tactic(auto)]

mod counting;
mod index;
pub mod laws;
mod postings;
mod search;
mod vocabulary;
mod weight;

pub use index::{Entries, Index, build_index};
pub use postings::MOST_WEIGHT;
pub use search::plain_search;
pub use weight::quarter_bits;
