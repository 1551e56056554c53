//! A corpus: documents with a title and a text.
//!
//! A corpus file has one JSON object a line, with the members `text` and `title`. What a line reads
//! as is the reading of `serde_json`, which is cited. The one model is the list of documents: a
//! function from the bytes of a file to its documents, or to its first fault with the number of its
//! line.
//!
//! The title rule is co_text's. Not here: where the bytes come from (co_link), the terms of a text
//! (co_text), and their weights (co_tfidf).
#![tactic(auto)]

mod documents;
mod lines;
mod reading;

pub use documents::{Corpus, Document, Documents};
pub use reading::{CorpusFault, read_corpus};
