//! The commands of Coeus: keyword search over a library's documents.
//!
//! `run` does all that the program does, over files, a dial, a port, random words and sinks that
//! are handed in; its contract says what each status means. `tell` says a refusal that comes before
//! it.
//!
//! Not here: what a corpus is (co_corpus), what is found (co_tfidf), how it is printed (co_text),
//! how a corpus is published (co_library), what a shape's bounds are (co_noise), what a session
//! answers (co_server), what is said on a connection (co_connections), how a library is asked
//! (co_client), and the real devices (the program coeus).
#![tactic(auto)]

mod access;
mod limits;
mod local;
mod making;
mod options;
mod plain;
mod program;
mod publish;
mod refusals;
mod rehearse;
mod remote;
mod search_faults;
mod serving;
mod shape;
mod words;

pub use program::run;
pub use refusals::{Refusal, tell};
