//! A client's search over a link: five requests of fixed order and lengths, and the answer.
//!
//! Model: a search draws its secret, keys and queries from a stream of words, sends them over a
//! link as planned, and reads hits, records and a text from what it decrypts. Over any link, one
//! that doesn't tell its exchanges too, each refusal has its cause in them. Over exchanges that are
//! honest to the library of a corpus the answer is the plain one, or the witness that the hits
//! can't be placed.
//!
//! Not here: what an honest reply is and what it means (co_rounds), links (co_link, co_http).
#![tactic(auto)]

mod asking;
mod fault;
mod fetching;
pub mod laws;
mod placing;
mod publishing;
mod querying;
mod ranking;
mod reading;
mod recording;
mod scoring;
mod searching;
mod starting;

pub use fault::SearchFault;
pub use placing::Witness;
pub use ranking::{Ranked, rank};
pub use recording::records;
pub use searching::search;
pub use starting::{Reader, start};
