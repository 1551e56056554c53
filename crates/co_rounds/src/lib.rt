//! The rounds of a search: what a server answers to each request, and what a search asks.
//!
//! Model: an exchange is a request and its reply. A list of exchanges is *honest* to a library
//! where each reply is the one that the library and the keys of the list say, or says that memory
//! ran out. The *plan* of published numbers is the targets of a search in order with the lengths of
//! their requests, and the *trace* of exchanges is what the outside sees of them. Facts on these
//! definitions stand in `laws`: over honest exchanges a client that asks as planned reads the plain
//! answer. Not here: how a reply is computed (co_matvec, co_pir), how a session is kept
//! (co_server), how the client works (co_client), and how messages travel.
#![tactic(auto)]

mod answer;
pub mod laws;

pub use answer::Answer;
