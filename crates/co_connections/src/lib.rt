//! A connection that a session of its own serves.
//!
//! Model: a conversation (co_serving) whose service is a session over a library that is loaded
//! (co_server). The session begins with no keys, and its keys go with the connection.
//! [`serve_connection`] is one call of co_serving's loop.
//!
//! Not here: what a conversation is (co_serving), what a session answers (co_server), which
//! connections come.
#![tactic(auto)]

mod connections;
mod session_service;

pub use connections::serve_connection;
