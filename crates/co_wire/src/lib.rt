//! Messages and published files as bytes.
//!
//! Model: reading goes from left to right; it is a function from what is left of the bytes to a
//! value and what is left behind it, or to the place of the first field that is wrong or not whole.
//! Writing is a function from a value to its one spelling. Each reader of the crate gives what its
//! definition finds, and the two functions undo each other: what was written reads back equal, and
//! what is read is spelled so. The fields of public bytes stand in library files too; co_library
//! reads them by `Cursor` and the calls on it. Not here: what a weight, a record or a bin holds
//! (co_library, co_pack), and how messages travel.
#![tactic(auto)]

mod bodies;
mod cursor;
mod fault;
mod fields;
mod key_bodies;
pub mod laws;
mod lengths;
mod reading;
mod writing;

pub use bodies::{CIPHER_BYTES, read_ciphers, write_ciphers};
pub use cursor::Cursor;
pub use fault::WireFault;
pub use fields::{MOST_BYTES_IN_BINS, read_end, read_u16_within, read_u32_within, read_word};
pub use key_bodies::{read_keys, write_keys};
pub use lengths::{record_chunks, reply_length, request_length};
pub use reading::{read_fields, read_public, read_shape_fields};
pub use writing::{put_shape_fields, put_u32, write_public};
