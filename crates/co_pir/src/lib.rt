//! Private retrieval: one ciphertext asks for one row of many, and the reply opens to that row's
//! bytes.
//!
//! Model: a query encrypts a power of X. Its *expansion* doubles it level by level, by key
//! switches, into one ciphertext for each row, which means 1 at the row that is asked and 0 at the
//! others. The *reply* is, for each chunk of 2n bytes, the sum over the rows of the expanded
//! ciphertext times the row's payload polynomial, so it means the payload of the row that is asked.
//! `Rows` is the server's table: rows of equal length, cut into chunks. Not here: which rows there
//! are and what their bytes say (co_library, co_pack), the noise that is allowed (co_noise),
//! messages over a wire (co_wire).
#![tactic(auto)]

mod contents;
mod expansion;
mod laws;
mod opening;
mod queries;
mod replying;
mod sharing;
mod table;

pub use contents::MOST_ROW_CHUNKS;
pub use expansion::expand;
pub use laws::replies_mean_rows;
pub use opening::open_reply;
pub use queries::{levels, query_message};
pub use replying::answer;
pub use table::Rows;
