//! A server's session over a library: one request, one answer.
//!
//! Model: `Loaded` is a library made ready for replies, and is seen as the library. A `Session` is
//! the keys that its client handed over last. A step answers a request: the first of the refusals
//! whose cause is there, in the order of length, keys and range, or the reply that co_rounds
//! defines. Every answer but the one to keys leaves the session. `LocalLink` is a link to a session
//! of its own, and its exchanges are honest to the library.
//! Not here: how scores and retrievals are computed (co_matvec, co_pir), and connections.
#![tactic(auto)]

mod loaded;
mod local;
mod replies;
mod replying;
mod runs;
mod session;
mod tables;

pub use co_rounds::Answer;
pub use loaded::Loaded;
pub use local::LocalLink;
pub use replies::reply_of;
pub use replying::reply_with;
pub use runs::Runs;
pub use session::Session;
