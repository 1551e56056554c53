//! What the program meets outside itself: named files, sources that give bytes and sinks that take
//! them, connections and the port where they come in, and links to a server.
//!
//! Each trait has a count of faults, which rises with a call that failed and with no other. What an
//! object holds or has left is told over memory, and isn't told over the real system; the clauses
//! on content hold where it is told. Which call failed last, and how a port or a link was called,
//! is told always. One object may have several of the traits: a call of one leaves what the others
//! tell.
//!
//! In memory: [`MemoryFiles`], [`MemorySource`], [`MemorySink`], [`MemoryConnection`],
//! [`MemoryPort`], [`ScriptLink`], and [`FailNth`] round another link. Each has a list of calls
//! that are to fail, a [`FailingCalls`].
//!
//! Over std: [`StdFiles`], [`StdSource`], [`StdSink`], [`StdStream`], [`TcpPort`]. These are a few
//! lines each and the trusted edge.
//!
//! Not here: what the bytes mean, and which file or connection a command uses.
#![tactic(auto)]

mod calls;
mod dials;
mod duplex;
mod fail_nth;
mod failures;
mod files;
mod link;
mod memory_connection;
mod memory_files;
mod memory_port;
mod memory_sink;
mod memory_source;
mod messages;
mod port;
mod script_link;
mod sink;
mod source;
mod std_files;
mod streams;
mod taking;
mod tcp_port;

pub use calls::FailingCalls;
pub use dials::{Dialled, Dials, FailedCall, LinkFailures};
pub use duplex::Duplex;
pub use fail_nth::FailNth;
pub use files::{FileFault, FileKind, Files};
pub use link::{Dial, Link, LinkFault};
pub use memory_connection::MemoryConnection;
pub use memory_files::MemoryFiles;
pub use memory_port::MemoryPort;
pub use memory_sink::MemorySink;
pub use memory_source::MemorySource;
pub use messages::{Exchange, Reply, Request, Target};
pub use port::Port;
pub use script_link::ScriptLink;
pub use sink::{Failed, Sink};
pub use source::Source;
pub use std_files::{StdFiles, read_within};
pub use streams::{StdSink, StdSource, StdStream};
pub use taking::{TakeFault, take_behind, take_up_to};
pub use tcp_port::TcpPort;

/// Bytes of any length.
pub type Bytes = co_list::Listed<u8>;
