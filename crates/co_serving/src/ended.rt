//! How a connection was served.

/// Why a connection ended.
#[derive(Clone, Copy, Debug, PartialEq, Eq)]
pub enum Ended {
    /// The input ended between two messages.
    Closed,
    /// A response with this status closed the connection.
    Refused { status: u16 },
    /// The input ended inside a message.
    Cut,
    /// The last response that one connection has was written.
    Spent,
    /// Taking failed.
    ReadFault,
    /// Putting failed.
    WriteFault,
    /// There was no memory for the connection.
    OutOfMemory,
}

/// How a connection was served.
#[derive(Clone, Copy, Debug, PartialEq, Eq)]
pub struct Served {
    /// How many responses were written whole.
    pub requests: u32,
    /// Why it ended.
    pub ended: Ended,
}
