//! What a message is answered by.
use co_link::Reply;

/// What a message is answered by.
#[derive(Debug, Drop)]
pub enum Response {
    /// A status with no body, after which the server closes.
    Refused { status: u16 },
    /// The declared length of the body isn't the target's; the server closes.
    WrongLength { wanted: u64, found: u64 },
    /// The service's reply, after which the connection stays open.
    Replied { reply: Reply },
}
