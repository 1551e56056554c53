//! What is read of a message.
use crate::Response;
use co_link::Request;

/// A message, as it is before a service sees it.
#[derive(Drop)]
pub(crate) enum Message {
    /// It is answered without a service, by a response that closes the connection.
    Refused { response: Response },
    /// A request, whose body has its target's length.
    Asked { request: Request },
}
