//! The reply that an answer becomes.

ghost use Rattle.std.specs.Prelude.{◌≡◌, IfOk, IsOk, string_bytes};
ghost use Rattle.co_rounds.specs.Answers as answers;
ghost use Rattle.co_server.specs.Kept.{IsEmptyDone};

use co_link::{Bytes, Reply};
use co_rounds::Answer;
use std::alloc::{AllocError, Global};

/// The reply, by statuses of HTTP. To an answer of no bytes it takes no memory.
pub fn reply_of(alloc: Global, answer: Answer) -> Result<Reply, AllocError>
    ensures value { IfOk result (λ r. r ≡ answers.reply_of answer) }
    ensures certain { IsEmptyDone answer → IsOk result }
{
    match answer {
        Answer::Done(body) => Ok(Reply { status: 200, body }),
        Answer::Length { wanted, found } => {
            let text = format!(in alloc; "length {wanted} {found}\n")?;
            Ok(refused(text))
        }
        Answer::NoKeys => Ok(Reply {
            status: 409,
            body: Bytes::new(alloc),
        }),
        Answer::Range { place } => {
            let text = format!(in alloc; "range {place}\n")?;
            Ok(refused(text))
        }
        Answer::OutOfMemory => Ok(Reply {
            status: 503,
            body: Bytes::new(alloc),
        }),
    }
}

/// A body that isn't read, and why.
fn refused(text: String) -> Reply
    ensures { result ≡ answers.reply_with 400 (string_bytes text) }
{
    Reply {
        status: 400,
        body: Bytes::from_vec(text.into_bytes()),
    }
}
