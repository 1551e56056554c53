//! One exchange of a search.

ghost use Rattle.std.specs.Prelude.{◌≡◌, true, IfOk, IfErr};
ghost use Rattle.co_rounds.specs.Answers.{reply_with};
ghost use Rattle.co_math.specs.Coefficients.{AreBelow};
ghost use Rattle.co_client.specs.Rounds.{Comes, AskFails, LinkFails};

use crate::fault::SearchFault;
use co_link::{Bytes, Link, LinkFault, Request, Target};

/// The least that a reply may have, so that the text of a refusal is read.
pub(crate) const LEAST_LIMIT: u64 = 256;

/// Each is a byte.
pub(crate) fn are_bytes(bytes: &[u8])
    ensures { AreBelow 256 bytes.now }
{
    let _ = bytes;
}

/// The body of the reply, where its status is 200.
pub(crate) fn ask<K: Link>(
    link: &mut K,
    target: Target,
    body: Bytes,
    limit: u64,
) -> Result<Bytes, SearchFault>
    requires { K.is_ready link.old ≡ true }
    ensures came { IfOk result (λ reply. Comes (K.exchanges link.old) (K.exchanges link.new)
        (record { target = target; body = body }) (reply_with 200 reply)) }
    ensures refused { IfErr result
        (AskFails (K.exchanges link.old) (K.exchanges link.new)
        (record { target = target; body = body })) }
    ensures cause { LinkFails (K.faults link.old) (K.faults link.new) (K.last_failed link.new)
        (record { target = target; limit = limit }) result }
    ensures ready { K.is_ready link.new ≡ true }
    ensures beside { K.beside link.new ≡ K.beside link.old }
{
    match link.exchange(Request { target, body }, limit) {
        Err(LinkFault::Failed) => Err(SearchFault::Link),
        Err(LinkFault::OutOfMemory) => Err(SearchFault::OutOfMemory),
        Ok(reply) => {
            are_bytes(reply.body.as_slice());
            if reply.status != 200 {
                return Err(SearchFault::Refused {
                    target,
                    status: reply.status,
                });
            }
            Ok(reply.body)
        }
    }
}
