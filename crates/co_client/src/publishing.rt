//! The round of the published parameters.

ghost use Rattle.std.specs.Prelude.{◌≡◌, true, IfOk, IfErr};
ghost use Rattle.co_link.specs.declared.messages.Target.TheVariants as targets;
ghost use Rattle.co_wire.specs.Lengths.{most_public};
ghost use Rattle.co_client.specs.Rounds.{LinkFails};
ghost use Rattle.co_client.specs.Published.{Consults, PublicFails};

use crate::asking::{are_bytes, ask};
use crate::fault::SearchFault;
use co_link::{Bytes, Link, Target};
use co_noise::{Tested, test};
use co_text::Terms;
use co_wire::{WireFault, read_public};
use std::alloc::Global;

/// The most bytes of public bytes: 8 and 32, and 131,072 terms of 64 bytes behind their lengths.
const MOST_PUBLIC: u64 = 8_519_720;

/// What a library publishes: its numbers, which passed the test, and its terms.
#[derive(Drop)]
pub struct Published {
    /// The numbers.
    pub tested: Tested,
    /// The terms, ascending.
    pub terms: Terms,
}

/// Asks for the published numbers and terms, and tests the numbers.
pub(crate) fn consult<K: Link>(alloc: Global, link: &mut K) -> Result<Published, SearchFault>
    requires { K.is_ready link.old ≡ true }
    ensures found { IfOk result (Consults (K.exchanges link.old) (K.exchanges link.new)) }
    ensures refused { IfErr result (PublicFails (K.exchanges link.old) (K.exchanges link.new)) }
    ensures cause { LinkFails (K.faults link.old) (K.faults link.new) (K.last_failed link.new)
        (record { target = targets.Public; limit = most_public }) result }
    ensures ready { K.is_ready link.new ≡ true }
    ensures beside { K.beside link.new ≡ K.beside link.old }
{
    let body = ask(link, Target::Public, Bytes::new(alloc), MOST_PUBLIC)?;
    are_bytes(body.as_slice());
    let (shape, terms) = match read_public(alloc, body.as_slice()) {
        Ok(public) => public,
        Err(WireFault::Public { place }) => return Err(SearchFault::BadPublic { place }),
        Err(WireFault::Length { .. } | WireFault::Range { .. } | WireFault::OutOfMemory) => {
            return Err(SearchFault::OutOfMemory);
        }
    };
    let tested = match test(&shape) {
        Ok(tested) => tested,
        Err(fault) => return Err(SearchFault::Test(fault)),
    };
    let _ = tested.shape();
    Ok(Published { tested, terms })
}
