//! Taking into a buffer that grows.
ghost use Rattle.std.specs.Prelude.{◌≡◌, ◌≤◌, ◌<◌, take, vec_len, OnOk};
ghost use Rattle.co_link.specs.Causes.{HasCause, FaultCause};
ghost use Rattle.co_link.specs.Taken.{TakesInto, TakesUpTo};
ghost use Rattle.co_link.specs.declared.taking.TakeFault.TheVariants.{Failed as TakeFailed};

use crate::{Failed, Source};
use std::alloc::AllocError;
use thiserror::Error;

/// The least room that a buffer grows by.
const BLOCK: usize = 65_536;

/// Why bytes that a source has weren't all taken.
#[derive(Clone, Copy, Debug, PartialEq, Eq, Error)]
pub enum TakeFault {
    /// The source failed; its count of faults rose.
    #[error("the source failed")]
    Failed,
    #[error("out of memory")]
    OutOfMemory,
}

/// Takes what the source gives into the buffer, from a place on. What lies below stays.
pub fn take_behind<S: Source>(
    buffer: &mut Vec<u8>,
    place: usize,
    source: &mut S,
) -> Result<usize, Failed>
    requires { place < vec_len buffer.old }
    ensures len { vec_len buffer.new ≡ vec_len buffer.old }
    ensures below { take place buffer.new.items ≡ take place buffer.old.items }
    ensures taken { TakesInto (S.left source.old) (S.left source.new)
        buffer.new.items place result }
    ensures cause { HasCause (S.faults source.old) (S.faults source.new) result }
    ensures beside { S.beside source.new ≡ S.beside source.old }
{
    source.take(&mut buffer[place..])
}

// Makes room behind the bytes that are filled, where there is none: for as many again, for what is
// expected at the least, and at most up to `most` bytes.
fn make_room(
    buffer: &mut Vec<u8>,
    filled: usize,
    expected: usize,
    most: usize,
) -> Result<(), AllocError>
    requires filled { filled ≤ vec_len buffer.old }
    requires most { vec_len buffer.old ≤ most }
    requires less { filled < most }
    ensures below { take filled buffer.new.items ≡ take filled buffer.old.items }
    ensures filled { filled ≤ vec_len buffer.new }
    ensures room { OnOk result (filled < vec_len buffer.new) }
    ensures most { vec_len buffer.new ≤ most }
{
    if filled < buffer.len() {
        return Ok(());
    }
    let more = filled.max(BLOCK);
    let wanted = filled.saturating_add(more).max(expected);
    buffer.resize(wanted.min(most), 0)
}

// Takes behind the bytes that are filled, until `most` are or the source has no more; gives how
// many are.
fn fill<S: Source>(
    buffer: &mut Vec<u8>,
    source: &mut S,
    expected: usize,
    most: usize,
) -> (usize, Result<(), TakeFault>)
    requires { vec_len buffer.old ≤ most }
    ensures filled { result.0 ≤ vec_len buffer.new }
    ensures taken { TakesUpTo most buffer.old.items (take result.0 buffer.new.items)
        (S.left source.old) (S.left source.new) result.1 }
    ensures cause { FaultCause TakeFailed (S.faults source.old) (S.faults source.new) result.1 }
    ensures beside { S.beside source.new ≡ S.beside source.old }
{
    let mut filled = buffer.len();
    'filling: while filled < most {
        match make_room(buffer, filled, expected, most) {
            Ok(()) => {}
            Err(_) => return (filled, Err(TakeFault::OutOfMemory)),
        }
        match take_behind(buffer, filled, source) {
            Ok(0) => return (filled, Ok(())),
            Ok(count) => filled += count,
            Err(Failed) => return (filled, Err(TakeFault::Failed)),
        }
    }
    (filled, Ok(()))
}

/// Takes bytes behind those of the buffer, until it has `most` bytes or the source has no more.
/// After a fault what was taken before it stands there too. The buffer grows as bytes come;
/// `expected` is how many the caller expects it to have, and its room is at least that from the
/// first take on.
pub fn take_up_to<S: Source>(
    buffer: &mut Vec<u8>,
    source: &mut S,
    expected: usize,
    most: usize,
) -> Result<(), TakeFault>
    requires { vec_len buffer.old ≤ most }
    ensures taken { TakesUpTo most buffer.old.items buffer.new.items (S.left source.old)
        (S.left source.new) result }
    ensures cause { FaultCause TakeFailed (S.faults source.old) (S.faults source.new) result }
    ensures beside { S.beside source.new ≡ S.beside source.old }
{
    let (filled, result) = fill(buffer, source, expected, most);
    buffer.truncate(filled);
    result
}
