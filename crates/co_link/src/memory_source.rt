//! A source in memory, which gives its bytes in pieces of a stated size and has a list of calls
//! that are to fail.
ghost use Rattle.std.specs.Prelude.{◌≡◌, ◌≤◌, ◌<◌, Some, [], vec_len};
ghost use Rattle.co_link.specs.Calls.{calls_failing};
ghost use Rattle.co_link.specs.Causes.{HasCause};
ghost use Rattle.co_link.specs.Taken.{Takes};

use crate::{Failed, FailingCalls, Source};
use std::alloc::Global;

/// A source for tests. A take gives at most `piece` bytes, so that any cutting of the input can be
/// tried.
#[derive(Drop)]
pub struct MemorySource {
    piece: usize,
    input: Vec<u8>,
    at: usize,
    calls: FailingCalls,
    faults: u64,
    ghost place: { at ≤ vec_len input },
    ghost some: { 0 < piece },
}

impl MemorySource {
    ghost use Rattle.co_link.specs.MemorySource.{source_left, source_piece, source_calls};

    /// A source of these bytes, in pieces of at most `piece` bytes. It takes no memory.
    pub fn new(input: Vec<u8>, piece: usize, calls: FailingCalls) -> Self
        requires { 0 < piece }
        ensures left { source_left result ≡ input.items }
        ensures piece { source_piece result ≡ piece }
        ensures calls { source_calls result ≡ calls }
    {
        MemorySource {
            piece,
            input,
            at: 0,
            calls,
            faults: 0,
        }
    }

    /// A source of these bytes that never fails, in pieces as large as they are asked for. It takes
    /// no memory.
    pub fn steady(alloc: Global, input: Vec<u8>) -> Self
        ensures left { source_left result ≡ input.items }
        ensures calls { source_calls result ≡ calls_failing [] }
    {
        MemorySource::new(input, usize::MAX, FailingCalls::none(alloc))
    }
}

impl Source for MemorySource {
    ghost use Rattle.std.specs.Prelude.{Some, length};
    ghost use Rattle.co_link.specs.MemorySource.{source_left, TakesPiece};

    ghost left = { λ s. Some (source_left s) };

    ghost faults = { λ s. s.faults };

    ghost Beside = { Unit {0} };

    ghost beside = { λ s. tt };

    fn take(&mut self, into: &mut [u8]) -> Result<usize, Failed>
        requires { 0 < length into.old }
        ensures bytes { Takes (Some (source_left self.old)) (Some (source_left self.new))
            into.old into.new result }
        ensures cause { HasCause self.old.faults self.new.faults result }
        ensures beside { tt {0} ≡ tt {0} }
        ensures exact { TakesPiece self.old self.new (length into.old) result }
    {
        if self.calls.next_fails() {
            self.faults = self.faults.saturating_add(1);
            return Err(Failed);
        }
        let left = self.input.len() - self.at;
        let count = left.min(into.len().min(self.piece));
        into[..count].copy_from_slice(&self.input[self.at..self.at + count]);
        self.at += count;
        Ok(count)
    }
}
