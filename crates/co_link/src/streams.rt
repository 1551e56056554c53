//! The real streams. What they hold isn't told.
ghost use Rattle.std.specs.Prelude.{None};

use crate::{Duplex, Failed, Sink, Source};
use std::io;

/// A stream of std: a reader is a source, a writer is a sink, and one that is both has both
/// directions of a connection. It tells nothing of content.
#[derive(Drop)]
pub struct StdStream<S: Drop> {
    inner: S,
    take_faults: u64,
    put_faults: u64,
}

/// A reader of std as a source.
pub type StdSource<R> = StdStream<R>;

/// A writer of std as a sink.
pub type StdSink<W> = StdStream<W>;

impl<S: Drop> StdStream<S> {
    /// The stream, with no failure so far.
    pub fn new(inner: S) -> Self {
        StdStream {
            inner,
            take_faults: 0,
            put_faults: 0,
        }
    }
}

impl<S: io::Read + Drop> Source for StdStream<S> {
    ghost use Rattle.std.specs.Prelude.{None, ℕ};

    ghost left = { λ s. None };

    ghost faults = { λ s. s.take_faults };

    ghost Beside = { ℕ };

    ghost beside = { λ s. s.put_faults };

    fn take(&mut self, into: &mut [u8]) -> Result<usize, Failed> {
        match self.inner.read(into) {
            Ok(count) => Ok(count),
            Err(_) => {
                self.take_faults = self.take_faults.saturating_add(1);
                Err(Failed)
            }
        }
    }
}

impl<S: io::Write + Drop> Sink for StdStream<S> {
    ghost use Rattle.std.specs.Prelude.{None, ℕ};

    ghost put_so_far = { λ s. None };

    ghost faults = { λ s. s.put_faults };

    ghost Beside = { ℕ };

    ghost beside = { λ s. s.take_faults };

    fn put(&mut self, piece: &[u8]) -> Result<(), Failed> {
        match self.inner.write_all(piece) {
            Ok(()) => Ok(()),
            Err(_) => {
                self.put_faults = self.put_faults.saturating_add(1);
                Err(Failed)
            }
        }
    }
}

impl<S: io::Read + io::Write + Drop> Duplex for StdStream<S> {
    ghost use Rattle.std.proofs.Common.{refl};

    ghost Beside = { Unit {0} };

    ghost beside = { λ s. tt };

    ghost take_leaves_put = { λ a b e. refl };

    ghost take_leaves_faults = { λ a b e. e };

    ghost take_leaves_beside = { λ a b e. refl };

    ghost put_leaves_left = { λ a b e. refl };

    ghost put_leaves_faults = { λ a b e. e };

    ghost put_leaves_beside = { λ a b e. refl };
}
