//! A connection in memory: a source and a sink.
ghost use Rattle.std.specs.Prelude.{◌≡◌, ◌<◌, Some, length};
ghost use Rattle.co_link.specs.Causes.{HasCause};
ghost use Rattle.co_link.specs.Held.{Appends};
ghost use Rattle.co_link.specs.MemoryConnection.{source_of, sink_of};
ghost use Rattle.co_link.specs.MemorySink.{sink_bytes, PutsWithinRoom};
ghost use Rattle.co_link.specs.MemorySource.{source_left, TakesPiece};
ghost use Rattle.co_link.specs.Taken.{Takes};

use crate::{Duplex, Failed, MemorySink, MemorySource, Sink, Source};

/// A connection for tests: its input is a source in memory, and its output a sink in memory.
#[derive(Drop)]
pub struct MemoryConnection {
    source: MemorySource,
    sink: MemorySink,
}

impl MemoryConnection {
    /// A connection with this input, which puts its output there.
    pub fn new(source: MemorySource, sink: MemorySink) -> Self
        ensures source { source_of result ≡ source }
        ensures sink { sink_of result ≡ sink }
    {
        MemoryConnection { source, sink }
    }

    /// Where the output was put.
    pub fn sink(&self) -> &MemorySink
        ensures { result.now ≡ sink_of self.now }
    {
        &self.sink
    }
}

impl Source for MemoryConnection {
    ghost use Rattle.co_link.specs.declared.memory_sink.MemorySink.{MemorySink};

    ghost left = { λ s. Some (source_left s.source) };

    ghost faults = { λ s. s.source.faults };

    ghost Beside = { MemorySink };

    ghost beside = { λ s. s.sink };

    fn take(&mut self, into: &mut [u8]) -> Result<usize, Failed>
        requires { 0 < length into.old }
        ensures bytes { Takes (Some (source_left (source_of self.old)))
            (Some (source_left (source_of self.new))) into.old into.new result }
        ensures cause { HasCause self.old.source.faults self.new.source.faults result }
        ensures beside { sink_of self.new ≡ sink_of self.old }
        ensures exact { TakesPiece (source_of self.old) (source_of self.new)
            (length into.old) result }
    {
        self.source.take(into)
    }
}

impl Sink for MemoryConnection {
    ghost use Rattle.co_link.specs.declared.memory_source.MemorySource.{MemorySource};

    ghost put_so_far = { λ s. Some (sink_bytes s.sink) };

    ghost faults = { λ s. s.sink.faults };

    ghost Beside = { MemorySource };

    ghost beside = { λ s. s.source };

    fn put(&mut self, piece: &[u8]) -> Result<(), Failed>
        ensures bytes { Appends (Some (sink_bytes (sink_of self.old)))
            (Some (sink_bytes (sink_of self.new))) piece.now result }
        ensures cause { HasCause self.old.sink.faults self.new.sink.faults result }
        ensures beside { source_of self.new ≡ source_of self.old }
        ensures exact { PutsWithinRoom (sink_of self.old) (sink_of self.new) piece.now result }
    {
        self.sink.put(piece)
    }
}

impl Duplex for MemoryConnection {
    ghost use Rattle.std.specs.Prelude.{Some};
    ghost use Rattle.std.proofs.Common.{ap, refl};
    ghost use Rattle.co_link.specs.MemorySink.{sink_bytes};
    ghost use Rattle.co_link.specs.MemorySource.{source_left};

    ghost Beside = { Unit {0} };

    ghost beside = { λ s. tt };

    ghost take_leaves_put = { λ a b e. ap (λ s. Some (sink_bytes s)) e };

    ghost take_leaves_faults = { λ a b e. ap (λ s. s.faults) e };

    ghost take_leaves_beside = { λ a b e. refl };

    ghost put_leaves_left = { λ a b e. ap (λ s. Some (source_left s)) e };

    ghost put_leaves_faults = { λ a b e. ap (λ s. s.faults) e };

    ghost put_leaves_beside = { λ a b e. refl };
}
