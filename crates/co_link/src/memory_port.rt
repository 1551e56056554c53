//! A port in memory, with a list of waiting connections.
ghost use Rattle.std.specs.Prelude.{◌≡◌, ◌≤◌, ◌+◌, [], None, Some, vec_len, vec_capacity, ◌++◌, All, IfOk, is_some, if◌then◌else◌};
ghost use Rattle.std.specs.Option.{option_to_list};
ghost use Rattle.co_link.specs.Fresh.{IsFresh};

use crate::{Duplex, Failed, FailingCalls, MemoryConnection, Port, Sink, Source};
use std::alloc::{AllocError, Global};

/// A port for tests. Its calls to listen and to accept count together. One that is to fail does,
/// and so does an accept with nothing waiting. Without a current connection there is nothing to
/// take, and a put fails.
#[derive(Drop)]
pub struct MemoryPort {
    waiting: Vec<MemoryConnection>,
    current: Option<MemoryConnection>,
    ended: Vec<MemoryConnection>,
    listening: bool,
    listens: u64,
    accepts: u64,
    last_port: Option<u16>,
    calls: FailingCalls,
    take_faults: u64,
    put_faults: u64,
    port_faults: u64,
    ghost fresh: { All IsFresh waiting.items },
    ghost fits: { vec_len ended + (vec_len waiting + (if is_some current then 1 else 0))
        ≤ vec_capacity ended },
}

// Keeps a connection that has ended, where there is one.
fn keep_ended(ended: &mut Vec<MemoryConnection>, done: Option<MemoryConnection>)
    requires { vec_len ended.old + (if is_some done then 1 else 0) ≤ vec_capacity ended.old }
    ensures items { ended.new.items ≡ ended.old.items ++ option_to_list done }
    ensures len { vec_len ended.new ≡ vec_len ended.old + (if is_some done then 1 else 0) }
    ensures capacity { vec_capacity ended.new ≡ vec_capacity ended.old }
{
    if let Some(connection) = done {
        ended.push_reserved(connection);
    }
}

impl MemoryPort {
    ghost use Rattle.co_link.specs.MemoryPort.{port_tells, port_calls, told_at_first};

    /// A port at which these connections wait, to which nothing was put yet. It takes the memory to
    /// keep them all.
    pub fn new(
        alloc: Global,
        waiting: Vec<MemoryConnection>,
        calls: FailingCalls,
    ) -> Result<Self, AllocError>
        requires { All IsFresh waiting.items }
        ensures tells { IfOk result (λ p. port_tells p ≡ told_at_first waiting.items) }
        ensures calls { IfOk result (λ p. port_calls p ≡ calls) }
    {
        let ended = Vec::with_capacity(alloc, waiting.len())?;
        Ok(MemoryPort {
            waiting,
            current: None,
            ended,
            listening: false,
            listens: 0,
            accepts: 0,
            last_port: None,
            calls,
            take_faults: 0,
            put_faults: 0,
            port_faults: 0,
        })
    }
}

impl Source for MemoryPort {
    ghost use Rattle.co_link.specs.MemoryPort.{Others, told_left, told_put, port_tells};

    ghost left = { λ s. told_left s };

    ghost faults = { λ s. s.take_faults };

    ghost Beside = { Others };

    ghost beside = { λ s. (told_put s, s.put_faults, port_tells s, s.port_faults) };

    fn take(&mut self, into: &mut [u8]) -> Result<usize, Failed> {
        match &mut self.current {
            None => Ok(0),
            Some(connection) => match connection.take(into) {
                Ok(count) => Ok(count),
                Err(Failed) => {
                    self.take_faults = self.take_faults.saturating_add(1);
                    Err(Failed)
                }
            },
        }
    }
}

impl Sink for MemoryPort {
    ghost use Rattle.co_link.specs.MemoryPort.{Others, told_left, told_put, port_tells};

    ghost put_so_far = { λ s. told_put s };

    ghost faults = { λ s. s.put_faults };

    ghost Beside = { Others };

    ghost beside = { λ s. (told_left s, s.take_faults, port_tells s, s.port_faults) };

    fn put(&mut self, piece: &[u8]) -> Result<(), Failed> {
        match &mut self.current {
            None => {
                self.put_faults = self.put_faults.saturating_add(1);
                Err(Failed)
            }
            Some(connection) => match connection.put(piece) {
                Ok(()) => Ok(()),
                Err(Failed) => {
                    self.put_faults = self.put_faults.saturating_add(1);
                    Err(Failed)
                }
            },
        }
    }
}

impl Duplex for MemoryPort {
    ghost use Rattle.std.specs.Prelude.{ℕ};
    ghost use Rattle.std.proofs.Common.{ap};
    ghost use Rattle.co_link.specs.MemoryPort.{port_tells};
    ghost use Rattle.co_link.specs.Ports.{PortTells};

    ghost Beside = { PortTells × ℕ };

    ghost beside = { λ s. (port_tells s, s.port_faults) };

    ghost take_leaves_put = { λ a b e. ap (λ p. p.0) e };

    ghost take_leaves_faults = { λ a b e. ap (λ p. p.1) e };

    ghost take_leaves_beside = { λ a b e. ap (λ p. (p.2, p.3)) e };

    ghost put_leaves_left = { λ a b e. ap (λ p. p.0) e };

    ghost put_leaves_faults = { λ a b e. ap (λ p. p.1) e };

    ghost put_leaves_beside = { λ a b e. ap (λ p. (p.2, p.3)) e };
}

impl Port for MemoryPort {
    ghost use Rattle.std.proofs.Common.{ap};
    ghost use Rattle.std.specs.Prelude.{Some, true, IsErr, ◌↔◌, ◌||◌};
    ghost use Rattle.co_link.specs.Calls.{is_to_fail, after_call};
    ghost use Rattle.co_link.specs.Causes.{HasCause};
    ghost use Rattle.co_link.specs.Ports.{Listens, Accepts};
    ghost use Rattle.co_link.specs.MemoryPort.{port_tells, port_left, port_put, port_calls, is_nothing_waiting};

    ghost tells = { λ s. port_tells s };

    ghost faults = { λ s. s.port_faults };

    fn listen(&mut self, port: u16) -> Result<(), Failed>
        ensures tells { Listens (port_tells self.old) (port_tells self.new) port result }
        ensures left { Some (port_left self.new) ≡ Some (port_left self.old) }
        ensures put { Some (port_put self.new) ≡ Some (port_put self.old) }
        ensures cause { HasCause self.old.port_faults self.new.port_faults result }
        ensures takes { self.new.take_faults ≡ self.old.take_faults }
        ensures puts { self.new.put_faults ≡ self.old.put_faults }
        ensures calls { port_calls self.new ≡ after_call (port_calls self.old) }
        ensures fails { IsErr result ↔ (is_to_fail (port_calls self.old) ≡ true) }
    {
        let fails = self.calls.next_fails();
        self.listens = self.listens.saturating_add(1);
        self.last_port = Some(port);
        if fails {
            self.listening = false;
            self.port_faults = self.port_faults.saturating_add(1);
            return Err(Failed);
        }
        self.listening = true;
        Ok(())
    }

    fn accept(&mut self) -> Result<(), Failed>
        requires { (port_tells self.old).listening ≡ true }
        ensures tells { Accepts (port_tells self.old) (port_tells self.new)
            (Some (port_left self.old)) (Some (port_left self.new)) (Some (port_put self.old))
            (Some (port_put self.new)) result }
        ensures cause { HasCause self.old.port_faults self.new.port_faults result }
        ensures takes { self.new.take_faults ≡ self.old.take_faults }
        ensures puts { self.new.put_faults ≡ self.old.put_faults }
        ensures calls { port_calls self.new ≡ after_call (port_calls self.old) }
        ensures fails { IsErr result
            ↔ ((is_to_fail (port_calls self.old) || is_nothing_waiting self.old) ≡ true) }
    {
        let fails = self.calls.next_fails();
        self.accepts = self.accepts.saturating_add(1);
        if fails || self.waiting.is_empty() {
            self.port_faults = self.port_faults.saturating_add(1);
            return Err(Failed);
        }
        let next = self.waiting.remove(0);
        let done = self.current.replace(next);
        keep_ended(&mut self.ended, done);
        Ok(())
    }

    ghost both_leave_port = { λ a b e. ap (λ p. p.0) e };

    ghost both_leave_port_faults = { λ a b e. ap (λ p. p.1) e };
}
