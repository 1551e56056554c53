//! A link round another that fails stated calls.
ghost use Rattle.std.specs.Prelude.{◌≡◌, ◌+◌, ◌-◌, [], ℕ, true};
ghost use Rattle.co_link.specs.Calls.{is_to_fail, after_call};
ghost use Rattle.co_link.specs.Causes.{Rose};
ghost use Rattle.co_link.specs.Exchanges.{DialCall, Records, Clears, LinkCause, DialCause, DialTells};
ghost use Rattle.co_link.specs.Dialled.{last_call, last_or, dialled_last, dialling_of};
ghost use Rattle.co_link.specs.declared.link.LinkFault.TheVariants.{Failed};
ghost use Rattle.std.specs.Prelude.{Err, IsErr, OnOk, false};

use crate::dials::{Dials, LinkFailures};
use crate::{Dial, FailingCalls, Link, LinkFault, Reply, Request};
use std::alloc::Global;

/// Passes its calls to another link, but for those that are to fail. Exchanges and dials count
/// together.
#[derive(Drop)]
pub struct FailNth<K: Link + Drop> {
    alloc: Global,
    inner: K,
    calls: FailingCalls,
    failures: LinkFailures,
    dials: Dials,
}

impl<K: Link + Drop> FailNth<K> {
    /// The link round another, with no call so far. It takes no memory.
    pub fn new(alloc: Global, inner: K, calls: FailingCalls) -> Self
        ensures inner { result.inner ≡ inner }
        ensures calls { result.calls ≡ calls }
    {
        FailNth {
            alloc,
            inner,
            calls,
            failures: LinkFailures::none(),
            dials: Dials::none(),
        }
    }

    /// The link inside.
    pub fn inner(&self) -> &K
        ensures { result.now ≡ self.now.inner }
    {
        &self.inner
    }
}

impl<K: Link + Drop> Link for FailNth<K> {
    ghost use Rattle.std.specs.Prelude.{ℕ, Option, ◌+◌};
    ghost use Rattle.co_link.specs.Calls.{is_to_fail, after_call};
    ghost use Rattle.co_link.specs.Causes.{Rose};
    ghost use Rattle.co_link.specs.Exchanges.{DialCall};
    ghost use Rattle.co_link.specs.Dialled.{last_call, dialling_of, last_or};

    ghost exchanges = { λ s. K.exchanges s.inner };

    ghost faults = { λ s. s.failures.count + K.faults s.inner };

    ghost last_failed = { λ s. last_or (K.last_failed s.inner) (last_call s.failures) };

    ghost is_ready = { λ s. K.is_ready s.inner };

    ghost Beside = { ℕ × Option DialCall };

    ghost beside = { λ s. dialling_of s.dials };

    fn exchange(&mut self, request: Request, limit: u64) -> Result<Reply, LinkFault>
        requires { K.is_ready self.old.inner ≡ true }
        ensures told { Records (K.exchanges self.old.inner)
            (K.exchanges self.new.inner) request result }
        ensures cause { LinkCause (self.old.failures.count + K.faults self.old.inner)
            (self.new.failures.count + K.faults self.new.inner)
            (last_or (K.last_failed self.old.inner) (last_call self.old.failures))
            (last_or (K.last_failed self.new.inner) (last_call self.new.failures))
            (record { target = request.target; limit = limit }) result }
        ensures ready { K.is_ready self.new.inner ≡ true }
        ensures beside { dialling_of self.new.dials ≡ dialling_of self.old.dials }
        ensures calls { self.new.calls ≡ after_call self.old.calls }
        ensures fails { is_to_fail self.old.calls ≡ true → (result ≡ Err Failed)
            × (self.new.inner ≡ self.old.inner) }
        ensures passes { is_to_fail self.old.calls ≡ false → result ≡ Err Failed
            → Rose (K.faults self.old.inner) (K.faults self.new.inner) }
    {
        let target = request.target;
        if self.calls.next_fails() {
            self.failures.raise_at(target, limit);
            return Err(LinkFault::Failed);
        }
        match self.inner.exchange(request, limit) {
            Ok(reply) => Ok(reply),
            Err(LinkFault::OutOfMemory) => Err(LinkFault::OutOfMemory),
            Err(LinkFault::Failed) => {
                self.failures.raise_at(target, limit);
                Err(LinkFault::Failed)
            }
        }
    }
}

impl<K: Dial + Drop> Dial for FailNth<K> {
    ghost use Rattle.std.proofs.Common.{ap};
    ghost use Rattle.co_link.specs.Dialled.{dialled_last};

    ghost dials = { λ s. s.dials.count };

    ghost last_dial = { λ s. dialled_last s.dials };

    ghost exchange_leaves = { λ a b e. (ap (λ p. p.0) e, ap (λ p. p.1) e) };

    fn dial(&mut self, host: &str, port: u16) -> Result<(), LinkFault>
        ensures ready { OnOk result (K.is_ready self.new.inner ≡ true) }
        ensures told { Clears (K.exchanges self.old.inner) (K.exchanges self.new.inner) result }
        ensures cause { DialCause (self.old.failures.count + K.faults self.old.inner)
            (self.new.failures.count + K.faults self.new.inner)
            (last_or (K.last_failed self.old.inner) (last_call self.old.failures))
            (last_or (K.last_failed self.new.inner) (last_call self.new.failures)) result }
        ensures dialled { DialTells self.old.dials.count self.new.dials.count
            (dialled_last self.old.dials) (dialled_last self.new.dials)
            (record { host = host.now; port = port }) result }
        ensures calls { self.new.calls ≡ after_call self.old.calls }
        ensures fails { is_to_fail self.old.calls ≡ true → IsErr result
            × (self.new.inner ≡ self.old.inner) }
        ensures passes { is_to_fail self.old.calls ≡ false → result ≡ Err Failed
            → Rose (K.faults self.old.inner) (K.faults self.new.inner) }
    {
        let fails = self.calls.next_fails();
        self.dials.add(self.alloc, host, port)?;
        if fails {
            self.failures.raise();
            return Err(LinkFault::Failed);
        }
        self.inner.dial(host, port)
    }
}
