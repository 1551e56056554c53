//! A link in memory that plays a list of replies. A list says which calls are to fail.
ghost use Rattle.std.specs.Prelude.{◌≡◌, ◌-◌, Some, [], ℕ, true};
ghost use Rattle.co_link.specs.Exchanges.{DialCall, Records, Clears, LinkCause, DialCause, DialTells};
ghost use Rattle.co_link.specs.Dialled.{last_call, dialled_last, dialling_of};
ghost use Rattle.co_link.specs.ScriptLink.{script_told, script_left, script_calls, PlaysNext};
ghost use Rattle.co_link.specs.Calls.{FailsExactly, is_to_fail, after_call};
ghost use Rattle.co_link.specs.declared.link.LinkFault.TheVariants.{Failed, OutOfMemory};
ghost use Rattle.std.specs.Prelude.{OnOk};

use crate::dials::{Dials, LinkFailures};
use crate::{Dial, Exchange, FailingCalls, Link, LinkFault, Reply, Request};
use std::alloc::{AllocError, Global};

/// A link for tests, always ready. Its dials and exchanges count together. An exchange that isn't
/// to fail gives the first reply that is left, and fails where none is. It doesn't look at limits.
#[derive(Drop)]
pub struct ScriptLink {
    alloc: Global,
    left: Vec<Reply>,
    told: Vec<Exchange>,
    calls: FailingCalls,
    failures: LinkFailures,
    dials: Dials,
}

impl ScriptLink {
    /// A link with these replies and no exchange so far. It takes no memory.
    pub fn new(alloc: Global, replies: Vec<Reply>, calls: FailingCalls) -> Self
        ensures told { script_told result ≡ [] }
        ensures left { script_left result ≡ replies.items }
        ensures calls { script_calls result ≡ calls }
    {
        ScriptLink {
            alloc,
            left: replies,
            told: Vec::new(alloc),
            calls,
            failures: LinkFailures::none(),
            dials: Dials::none(),
        }
    }

    /// The exchanges so far.
    pub fn exchanges(&self) -> &[Exchange]
        ensures { result.now ≡ script_told self.now }
    {
        self.told.as_slice()
    }
}

impl Link for ScriptLink {
    ghost use Rattle.std.specs.Prelude.{Some, true, ℕ, Option};
    ghost use Rattle.co_link.specs.Exchanges.{DialCall};
    ghost use Rattle.co_link.specs.Dialled.{last_call, dialling_of};
    ghost use Rattle.co_link.specs.ScriptLink.{script_told};

    ghost exchanges = { λ s. Some (script_told s) };

    ghost faults = { λ s. s.failures.count };

    ghost last_failed = { λ s. last_call s.failures };

    ghost is_ready = { λ s. true };

    ghost Beside = { ℕ × Option DialCall };

    ghost beside = { λ s. dialling_of s.dials };

    fn exchange(&mut self, request: Request, limit: u64) -> Result<Reply, LinkFault>
        ensures told { Records (Some (script_told self.old))
            (Some (script_told self.new)) request result }
        ensures cause { LinkCause self.old.failures.count self.new.failures.count
            (last_call self.old.failures) (last_call self.new.failures)
            (record { target = request.target; limit = limit }) result }
        ensures ready { true ≡ true }
        ensures beside { dialling_of self.new.dials ≡ dialling_of self.old.dials }
        ensures calls { script_calls self.new ≡ after_call (script_calls self.old) }
        ensures plays { PlaysNext self.old self.new result }
    {
        if self.calls.next_fails() || self.left.is_empty() {
            self.failures.raise_at(request.target, limit);
            return Err(LinkFault::Failed);
        }
        if self.told.reserve(1).is_err() {
            return Err(LinkFault::OutOfMemory);
        }
        let Ok(reply) = self.left[0].copy(self.alloc) else {
            return Err(LinkFault::OutOfMemory);
        };
        let kept = self.left.remove(0);
        self.told.push_reserved(Exchange {
            request,
            reply: kept,
        });
        Ok(reply)
    }
}

impl Dial for ScriptLink {
    ghost use Rattle.std.proofs.Common.{ap};
    ghost use Rattle.co_link.specs.Dialled.{dialled_last};

    ghost dials = { λ s. s.dials.count };

    ghost last_dial = { λ s. dialled_last s.dials };

    ghost exchange_leaves = { λ a b e. (ap (λ p. p.0) e, ap (λ p. p.1) e) };

    fn dial(&mut self, host: &str, port: u16) -> Result<(), LinkFault>
        ensures ready { OnOk result (true ≡ true) }
        ensures told { Clears (Some (script_told self.old)) (Some (script_told self.new)) result }
        ensures cause { DialCause self.old.failures.count self.new.failures.count
            (last_call self.old.failures) (last_call self.new.failures) result }
        ensures dialled { DialTells self.old.dials.count self.new.dials.count
            (dialled_last self.old.dials) (dialled_last self.new.dials)
            (record { host = host.now; port = port }) result }
        ensures left { script_left self.new ≡ script_left self.old }
        ensures calls { script_calls self.new ≡ after_call (script_calls self.old) }
        ensures fails { FailsExactly Failed OutOfMemory
            (is_to_fail (script_calls self.old)) result }
    {
        let fails = self.calls.next_fails();
        self.dials.add(self.alloc, host, port)?;
        if fails {
            self.failures.raise();
            return Err(LinkFault::Failed);
        }
        self.told.clear();
        Ok(())
    }
}
