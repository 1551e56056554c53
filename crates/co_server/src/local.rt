//! A link to a session of its own, in the same process.

ghost use Rattle.std.specs.Prelude.{◌≡◌, ◌≤◌, None, Some, []};
ghost use Rattle.co_link.specs.Dialled.{dialling_of};
ghost use Rattle.co_board.specs.declared.board.TheConstants.{MOST_WORKERS};
ghost use Rattle.co_rounds.specs.Honest.{AreHonest};
ghost use Rattle.co_server.specs.Local.{IsLocal};

use crate::loaded::Loaded;
use crate::replies::reply_of;
use crate::runs::Runs;
use crate::session::Session;
use co_link::{Dial, Dials, Exchange, Link, LinkFault, Reply, Request};
use std::alloc::Global;
use std::marker::Model;

/// A link to a session of its own over a library. It tells its exchanges, which are honest to the
/// library; it is always ready and never fails, and it doesn't look at limits.
pub struct LocalLink<'a, R: Runs> {
    rt: &'a R,
    alloc: Global,
    loaded: &'a Loaded,
    workers: u32,
    session: Session,
    told: Vec<Exchange>,
    dials: Dials,
}

impl<'a, R: Runs> Model for LocalLink<'a, R> {
    ghost use Rattle.co_link.specs.Dialled.{dialling_of};
    ghost use Rattle.co_server.specs.Local.{LocalState, IsLocal};

    ghost Value = { LocalState };

    ghost view = { λ s. record {
      library = s.loaded.now;
      workers = s.workers;
      told = s.told.items;
      keys = s.session;
      dialling = dialling_of s.dials;
    } };

    ghost invariant = { λ s. R.is_shared
        × IsLocal (record {
          library = s.loaded.now;
          workers = s.workers;
          told = s.told.items;
          keys = s.session;
          dialling = dialling_of s.dials;
        }) };
}

impl<R: Runs> Drop for LocalLink<'_, R> {
    fn drop(self) {
        let LocalLink {
            rt: _,
            alloc: _,
            loaded: _,
            workers: _,
            session: _,
            told: _,
            dials: _,
        } = self;
    }
}

impl<'a, R: Runs> LocalLink<'a, R> {
    /// A link to a new session, with no exchange so far. It takes no memory.
    pub fn new(rt: &'a R, alloc: Global, loaded: &'a Loaded, workers: u32) -> Self
        requires shared { R.is_shared }
        requires workers { (1 ≤ workers) × (workers ≤ MOST_WORKERS) }
        ensures library { result.library ≡ loaded.now }
        ensures told { result.told ≡ [] }
        ensures keys { result.keys ≡ None }
        ensures dialling { result.dialling ≡ (0, None) }
    {
        LocalLink {
            rt,
            alloc,
            loaded,
            workers,
            session: Session::new(),
            told: Vec::new(alloc),
            dials: Dials::none(),
        }
    }

    /// The exchanges so far.
    pub fn exchanges(&self) -> &[Exchange]
        ensures told { result.now ≡ self.now.told }
        ensures honest { AreHonest self.now.library None self.now.told }
    {
        self.told.as_slice()
    }
}

impl<'a, R: Runs> Link for LocalLink<'a, R> {
    ghost use Rattle.std.specs.Prelude.{Some, true, ℕ, Option, None};
    ghost use Rattle.co_link.specs.Exchanges.{DialCall};
    ghost use Rattle.co_library.specs.Libraries.{Parts};

    ghost exchanges = { λ s. Some s.told };

    ghost faults = { λ s. 0 };

    ghost last_failed = { λ s. None };

    ghost is_ready = { λ s. true };

    ghost Beside = { Parts × (ℕ × Option DialCall) };

    ghost beside = { λ s. (s.library, s.dialling) };

    fn exchange(&mut self, request: Request, limit: u64) -> Result<Reply, LinkFault> {
        let _ = limit;
        if self.told.reserve(1).is_err() {
            return Err(LinkFault::OutOfMemory);
        }
        let answer = self.rt.step(
            self.alloc,
            &mut self.session,
            self.loaded,
            &request,
            self.workers,
        );
        let Ok(reply) = reply_of(self.alloc, answer) else {
            return Err(LinkFault::OutOfMemory);
        };
        let Ok(kept) = reply.copy(self.alloc) else {
            return Err(LinkFault::OutOfMemory);
        };
        self.told
            .push(Exchange {
                request,
                reply: kept,
            })
            .unwrap();
        Ok(reply)
    }
}

impl<'a, R: Runs> Dial for LocalLink<'a, R> {
    ghost use Rattle.std.specs.Prelude.{ℕ};
    ghost use Rattle.std.proofs.Common.{ap};

    ghost dials = { λ s. s.dialling.0 };

    ghost last_dial = { λ s. s.dialling.1 };

    ghost exchange_leaves = { λ a b e. (ap (λ p. p.1.0) e, ap (λ p. p.1.1) e) };

    fn dial(&mut self, host: &str, port: u16) -> Result<(), LinkFault> {
        self.dials.add(self.alloc, host, port)?;
        self.session = Session::new();
        self.told.clear();
        Ok(())
    }
}
