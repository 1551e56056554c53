//! A session as what answers the requests of a connection.

ghost use Rattle.std.specs.Prelude.{◌≡◌, ◌≤◌};
ghost use Rattle.co_board.specs.declared.board.TheConstants.{MOST_WORKERS};
ghost use Rattle.co_connections.specs.Serving.{fresh};

use co_link::{Bytes, Reply, Request, Target};
use co_rounds::Answer;
use co_server::{Loaded, Session, reply_of};
use co_serving::{Answering, Lengths};
use co_wire::request_length;
use std::alloc::Global;
use std::marker::Model;

/// A session of its own over a library that is loaded. It is seen as the library and the keys that
/// it holds. Its steps are the calls of `step`, which knows the threads and the gate: a method of a
/// trait may not start threads under any gate, but may call a closure that does.
pub(crate) struct SessionService<'a, F> {
    alloc: Global,
    loaded: &'a Loaded,
    workers: u32,
    session: Session,
    step: F,
}

impl<'a, F> Model for SessionService<'a, F> {
    ghost use Rattle.std.specs.Prelude.{◌≤◌};
    ghost use Rattle.co_board.specs.declared.board.TheConstants.{MOST_WORKERS};
    ghost use Rattle.co_server.specs.Kept.{AreKept};
    ghost use Rattle.co_connections.specs.Serving.{ServingState};

    ghost Value = { ServingState };

    ghost view = { λ s. record { library = s.loaded.now; keys = s.session } };

    ghost invariant = { λ s. (1 ≤ s.workers) × (s.workers ≤ MOST_WORKERS)
        × AreKept s.loaded.now.shape s.session };
}

impl<'a, F> SessionService<'a, F> {
    /// A new session, with no keys. It takes no memory.
    pub(crate) fn new(alloc: Global, loaded: &'a Loaded, workers: u32, step: F) -> Self
        requires { (1 ≤ workers) × (workers ≤ MOST_WORKERS) }
        ensures { result ≡ fresh loaded.now }
    {
        SessionService {
            alloc,
            loaded,
            workers,
            session: Session::new(),
            step,
        }
    }
}

impl<F: Drop> Drop for SessionService<'_, F> {
    fn drop(self) {
        let SessionService {
            alloc: _,
            loaded: _,
            workers: _,
            session: _,
            step: _,
        } = self;
    }
}

impl<F> Lengths for SessionService<'_, F> {
    ghost use Rattle.co_connections.specs.Serving.{wanted_by};

    ghost wanted = { wanted_by };

    fn request_length(&self, target: Target) -> u64 {
        request_length(self.loaded.tested(), target)
    }
}

impl<F: FnMut(&mut Session, &Loaded, &Request, u32) -> Answer> Answering for SessionService<'_, F> {
    ghost use Rattle.std.specs.Prelude.{◌≤◌};
    ghost use Rattle.co_rounds.specs.Answers.{IsAnswer, Holds};
    ghost use Rattle.co_server.specs.Kept.{AreKept};
    ghost use Rattle.co_connections.specs.Serving.{IsStep};

    ghost answers = { IsStep };

    // Each call of `step` is a step of the session.
    ghost may_answer = { λ s.
        ((f : F) (keys : _) (loaded : _) (request : _) (workers : _)
        → (1 ≤ workers) × (workers ≤ MOST_WORKERS) → AreKept loaded.now.shape keys.now
        → F.pre f keys loaded request workers)
        × ((f g : F) (keys kept : _) (loaded : _) (request : _) (workers : _) (answer : _)
        → (1 ≤ workers) × (workers ≤ MOST_WORKERS) → AreKept loaded.now.shape keys.now
        → F.step f keys loaded request workers answer kept g
        → IsAnswer loaded.now keys.now request.now answer
        × Holds loaded.now.shape keys.now request.now answer kept.now
        × AreKept loaded.now.shape kept.now) };

    fn answer(&mut self, request: &Request) -> Reply {
        let answer = (self.step)(&mut self.session, self.loaded, request, self.workers);
        match reply_of(self.alloc, answer) {
            Ok(reply) => reply,
            Err(_) => Reply {
                status: 503,
                body: Bytes::new(self.alloc),
            },
        }
    }
}
