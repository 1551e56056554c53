//! Where the steps of sessions run.

ghost use Rattle.std.specs.Prelude.{◌≤◌};
ghost use Rattle.co_board.specs.declared.board.TheConstants.{MOST_WORKERS};
ghost use Rattle.co_rounds.specs.Answers.{IsAnswer, Holds};
ghost use Rattle.co_server.specs.Kept.{AreKept};

use crate::loaded::Loaded;
use crate::session::Session;
use co_board::OpenGate;
use co_link::Request;
use co_rounds::Answer;
use co_switch::Steps;
use std::alloc::Global;
use std::thread::Threads;

/// What has the threads of a session's steps: each runtime whose threads may share it. A link keeps
/// one, since its calls are passed none.
pub trait Runs: Threads {
    /// Threads may share it.
    ghost is_shared: { Type 0 };

    /// The answer of a session to a request, as `Session::step` gives it. Nobody is told of units,
    /// and the steps are counted on counters of their own.
    fn step(
        &self,
        alloc: Global,
        session: &mut Session,
        loaded: &Loaded,
        request: &Request,
        workers: u32,
    ) -> Answer
        requires shared { is_shared }
        requires workers { (1 ≤ workers) × (workers ≤ MOST_WORKERS) }
        requires kept { AreKept loaded.now.shape session.old }
        ensures answer { IsAnswer loaded.now session.old request.now result }
        ensures keys { Holds loaded.now.shape session.old request.now result session.new }
        ensures kept { AreKept loaded.now.shape session.new };
}

impl<R: Threads + Sync> Runs for R {
    ghost use Rattle.std.specs.Thread.{IsSync};

    ghost is_shared = { IsSync R.row };

    fn step(
        &self,
        alloc: Global,
        session: &mut Session,
        loaded: &Loaded,
        request: &Request,
        workers: u32,
    ) -> Answer {
        let mut steps = Steps::begin();
        session.step(self, alloc, loaded, request, workers, &OpenGate, &mut steps)
    }
}
