//! Serving a connection.

ghost use Rattle.std.specs.Prelude.{◌≡◌, ◌≤◌, IfSome};
ghost use Rattle.co_link.specs.Causes.{Rose};
ghost use Rattle.co_board.specs.declared.board.TheConstants.{MOST_WORKERS};
ghost use Rattle.co_serving.specs.Conversation.{most_responses};
ghost use Rattle.co_serving.specs.declared.ended.Ended.TheVariants.{ReadFault, WriteFault};
ghost use Rattle.co_rounds.specs.Answers.{IsAnswer, Holds};
ghost use Rattle.co_server.specs.Kept.{AreKept};
ghost use Rattle.co_connections.specs.Serving.{ServesLibrary};

use crate::session_service::SessionService;
use co_board::Gate;
use co_link::{Duplex, Request};
use co_rounds::Answer;
use co_server::{Loaded, Session};
use co_serving::{Served, serve_by};
use co_switch::Steps;
use std::alloc::Global;
use std::thread::Threads;

/// Serves one connection: each message of its input is answered in order by one session, whatever
/// pieces the input comes in. The gate is told of the units of each score and retrieval; the steps
/// of all count together.
pub fn serve_connection<C: Duplex, R: Threads + Sync, G: Gate, L>(
    rt: &R,
    alloc: Global,
    loaded: &Loaded,
    line: &mut C,
    workers: u32,
    gate: &G,
    steps: &mut Steps<L>,
) -> Served
    requires { (1 ≤ workers) × (workers ≤ MOST_WORKERS) }
    ensures serves { IfSome (C.left line.old) (λ input. IfSome (C.put_so_far line.old) (λ put.
        ServesLibrary loaded.now input (C.left line.new) put (C.put_so_far line.new) result.requests
        result.ended)) }
    ensures requests { result.requests ≤ most_responses }
    ensures read_fault { result.ended ≡ ReadFault
        → Rose (C.Source.faults line.old) (C.Source.faults line.new) }
    ensures write_fault { result.ended ≡ WriteFault
        → Rose (C.Sink.faults line.old) (C.Sink.faults line.new) }
    ensures beside { C.Duplex.beside line.new ≡ C.Duplex.beside line.old }
    ensures takes_later { C.Source.faults line.old ≤ C.Source.faults line.new }
    ensures puts_later { C.Sink.faults line.old ≤ C.Sink.faults line.new }
{
    let step = |session: &mut Session, loaded: &Loaded, request: &Request, workers: u32| -> Answer
        requires workers { (1 ≤ workers) × (workers ≤ MOST_WORKERS) }
        requires kept { AreKept loaded.now.shape session.old }
        ensures answer { IsAnswer loaded.now session.old request.now result }
        ensures keys { Holds loaded.now.shape session.old request.now result session.new }
        ensures kept { AreKept loaded.now.shape session.new }
    { session.step(rt, alloc, loaded, request, workers, gate, steps) };
    let mut service = SessionService::new(alloc, loaded, workers, step);
    serve_by(alloc, &mut service, line)
}
