//! A session: one request after another.

ghost use Rattle.std.specs.Prelude.{◌≡◌, ◌≤◌, None};
ghost use Rattle.co_board.specs.declared.board.TheConstants.{MOST_WORKERS};
ghost use Rattle.co_rounds.specs.Answers.{IsAnswer, Holds};
ghost use Rattle.co_server.specs.Kept.{AreKept};

use crate::loaded::Loaded;
use crate::replying::{public_answer, refusal, reply_with, without_keys};
use co_board::Gate;
use co_link::{Bytes, Request, Target};
use co_rounds::Answer;
use co_switch::{KeySet, Steps};
use co_wire::read_keys;
use std::alloc::Global;
use std::marker::Model;
use std::thread::Threads;

/// The keys that a client handed over last.
#[derive(Drop)]
pub struct Session {
    keys: Option<KeySet>,
}

impl Model for Session {
    ghost use Rattle.std.specs.Prelude.{Option};
    ghost use Rattle.co_switch.specs.Keys.{Keys};

    ghost Value = { Option Keys };

    ghost view = { λ s. s.keys };
}

impl Session {
    /// A session with no keys. It takes no memory.
    pub fn new() -> Session
        ensures { result ≡ None }
    {
        Session { keys: None }
    }

    /// The answer to a request. Each but the one to keys leaves the session. The gate is told of
    /// the units of each score and retrieval; the steps of all count together.
    pub fn step<R: Threads + Sync, G: Gate, L>(
        &mut self,
        rt: &R,
        alloc: Global,
        loaded: &Loaded,
        request: &Request,
        workers: u32,
        gate: &G,
        steps: &mut Steps<L>,
    ) -> Answer
        requires workers { (1 ≤ workers) × (workers ≤ MOST_WORKERS) }
        requires kept { AreKept loaded.now.shape self.old }
        ensures answer { IsAnswer loaded.now self.old request.now result }
        ensures keys { Holds loaded.now.shape self.old request.now result self.new }
        ensures kept { AreKept loaded.now.shape self.new }
    {
        match request.target {
            Target::Public => public_answer(alloc, loaded, request),
            Target::Keys => match read_keys(alloc, loaded.tested(), request.body.as_slice()) {
                Ok(keys) => {
                    self.keys = Some(keys);
                    Answer::Done(Bytes::new(alloc))
                }
                Err(fault) => refusal(fault),
            },
            Target::Score | Target::Meta | Target::Document => match &self.keys {
                Some(keys) => reply_with(rt, alloc, loaded, keys, request, workers, gate, steps),
                None => without_keys(loaded, request),
            },
        }
    }
}
