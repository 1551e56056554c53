//! The top call: all that the program does.
ghost use Rattle.std.specs.Prelude.{map, string_bytes};
ghost use Rattle.co_commands.specs.Outside.{files_by, dial_by, port_by, sink_by, devices, outside};
ghost use Rattle.co_commands.specs.Refusals.{Finishes};
ghost use Rattle.co_commands.specs.Runs.{Ran};

use crate::local::local;
use crate::plain::plain;
use crate::publish::import;
use crate::refusals::{Refusal, tell};
use crate::rehearse::rehearse;
use crate::remote::search_remote;
use crate::serving::serve;
use crate::shape::show;
use crate::words::{Command, read_command};
use co_link::{Dial, Files, Port, Sink};
use rand_core::Rng;
use std::alloc::Global;
use std::thread::Threads;

// The status of how a command ended. A refusal is said on the error output.
fn finish<E: Sink>(words: &[String], ended: Result<(), Refusal>, err: &mut E) -> u8
    ensures { let at = sink_by E.put_so_far E.faults in
        Finishes (map string_bytes words.now) ended (at err.old) (at err.new) result }
{
    match ended {
        Ok(()) => 0,
        Err(refusal) => tell(words, refusal, err),
    }
}

/// Does all that the program does: reads the words, does what they say, and answers the status. The
/// random words of a search are those of `rng`. A search over a server goes by `dial`, and a
/// library is served at `port`.
pub fn run<T: Threads + Sync, F: Files, D: Dial, P: Port, R: Rng, O: Sink, E: Sink>(
    rt: &T,
    alloc: Global,
    words: &[String],
    files: &mut F,
    dial: &mut D,
    port: &mut P,
    rng: &mut R,
    out: &mut O,
    err: &mut E,
) -> u8
    ensures { let files_at = files_by F.held F.faults F.last_failed in
        let dial_at = dial_by D.exchanges D.faults D.last_failed D.dials D.last_dial in
        let port_at = port_by P.tells P.Port.faults P.left P.put_so_far
        P.Source.faults P.Sink.faults in
        let out_at = sink_by O.put_so_far O.faults in
        let err_at = sink_by E.put_so_far E.faults in
        let was = outside (files_at files.old)
        (devices (R.stream rng.old) (dial_at dial.old) (port_at port.old)) (out_at out.old) in
        let is = outside (files_at files.new)
        (devices (R.stream rng.new) (dial_at dial.new) (port_at port.new)) (out_at out.new) in
        Ran (map string_bytes words.now) was is (err_at err.old) (err_at err.new) result }
{
    let command = read_command(words);
    match &command {
        Command::Plain(command) => finish(words, plain(alloc, command, files, out), err),
        Command::Import(command) => finish(words, import(alloc, command, files, out), err),
        Command::Shape(shape) => finish(words, show(alloc, shape, out), err),
        Command::Local(command) => finish(words, local(rt, alloc, command, files, rng, out), err),
        Command::Serve(command) => finish(words, serve(rt, alloc, command, files, port, out), err),
        Command::Search(command) => {
            finish(words, search_remote(alloc, command, dial, rng, out), err)
        }
        Command::Rehearse(command) => finish(words, rehearse(rt, alloc, command, rng, out), err),
        Command::Wrong => finish(words, Err(Refusal::Words), err),
    }
}
