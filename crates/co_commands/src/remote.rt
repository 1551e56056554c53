//! The command `search`: a search over a dial.
ghost use Rattle.co_commands.specs.Words.{SpokenSearch};
ghost use Rattle.co_commands.specs.Commands.{search_shown, IsWithinSearching};
ghost use Rattle.co_commands.specs.Outside.{FilesState, PortState, dial_by, sink_by, devices, outside};
ghost use Rattle.co_commands.specs.Remote.{Asked};
ghost use Rattle.co_commands.specs.Runs.{Ended};

use crate::access::put_answer;
use crate::refusals::Refusal;
use crate::words::{SearchCommand, join};
use co_client::search;
use co_link::{Dial, LinkFault, Sink};
use co_text::{Found, render};
use rand_core::Rng;
use std::alloc::Global;

// Makes the one dial, and asks what the query words find.
fn ask<D: Dial, R: Rng>(
    alloc: Global,
    command: &SearchCommand<'_>,
    dial: &mut D,
    rng: &mut R,
) -> Result<Found, Refusal>
    requires { IsWithinSearching command.now }
    ensures { let at = dial_by D.exchanges D.faults D.last_failed D.dials D.last_dial in
        (port : PortState) → Asked (search_shown command.now)
        (devices (R.stream rng.old) (at dial.old) port)
        (devices (R.stream rng.new) (at dial.new) port) result }
{
    let Ok(query) = join(alloc, command.query) else {
        return Err(Refusal::Memory);
    };
    match dial.dial(command.host, command.port) {
        Ok(()) => {}
        Err(LinkFault::Failed) => return Err(Refusal::Dial),
        Err(LinkFault::OutOfMemory) => return Err(Refusal::Memory),
    }
    match search(alloc, dial, rng, query.as_str(), command.pick) {
        Ok(found) => Ok(found),
        Err(fault) => Err(Refusal::Search(fault)),
    }
}

/// Dials a server, searches its library, and puts the answer on the output.
pub fn search_remote<D: Dial, R: Rng, O: Sink>(
    alloc: Global,
    command: &SearchCommand<'_>,
    dial: &mut D,
    rng: &mut R,
    out: &mut O,
) -> Result<(), Refusal>
    requires { IsWithinSearching command.now }
    ensures { let dial_at = dial_by D.exchanges D.faults D.last_failed D.dials D.last_dial in
        let out_at = sink_by O.put_so_far O.faults in
        (files : FilesState) (port : PortState) → Ended (SpokenSearch (search_shown command.now))
        (outside files (devices (R.stream rng.old) (dial_at dial.old) port) (out_at out.old))
        (outside files (devices (R.stream rng.new) (dial_at dial.new) port) (out_at out.new))
        result }
{
    let found = ask(alloc, command, dial, rng)?;
    let Ok(text) = render(alloc, &found) else {
        return Err(Refusal::Memory);
    };
    put_answer(text.as_slice(), out)
}
