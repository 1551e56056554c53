//! The command `serve`: a library on connections, one after another.
ghost use Rattle.std.specs.Prelude.{◌≡◌, ◌≤◌, ◌<◌, ◌+◌, ◌++◌, length, true};
ghost use Rattle.co_board.specs.declared.board.TheConstants.{MOST_WORKERS};
ghost use Rattle.co_http.specs.ShortText.{text_of};
ghost use Rattle.co_commands.specs.Words.{SpokenServe};
ghost use Rattle.co_commands.specs.Commands.{serve_shown, IsWithinServing};
ghost use Rattle.co_commands.specs.Outside.{DialState, FilesState, files_by, port_by, sink_by};
ghost use Rattle.co_commands.specs.Outside.{devices, outside};
ghost use Rattle.co_commands.specs.Connections.{end_text, connection_line};
ghost use Rattle.co_commands.specs.Locals.{CanBeServed};
ghost use Rattle.co_commands.specs.Served.{ServesNext, ServesSome};
ghost use Rattle.co_commands.specs.Runs.{Ended as CommandEnded};
ghost use Rattle.rand_core.specs.Stream.{Stream};

use crate::access::put_answer;
use crate::local::load;
use crate::refusals::Refusal;
use crate::words::ServeCommand;
use co_board::OpenGate;
use co_connections::serve_connection;
use co_http::ShortText;
use co_link::{Files, Port, Sink};
use co_server::Loaded;
use co_serving::{Ended, Served};
use co_switch::Steps;
use std::alloc::Global;
use std::thread::Threads;

// Adds how a connection ended.
fn push_end(text: &mut ShortText, ended: Ended)
    requires { length (text_of text.old) ≤ 96 }
    ensures text { text_of text.new ≡ text_of text.old ++ end_text ended }
    ensures most { length (text_of text.new) ≤ length (text_of text.old) + 16 }
{
    match ended {
        Ended::Closed => text.push(b"closed"),
        Ended::Refused { status } => {
            text.push(b"refused ");
            text.push_number(status as u64, 5);
        }
        Ended::Cut => text.push(b"cut"),
        Ended::Spent => text.push(b"spent"),
        Ended::ReadFault => text.push(b"read fault"),
        Ended::WriteFault => text.push(b"write fault"),
        Ended::OutOfMemory => text.push(b"memory"),
    }
}

// The line of a connection. It takes no memory.
fn connection_line(number: u32, served: &Served) -> ShortText
    ensures { text_of result ≡ connection_line number served.now }
{
    let mut text = ShortText::new();
    text.push(b"connection ");
    text.push_number(number as u64, 10);
    text.push(b" requests ");
    text.push_number(served.requests as u64, 10);
    text.push(b" ");
    push_end(&mut text, served.ended);
    text.push(b"\n");
    text
}

// Accepts the next connection, and serves it.
fn serve_next<T: Threads + Sync, P: Port>(
    rt: &T,
    alloc: Global,
    loaded: &Loaded,
    workers: u32,
    port: &mut P,
) -> Result<Served, Refusal>
    requires listens { (P.tells port.old).listening ≡ true }
    requires workers { (1 ≤ workers) × (workers ≤ MOST_WORKERS) }
    ensures { let at = port_by P.tells P.Port.faults P.left P.put_so_far
        P.Source.faults P.Sink.faults in
        ServesNext loaded.now (at port.old) (at port.new) result }
{
    match port.accept() {
        Ok(()) => {}
        Err(_) => return Err(Refusal::Port),
    }
    let mut steps = Steps::begin();
    Ok(serve_connection(rt, alloc, loaded, port, workers, &OpenGate, &mut steps))
}

// Serves so many connections, and puts the line of each as it ends.
fn serve_all<T: Threads + Sync, P: Port, O: Sink>(
    rt: &T,
    alloc: Global,
    loaded: &Loaded,
    connections: u32,
    workers: u32,
    port: &mut P,
    out: &mut O,
) -> Result<(), Refusal>
    requires listens { (P.tells port.old).listening ≡ true }
    requires workers { (1 ≤ workers) × (workers ≤ MOST_WORKERS) }
    ensures { let port_at = port_by P.tells P.Port.faults P.left P.put_so_far
        P.Source.faults P.Sink.faults in
        let out_at = sink_by O.put_so_far O.faults in
        ServesSome loaded.now connections (port_at port.old) (port_at port.new)
        (out_at out.old) (out_at out.new) result }
{
    let mut number = 0;
    'serving: while number < connections {
        let served = serve_next(rt, alloc, loaded, workers, port)?;
        number += 1;
        let line = connection_line(number, &served);
        put_answer(line.as_slice(), out)?;
    }
    Ok(())
}

// Listens, and serves the connections of a command that has loaded its library.
fn serve_loaded<T: Threads + Sync, P: Port, O: Sink>(
    rt: &T,
    alloc: Global,
    loaded: &Loaded,
    command: &ServeCommand<'_>,
    port: &mut P,
    out: &mut O,
) -> Result<(), Refusal>
    requires { IsWithinServing command.now }
    ensures { let port_at = port_by P.tells P.Port.faults P.left P.put_so_far
        P.Source.faults P.Sink.faults in
        let out_at = sink_by O.put_so_far O.faults in
        let words = serve_shown command.now in
        (was is : FilesState) (random : Stream) (dial : DialState)
        → CanBeServed was.held words.library loaded.now → is.held ≡ was.held
        → CommandEnded (SpokenServe words)
        (outside was (devices random dial (port_at port.old)) (out_at out.old))
        (outside is (devices random dial (port_at port.new)) (out_at out.new))
        result }
{
    match port.listen(command.port) {
        Ok(()) => {}
        Err(_) => return Err(Refusal::Port),
    }
    serve_all(
        rt,
        alloc,
        loaded,
        command.connections,
        command.workers,
        port,
        out,
    )
}

/// Loads a library once, listens, and serves connections one after another, each by a session of
/// its own. The line of a connection is put when it has ended; what happens on it doesn't end the
/// command.
pub fn serve<T: Threads + Sync, F: Files, P: Port, O: Sink>(
    rt: &T,
    alloc: Global,
    command: &ServeCommand<'_>,
    files: &mut F,
    port: &mut P,
    out: &mut O,
) -> Result<(), Refusal>
    requires { IsWithinServing command.now }
    ensures { let files_at = files_by F.held F.faults F.last_failed in
        let port_at = port_by P.tells P.Port.faults P.left P.put_so_far
        P.Source.faults P.Sink.faults in
        let out_at = sink_by O.put_so_far O.faults in
        (random : Stream) (dial : DialState) →
        CommandEnded (SpokenServe (serve_shown command.now))
        (outside (files_at files.old) (devices random dial (port_at port.old)) (out_at out.old))
        (outside (files_at files.new) (devices random dial (port_at port.new)) (out_at out.new))
        result }
{
    let loaded = load(alloc, command.library, files)?;
    serve_loaded(rt, alloc, &loaded, command, port, out)
}
