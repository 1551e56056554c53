//! The command `local`: a search over a link to the library's own session.
ghost use Rattle.std.specs.Prelude.{◌≡◌, IfOk, IfErr};
ghost use Rattle.co_commands.specs.Words.{SpokenLocal};
ghost use Rattle.co_commands.specs.Commands.{local_shown, IsWithinRanges};
ghost use Rattle.co_commands.specs.Outside.{DialState, PortState, files_by, sink_by};
ghost use Rattle.co_commands.specs.Outside.{devices, outside};
ghost use Rattle.co_commands.specs.Access.{Opens};
ghost use Rattle.co_commands.specs.Locals.{HasLibraryFile, CanBeServed, OpenCause};
ghost use Rattle.co_commands.specs.Locals.{IsShown, Finds, LocalAnswer, LocalCause};
ghost use Rattle.co_commands.specs.Runs.{Ended};

use crate::access::{put_answer, read_file};
use crate::limits::LARGEST_LIBRARY;
use crate::refusals::Refusal;
use crate::words::{LocalCommand, join};
use co_client::{SearchFault, search};
use co_library::{Library, LibraryFault};
use co_link::{Bytes, Files, Sink};
use co_noise::test;
use co_server::{Loaded, LocalLink, Runs};
use co_text::{Found, render};
use rand_core::Rng;
use std::alloc::Global;

/// The library of a file.
fn read_library<F: Files>(alloc: Global, name: &str, files: &mut F) -> Result<Library, Refusal>
    ensures { let at = files_by F.held F.faults F.last_failed in
        Opens HasLibraryFile OpenCause name.now (at files.old) (at files.new) result }
{
    let bytes = read_file(name, LARGEST_LIBRARY, files)?.ok_or(Refusal::LibraryTooLong)?;
    match Library::read(alloc, bytes.as_slice()) {
        Ok(library) => Ok(library),
        Err(LibraryFault::BadLibrary { place }) => Err(Refusal::Library(place)),
        Err(LibraryFault::OutOfMemory) => Err(Refusal::Memory),
    }
}

/// The library of a file, made ready for replies, where it passes the test.
pub fn load<F: Files>(alloc: Global, name: &str, files: &mut F) -> Result<Loaded, Refusal>
    ensures { let at = files_by F.held F.faults F.last_failed in
        Opens CanBeServed OpenCause name.now (at files.old) (at files.new) result }
{
    let library = read_library(alloc, name, files)?;
    match test(library.shape()) {
        Ok(tested) => match Loaded::new(alloc, library, tested) {
            Ok(loaded) => Ok(loaded),
            Err(_) => Err(Refusal::Memory),
        },
        Err(fault) => Err(Refusal::Test(fault)),
    }
}

// The text of what was found.
fn shown(alloc: Global, found: Result<Found, SearchFault>) -> Result<Bytes, Refusal>
    ensures { IsShown found result }
{
    match found {
        Ok(found) => match render(alloc, &found) {
            Ok(text) => Ok(text),
            Err(_) => Err(Refusal::Memory),
        },
        Err(fault) => Err(Refusal::Search(fault)),
    }
}

/// The text of what a search finds over a link to a session of its own.
pub fn answer<T: Runs, R: Rng>(
    rt: &T,
    alloc: Global,
    loaded: &Loaded,
    command: &LocalCommand<'_>,
    rng: &mut R,
) -> Result<Bytes, Refusal>
    requires shared { T.is_shared }
    requires ranges { IsWithinRanges command.now }
    ensures { Finds (local_shown command.now) loaded.now (R.stream rng.old) (R.stream rng.new)
        result }
{
    let _ = loaded.library();
    let Ok(query) = join(alloc, command.query) else {
        return Err(Refusal::Memory);
    };
    let mut link = LocalLink::new(rt, alloc, loaded, command.workers);
    let found = search(alloc, &mut link, rng, query.as_str(), command.pick);
    let _ = link.exchanges();
    shown(alloc, found)
}

/// The text of what a search finds in the library of a file.
fn find<T: Runs, F: Files, R: Rng>(
    rt: &T,
    alloc: Global,
    command: &LocalCommand<'_>,
    files: &mut F,
    rng: &mut R,
) -> Result<Bytes, Refusal>
    requires shared { T.is_shared }
    requires ranges { IsWithinRanges command.now }
    ensures ok { IfOk result (LocalAnswer (local_shown command.now) (F.held files.old)
        (R.stream rng.old) (R.stream rng.new)) }
    ensures cause { let at = files_by F.held F.faults F.last_failed in
        IfErr result (LocalCause (local_shown command.now) (at files.old) (at files.new)
        (R.stream rng.old) (R.stream rng.new)) }
    ensures files { F.held files.new ≡ F.held files.old }
{
    let loaded = load(alloc, command.library, files)?;
    answer(rt, alloc, &loaded, command, rng)
}

/// Searches a library, and puts the answer on the output. It has nothing to do with a dial or a
/// port.
pub fn local<T: Runs, F: Files, R: Rng, O: Sink>(
    rt: &T,
    alloc: Global,
    command: &LocalCommand<'_>,
    files: &mut F,
    rng: &mut R,
    out: &mut O,
) -> Result<(), Refusal>
    requires shared { T.is_shared }
    requires ranges { IsWithinRanges command.now }
    ensures { let files_at = files_by F.held F.faults F.last_failed in
        let out_at = sink_by O.put_so_far O.faults in
        (dial : DialState) (port : PortState) → Ended (SpokenLocal (local_shown command.now))
        (outside (files_at files.old) (devices (R.stream rng.old) dial port) (out_at out.old))
        (outside (files_at files.new) (devices (R.stream rng.new) dial port) (out_at out.new))
        result }
{
    let text = find(rt, alloc, command, files, rng)?;
    put_answer(text.as_slice(), out)
}
