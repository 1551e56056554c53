//! The command `import`: publishes a corpus as a library file.
ghost use Rattle.std.specs.Prelude.{◌≡◌, ◌≤◌, IfOk, IfErr, string_bytes};
ghost use Rattle.co_corpus.specs.Documents.{IsCorpus};
ghost use Rattle.co_library.specs.Refusals.{IsPublished};
ghost use Rattle.co_commands.specs.Words.{SpokenImport};
ghost use Rattle.co_commands.specs.Commands.{import_shown};
ghost use Rattle.co_commands.specs.Outside.{Devices, FilesState, files_by, sink_by, outside};
ghost use Rattle.co_commands.specs.Searches.{HasCorpus};
ghost use Rattle.co_commands.specs.Imports.{import_text, HasLibrary, UnpublishedCause};
ghost use Rattle.co_commands.specs.Runs.{Ended};

use crate::access::put_answer;
use crate::plain::read_documents;
use crate::refusals::Refusal;
use crate::words::ImportCommand;
use co_corpus::Corpus;
use co_library::{Library, PublishFault, Settings, publish};
use co_link::{FileFault, FileKind, Files, Sink};
use co_noise::Shape;
use std::alloc::{AllocError, Global};

// The line of a library's numbers.
fn numbers_line(alloc: Global, shape: &Shape) -> Result<String, AllocError>
    ensures { IfOk result (λ line. string_bytes line ≡ import_text shape.now) }
{
    let documents = shape.documents();
    let terms = shape.terms();
    let rows = shape.rows();
    let bins = shape.bins();
    let chunks = shape.chunks();
    format!(in alloc;
        "documents {documents} terms {terms} rows {rows} bins {bins} chunks {chunks}\n"
    )
}

// The library of a corpus.
fn library_of(alloc: Global, corpus: &Corpus, settings: &Settings) -> Result<Library, Refusal>
    ensures ok { IfOk result (IsPublished corpus.now settings.now) }
    ensures cause { IfErr result (UnpublishedCause corpus.now settings.now) }
{
    match publish(alloc, corpus, settings) {
        Ok(library) => Ok(library),
        Err(PublishFault::OutOfMemory) => Err(Refusal::Memory),
        Err(fault) => Err(Refusal::Publish(fault)),
    }
}

// Writes the file of a command's library, and puts the line of its numbers on the output. The line
// is made before the file is written.
fn put_library<F: Files, O: Sink>(
    alloc: Global,
    library: &Library,
    command: &ImportCommand<'_>,
    files: &mut F,
    out: &mut O,
) -> Result<(), Refusal>
    ensures { let files_at = files_by F.held F.faults F.last_failed in
        let out_at = sink_by O.put_so_far O.faults in
        let words = import_shown command.now in
        (was : FilesState) (devices : Devices) (published : HasLibrary words was.held library.now)
        → IsCorpus published.documents → (files_at files.old).held ≡ was.held
        → was.faults ≤ (files_at files.old).faults
        → Ended (SpokenImport words)
        (outside was devices (out_at out.old))
        (outside (files_at files.new) devices (out_at out.new)) result }
{
    let Ok(line) = numbers_line(alloc, library.shape()) else {
        return Err(Refusal::Memory);
    };
    let Ok(bytes) = library.write(alloc) else {
        return Err(Refusal::Memory);
    };
    match files.write(command.library, bytes.as_slice()) {
        Ok(()) => {}
        Err(FileFault::Failed) => return Err(Refusal::File(FileKind::Write)),
        Err(FileFault::TooLong) => unreachable!(),
        Err(FileFault::OutOfMemory) => return Err(Refusal::Memory),
    }
    put_answer(line.as_bytes(), out)
}

// Publishes the corpus of a command.
fn import_corpus<F: Files, O: Sink>(
    alloc: Global,
    corpus: &Corpus,
    command: &ImportCommand<'_>,
    files: &mut F,
    out: &mut O,
) -> Result<(), Refusal>
    ensures { let files_at = files_by F.held F.faults F.last_failed in
        let out_at = sink_by O.put_so_far O.faults in
        let words = import_shown command.now in
        (was : FilesState) (devices : Devices) → HasCorpus was.held words.corpus corpus.now
        → (files_at files.old).held ≡ was.held → was.faults ≤ (files_at files.old).faults
        → Ended (SpokenImport words)
        (outside was devices (out_at out.old))
        (outside (files_at files.new) devices (out_at out.new)) result }
{
    let _ = corpus.as_slice();
    let library = library_of(alloc, corpus, &command.settings)?;
    put_library(alloc, &library, command, files, out)
}

/// Publishes a corpus, writes the library's file, and puts the line of its numbers on the output.
pub fn import<F: Files, O: Sink>(
    alloc: Global,
    command: &ImportCommand<'_>,
    files: &mut F,
    out: &mut O,
) -> Result<(), Refusal>
    ensures { let files_at = files_by F.held F.faults F.last_failed in
        let out_at = sink_by O.put_so_far O.faults in
        (devices : Devices) → Ended (SpokenImport (import_shown command.now))
        (outside (files_at files.old) devices (out_at out.old))
        (outside (files_at files.new) devices (out_at out.new)) result }
{
    let corpus = read_documents(alloc, command.corpus, files)?;
    import_corpus(alloc, &corpus, command, files, out)
}
