//! The command `plain`: plain search over the documents of a corpus file.
ghost use Rattle.std.specs.Prelude.{◌≡◌, ◌≤◌, length, IfOk, IfErr, ℕ};
ghost use Rattle.co_text.specs.Terms.{distinct};
ghost use Rattle.co_text.specs.Printed.{printed};
ghost use Rattle.co_text.specs.declared.limits.TheConstants.{MOST_KEYWORDS};
ghost use Rattle.co_tfidf.specs.Found.{found, IsIndex};
ghost use Rattle.co_commands.specs.Words.{SpokenPlain};
ghost use Rattle.co_commands.specs.Commands.{plain_shown};
ghost use Rattle.co_commands.specs.Outside.{Devices, files_by, sink_by, outside};
ghost use Rattle.co_commands.specs.Access.{Opens};
ghost use Rattle.co_commands.specs.Searches.{HasCorpus, ReadCause, HasText, TextCause, plain_settings};
ghost use Rattle.co_commands.specs.Runs.{Ended};

use crate::access::{put_answer, read_file};
use crate::limits::{DEFAULT_CHUNKS, DEFAULT_DEGREE, DEFAULT_SALT, LARGEST_CORPUS};
use crate::refusals::Refusal;
use crate::words::{PlainCommand, join};
use co_corpus::{Corpus, CorpusFault, read_corpus};
use co_library::{PublishFault, Settings};
use co_link::{Bytes, Files, Sink};
use co_text::{Found, QueryFault, Terms, query_terms, render};
use co_tfidf::{Index, build_index, plain_search};
use std::alloc::{AllocError, Global};

// The settings that the command's own are checked among.
fn settings_of(command: &PlainCommand<'_>) -> Settings
    ensures { result ≡ plain_settings (plain_shown command.now) }
{
    Settings {
        degree: DEFAULT_DEGREE,
        terms: command.terms,
        hits: command.hits,
        salt: DEFAULT_SALT,
        chunks: DEFAULT_CHUNKS,
    }
}

// What is found by the index of a vocabulary of at most so many terms.
fn find(
    alloc: Global,
    corpus: &Corpus,
    index: &Index,
    terms: u32,
    query: &Terms,
    command: &PlainCommand<'_>,
) -> Result<Found, AllocError>
    ghost most: { ℕ }
    requires same { most ≡ terms }
    requires index { IsIndex most corpus.now index.now }
    requires few { length (distinct query.now) ≤ MOST_KEYWORDS }
    ensures { IfOk result (λ f.
        f ≡ found terms corpus.now command.now.hits query.now command.now.pick) }
{
    plain_search(alloc, corpus, index, query, command.hits, command.pick)
}

// The text of what is found in a corpus for the terms of a query.
fn search(
    alloc: Global,
    corpus: &Corpus,
    query: &Terms,
    command: &PlainCommand<'_>,
) -> Result<Bytes, AllocError>
    requires { length (distinct query.now) ≤ MOST_KEYWORDS }
    ensures { let c = command.now in IfOk result (λ text.
        text ≡ printed (found c.terms corpus.now c.hits query.now c.pick)) }
{
    let index = build_index(alloc, corpus, command.terms)?;
    let found = find(alloc, corpus, &index, command.terms, query, command)?;
    render(alloc, &found)
}

/// The corpus of a file.
pub fn read_documents<F: Files>(alloc: Global, name: &str, files: &mut F) -> Result<Corpus, Refusal>
    ensures { let at = files_by F.held F.faults F.last_failed in
        Opens HasCorpus ReadCause name.now (at files.old) (at files.new) result }
{
    let bytes = read_file(name, LARGEST_CORPUS, files)?.ok_or(Refusal::CorpusTooLong)?;
    match read_corpus(alloc, bytes.as_slice()) {
        Ok(corpus) => Ok(corpus),
        Err(CorpusFault::OutOfMemory) => Err(Refusal::Memory),
        Err(fault) => Err(Refusal::Corpus(fault)),
    }
}

// The text of what is found in a corpus.
fn answer(alloc: Global, corpus: &Corpus, command: &PlainCommand<'_>) -> Result<Bytes, Refusal>
    ensures ok { IfOk result (HasText (plain_shown command.now) corpus.now) }
    ensures cause { IfErr result (TextCause (plain_shown command.now)) }
{
    if let Err(setting) = settings_of(command).check() {
        return Err(Refusal::Publish(PublishFault::Setting {
            which: setting.which,
        }));
    }
    let Ok(text) = join(alloc, command.query) else {
        return Err(Refusal::Memory);
    };
    let query = match query_terms(alloc, text.as_str()) {
        Ok(query) => query,
        Err(QueryFault::TooManyKeywords { found }) => return Err(Refusal::Keywords(found)),
        Err(QueryFault::OutOfMemory) => return Err(Refusal::Memory),
    };
    match search(alloc, corpus, &query, command) {
        Ok(text) => Ok(text),
        Err(_) => Err(Refusal::Memory),
    }
}

/// Searches a corpus, and puts the answer on the output.
pub fn plain<F: Files, O: Sink>(
    alloc: Global,
    command: &PlainCommand<'_>,
    files: &mut F,
    out: &mut O,
) -> Result<(), Refusal>
    ensures { let files_at = files_by F.held F.faults F.last_failed in
        let out_at = sink_by O.put_so_far O.faults in
        (devices : Devices) → Ended (SpokenPlain (plain_shown command.now))
        (outside (files_at files.old) devices (out_at out.old))
        (outside (files_at files.new) devices (out_at out.new)) result }
{
    let corpus = read_documents(alloc, command.corpus, files)?;
    let text = answer(alloc, &corpus, command)?;
    put_answer(text.as_slice(), out)
}
