//! The command `rehearse`: eight searches over a library that is made up, and the plain answers to
//! them, compared.
ghost use Rattle.std.specs.Prelude.{◌≡◌, ◌≤◌, ◌<◌, ◌+◌, length, IfOk, IfErr, string_bytes};
ghost use Rattle.std.specs.Prelude.{slice_index_or, [], if◌then◌else◌};
ghost use Rattle.co_text.specs.Terms.{terms, distinct};
ghost use Rattle.co_text.specs.Printed.{printed};
ghost use Rattle.co_text.specs.declared.limits.TheConstants.{MOST_KEYWORDS};
ghost use Rattle.co_tfidf.specs.Found.{found, IsIndex};
ghost use Rattle.co_commands.specs.Words.{SpokenRehearse, joined};
ghost use Rattle.co_commands.specs.Commands.{shown, local_shown, IsWithinRanges, IsWithinRehearsals};
ghost use Rattle.co_commands.specs.Outside.{FilesState, DialState, PortState, outside, devices, sink_by};
ghost use Rattle.co_commands.specs.Generator.{documents_of, queries_of};
ghost use Rattle.co_commands.specs.Rehearsals.{IsMadeLibrary, RehearseAnswer, RehearseCause};
ghost use Rattle.co_commands.specs.Rehearsals.{rehearse_lines};
ghost use Rattle.co_commands.specs.Trials.{IsReady, ReadyCause, IsJudged, JudgeCause};
ghost use Rattle.co_commands.specs.Trials.{Tries, AreTried, StopCause};
ghost use Rattle.co_commands.specs.Runs.{Ended};
ghost use Rattle.co_commands.specs.declared.making.TheConstants.{QUERIES};
ghost use Rattle.co_commands.specs.declared.rehearse.TheConstants.{TERMS, HITS};

use crate::access::put_answer;
use crate::local::answer;
use crate::making::{Made, QUERIES, make};
use crate::refusals::Refusal;
use crate::words::{LocalCommand, RehearseCommand, join};
use co_client::SearchFault;
use co_corpus::Corpus;
use co_library::{PublishFault, Settings, publish};
use co_link::{Bytes, Sink};
use co_noise::test;
use co_server::{Loaded, Runs};
use co_text::{all_terms, render};
use co_tfidf::{Index, build_index, plain_search};
use rand_core::Rng;
use sha2::{Digest, Sha256};
use std::alloc::{AllocError, Global};

/// The most terms of the made library's vocabulary.
const TERMS: u32 = 256;

/// The most hits of a search in it.
const HITS: u32 = 16;

/// What is searched: the made documents, their index, and their library made ready for replies.
#[derive(Drop)]
pub struct Ready {
    /// The documents, and the queries.
    pub made: Made,
    /// The index of the documents.
    pub index: Index,
    /// Their library.
    pub loaded: Loaded,
}

/// What the queries came to so far.
#[derive(Drop)]
pub struct Tally {
    /// How many have two equal answers.
    pub agree: u32,
    /// How many have hits that can't be placed.
    pub unplaced: u32,
    /// The plain answers, one after another.
    pub plain: Bytes,
}

// The library of the made documents, made ready for replies.
fn publish_made(
    alloc: Global,
    corpus: &Corpus,
    command: &RehearseCommand,
) -> Result<Loaded, Refusal>
    requires { corpus.now ≡ documents_of command.now.number }
    ensures ok { IfOk result (λ loaded. IsMadeLibrary command.now loaded) }
    ensures cause { IfErr result (ReadyCause command.now) }
{
    let settings = Settings {
        degree: command.degree,
        terms: TERMS,
        hits: HITS,
        salt: 0,
        chunks: 2,
    };
    let library = match publish(alloc, corpus, &settings) {
        Ok(library) => library,
        Err(PublishFault::OutOfMemory) => return Err(Refusal::Memory),
        Err(fault) => return Err(Refusal::Publish(fault)),
    };
    match test(library.shape()) {
        Ok(tested) => match Loaded::new(alloc, library, tested) {
            Ok(loaded) => Ok(loaded),
            Err(_) => Err(Refusal::Memory),
        },
        Err(_) => unreachable!(),
    }
}

// Makes the documents and queries of a number, and makes the documents ready to be searched.
fn prepare(alloc: Global, command: &RehearseCommand) -> Result<Ready, Refusal>
    ensures ok { IfOk result (IsReady command.now) }
    ensures cause { IfErr result (ReadyCause command.now) }
{
    let Ok(made) = make(alloc, command.number) else {
        return Err(Refusal::Memory);
    };
    let loaded = publish_made(alloc, &made.corpus, command)?;
    let Ok(index) = build_index(alloc, &made.corpus, TERMS) else {
        return Err(Refusal::Memory);
    };
    Ok(Ready {
        made,
        index,
        loaded,
    })
}

// The text of the plain answer.
fn plain_answer(
    alloc: Global,
    corpus: &Corpus,
    index: &Index,
    query: &[String],
    pick: u32,
) -> Result<Bytes, AllocError>
    requires index { IsIndex TERMS corpus.now index.now }
    requires few { length (distinct (terms (joined (shown query)))) ≤ MOST_KEYWORDS }
    ensures { IfOk result (λ text.
        text ≡ printed (found TERMS corpus.now HITS (terms (joined (shown query.entry))) pick)) }
{
    let text = join(alloc, query)?;
    let query = all_terms(alloc, text.as_str())?;
    let found = plain_search(alloc, corpus, index, &query, HITS, pick)?;
    render(alloc, &found)
}

// Whether a search finds what is printed as this text, and whether its hits can't be placed.
fn judge<T: Runs, R: Rng>(
    rt: &T,
    alloc: Global,
    loaded: &Loaded,
    search: &LocalCommand<'_>,
    plain: &[u8],
    rng: &mut R,
) -> Result<(bool, bool), Refusal>
    requires shared { T.is_shared }
    requires ranges { IsWithinRanges search.now }
    ensures ok { IfOk result (IsJudged (local_shown search.now) loaded.now
        (R.stream rng.old) (R.stream rng.new) plain.now) }
    ensures cause { IfErr result (JudgeCause (local_shown search.now) loaded.now
        (R.stream rng.old) (R.stream rng.new)) }
{
    match answer(rt, alloc, loaded, search, rng) {
        Ok(text) => Ok((text.as_slice() == plain, false)),
        Err(
            Refusal::Search(
                SearchFault::NoPlacement {
                    documents: _documents,
                    buckets: _buckets,
                },
            ),
        ) => Ok((false, true)),
        Err(refusal) => Err(refusal),
    }
}

fn one_if(test: bool) -> u32
    ensures { result ≡ (if test then 1 else 0) }
{
    if test { 1 } else { 0 }
}

// Answers the query at a place in both ways.
fn try_query<T: Runs, R: Rng>(
    rt: &T,
    alloc: Global,
    ready: &Ready,
    command: &RehearseCommand,
    place: u32,
    rng: &mut R,
    tally: &mut Tally,
) -> Result<(), Refusal>
    requires shared { T.is_shared }
    requires ranges { IsWithinRehearsals command.now }
    requires ready { IsReady command.now ready.now }
    requires place { place < QUERIES }
    requires agree { tally.old.agree ≤ place }
    requires unplaced { tally.old.unplaced ≤ place }
    ensures { Tries command.now ready.now.loaded (place + 1)
        (slice_index_or (queries_of command.now.number) place [])
        (R.stream rng.old) (R.stream rng.new) tally.old tally.new result }
{
    let query = ready.made.queries[place as usize].as_slice();
    let pick = place + 1;
    let Ok(plain) = plain_answer(alloc, &ready.made.corpus, &ready.index, query, pick) else {
        return Err(Refusal::Memory);
    };
    let search = LocalCommand {
        library: "",
        pick,
        workers: command.workers,
        query,
    };
    let both = judge(rt, alloc, &ready.loaded, &search, plain.as_slice(), rng)?;
    let Ok(()) = tally.plain.append(plain.as_slice()) else {
        return Err(Refusal::Memory);
    };
    tally.agree += one_if(both.0);
    tally.unplaced += one_if(both.1);
    Ok(())
}

// Answers all queries.
fn try_all<T: Runs, R: Rng>(
    rt: &T,
    alloc: Global,
    ready: &Ready,
    command: &RehearseCommand,
    rng: &mut R,
) -> Result<Tally, Refusal>
    requires shared { T.is_shared }
    requires ranges { IsWithinRehearsals command.now }
    requires ready { IsReady command.now ready.now }
    ensures ok { IfOk result (AreTried command.now ready.now.loaded
        (R.stream rng.old) (R.stream rng.new)) }
    ensures cause { IfErr result (StopCause command.now (R.stream rng.old) (R.stream rng.new)) }
{
    let mut tally = Tally {
        agree: 0,
        unplaced: 0,
        plain: Bytes::new(alloc),
    };
    for place in 0..QUERIES {
        try_query(rt, alloc, ready, command, place, rng, &mut tally)?;
    }
    Ok(tally)
}

// The lines.
fn lines(alloc: Global, tally: &Tally) -> Result<String, AllocError>
    ensures { IfOk result (λ text. string_bytes text
        ≡ rehearse_lines tally.now.agree tally.now.unplaced tally.now.plain) }
{
    let agree = tally.agree;
    let unplaced = tally.unplaced;
    let digest = hex::encode(alloc, Sha256::digest(tally.plain.as_slice()))?;
    format!(in alloc;
        "documents 600\nqueries 8\nagree {agree}\nunplaced {unplaced}\nplain {digest}\n"
    )
}

// The lines of all trials of what stands ready.
fn ready_lines<T: Runs, R: Rng>(
    rt: &T,
    alloc: Global,
    ready: &Ready,
    command: &RehearseCommand,
    rng: &mut R,
) -> Result<String, Refusal>
    requires shared { T.is_shared }
    requires ranges { IsWithinRehearsals command.now }
    requires ready { IsReady command.now ready.now }
    ensures ok { IfOk result (λ text. RehearseAnswer command.now
        (R.stream rng.old) (R.stream rng.new) (string_bytes text)) }
    ensures cause { IfErr result (RehearseCause command.now
        (R.stream rng.old) (R.stream rng.new)) }
{
    let tally = try_all(rt, alloc, ready, command, rng)?;
    match lines(alloc, &tally) {
        Ok(text) => Ok(text),
        Err(_) => Err(Refusal::Memory),
    }
}

// The lines of all trials.
fn rehearsal<T: Runs, R: Rng>(
    rt: &T,
    alloc: Global,
    command: &RehearseCommand,
    rng: &mut R,
) -> Result<String, Refusal>
    requires shared { T.is_shared }
    requires ranges { IsWithinRehearsals command.now }
    ensures ok { IfOk result (λ text. RehearseAnswer command.now
        (R.stream rng.old) (R.stream rng.new) (string_bytes text)) }
    ensures cause { IfErr result (RehearseCause command.now
        (R.stream rng.old) (R.stream rng.new)) }
{
    let ready = prepare(alloc, command)?;
    ready_lines(rt, alloc, &ready, command, rng)
}

/// Makes up a library, answers eight queries by searches over links to its own sessions and by
/// plain search, and puts on the output what they come to. It has nothing to do with files, a dial
/// or a port.
pub fn rehearse<T: Runs, R: Rng, O: Sink>(
    rt: &T,
    alloc: Global,
    command: &RehearseCommand,
    rng: &mut R,
    out: &mut O,
) -> Result<(), Refusal>
    requires shared { T.is_shared }
    requires ranges { IsWithinRehearsals command.now }
    ensures { let at = sink_by O.put_so_far O.faults in
        (files : FilesState) (dial : DialState) (port : PortState) →
        Ended (SpokenRehearse command.now)
        (outside files (devices (R.stream rng.old) dial port) (at out.old))
        (outside files (devices (R.stream rng.new) dial port) (at out.new)) result }
{
    let text = rehearsal(rt, alloc, command, rng)?;
    put_answer(text.as_bytes(), out)
}
