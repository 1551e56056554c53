//! Searches of a library over a link to its own session: how they end, what they exchange, and how
//! far their streams then are.

ghost use Rattle.std.specs.Prelude.{◌≡◌, true};

use crate::cases::{BadCase, Case};
use crate::lines::{put, put_digest, put_numbers, put_text};
use crate::session::loaded;
use crate::streams::{Given, Stand};
use co_client::{SearchFault, search};
use co_link::{Exchange, FailNth, FailingCalls, Link, Target};
use co_server::{Loaded, LocalLink, Runs};
use co_text::{Found, render};
use rand_core::SeedableRng;
use rand_xoshiro::SplitMix64;
use std::alloc::{AllocError, Global};

/// The line of a case, behind the name of its call.
pub fn line<R: Runs>(rt: &R, case: Case) -> Result<String, BadCase>
    requires { R.is_shared }
{
    let mut line = String::new(case.alloc);
    let loaded = loaded(case)?;
    put_search(rt, &mut line, case, &loaded)?;
    Ok(line)
}

/// A search whose words come from the stream of the case.
fn put_search<R: Runs>(
    rt: &R,
    line: &mut String,
    case: Case,
    loaded: &Loaded,
) -> Result<(), BadCase>
    requires { R.is_shared }
{
    match case.text("stream") {
        "zero" => put_drawn(rt, line, case, loaded, &mut Given::new(&[])),
        seed => {
            let mut words = SplitMix64::seed_from_u64(seed.parse().unwrap_or(0));
            put_drawn(rt, line, case, loaded, &mut words)
        }
    }
}

/// A search over a link that makes all its exchanges, or over one whose fourth exchange fails.
fn put_drawn<R: Runs, W: Stand>(
    rt: &R,
    line: &mut String,
    case: Case,
    loaded: &Loaded,
    words: &mut W,
) -> Result<(), BadCase>
    requires { R.is_shared }
{
    match case.call() {
        "search" | "trace" => {
            let mut link = LocalLink::new(rt, case.alloc, loaded, 2);
            put_end(line, case, &mut link, words)?;
            put_exchanges(case, line, link.exchanges())?;
        }
        "cut" => {
            let fourth = FailingCalls::new(vec![in case.alloc; 3; 1]?);
            let link = LocalLink::new(rt, case.alloc, loaded, 2);
            let mut cut = FailNth::new(case.alloc, link, fourth);
            put_end(line, case, &mut cut, words)?;
            put_exchanges(case, line, cut.inner().exchanges())?;
        }
        _ => return Err(BadCase::Unfit),
    }
    Ok(put(line, words.stand() as u128)?)
}

/// How a search ends.
fn put_end<K: Link, W: Stand>(
    line: &mut String,
    case: Case,
    link: &mut K,
    words: &mut W,
) -> Result<(), BadCase>
    requires { K.is_ready link.old ≡ true }
{
    let pick = case.number("pick");
    if pick < 1 || pick > 64 {
        return Err(BadCase::Unfit);
    }
    match search(case.alloc, link, words, case.text("query"), pick) {
        Ok(found) => Ok(put_found(case.alloc, line, &found)?),
        Err(fault) => put_refusal(line, &fault),
    }
}

/// The length and the digest of the text of an answer.
fn put_found(alloc: Global, line: &mut String, found: &Found) -> Result<(), AllocError> {
    let text = render(alloc, found)?;
    put_text(line, "answer")?;
    put(line, text.len() as u128)?;
    put_digest(alloc, line, text.as_slice())
}

fn put_refusal(line: &mut String, fault: &SearchFault) -> Result<(), BadCase> {
    match fault {
        SearchFault::NoPlacement { documents, buckets } => {
            put_text(line, "unplaced documents")?;
            put_numbers(line, documents.as_slice())?;
            put_text(line, "buckets")?;
            put_numbers(line, buckets.as_slice())?;
            Ok(())
        }
        SearchFault::Link => Ok(put_text(line, "link")?),
        SearchFault::OutOfMemory => Err(BadCase::OutOfMemory),
        _ => Err(BadCase::Unfit),
    }
}

/// The target of each exchange, and what a case wants of the rest: a trace wants lengths.
fn put_exchanges(case: Case, line: &mut String, exchanges: &[Exchange]) -> Result<(), AllocError> {
    for exchange in exchanges {
        put_target(line, exchange.request.target)?;
        match case.call() {
            "trace" => put_lengths(line, exchange)?,
            _ => put_digests(case.alloc, line, exchange)?,
        }
    }
    Ok(())
}

fn put_target(line: &mut String, target: Target) -> Result<(), AllocError> {
    let name = match target {
        Target::Public => "public",
        Target::Keys => "keys",
        Target::Score => "score",
        Target::Meta => "meta",
        Target::Document => "document",
    };
    put_text(line, name)
}

/// The length of a request, and status and length of its reply.
fn put_lengths(line: &mut String, exchange: &Exchange) -> Result<(), AllocError> {
    put(line, exchange.request.body.len() as u128)?;
    put(line, exchange.reply.status as u128)?;
    put(line, exchange.reply.body.len() as u128)
}

/// The status of a reply, and the digests of both bodies.
fn put_digests(alloc: Global, line: &mut String, exchange: &Exchange) -> Result<(), AllocError> {
    put(line, exchange.reply.status as u128)?;
    put_digest(alloc, line, exchange.request.body.as_slice())?;
    put_digest(alloc, line, exchange.reply.body.as_slice())
}
