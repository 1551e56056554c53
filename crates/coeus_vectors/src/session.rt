//! Sessions over a library: requests in order, and what is replied.

ghost use Rattle.std.specs.Prelude.{◌≡◌, true, OnOk};

use crate::cases::{BadCase, Case};
use crate::library::library;
use crate::lines::{put, put_digest};
use crate::noise::passed;
use crate::wire::{put_in, put_lengths};
use co_link::{Bytes, Dial, Reply, Request, Target};
use co_server::{Loaded, LocalLink, Runs};
use std::alloc::{AllocError, Global};

/// The line of a case, behind the name of its call.
pub fn line<R: Runs>(rt: &R, case: Case) -> Result<String, BadCase>
    requires { R.is_shared }
{
    let mut line = String::new(case.alloc);
    match case.call() {
        "lengths" => put_library_lengths(&mut line, case)?,
        "replies" | "statuses" => put_session(rt, &mut line, case)?,
        _ => return Err(BadCase::Unfit),
    }
    Ok(line)
}

/// The lengths of the requests to a library, and of the replies.
fn put_library_lengths(line: &mut String, case: Case) -> Result<(), BadCase> {
    let library = library(case)?;
    let tested = passed(library.shape())?;
    Ok(put_lengths(line, &tested)?)
}

/// The library of a case, made ready for replies.
pub fn loaded(case: Case) -> Result<Loaded, BadCase> {
    let library = library(case)?;
    let tested = passed(library.shape())?;
    Ok(Loaded::new(case.alloc, library, tested)?)
}

/// The replies of a new session, and how many exchanges its link then tells.
fn put_session<R: Runs>(rt: &R, line: &mut String, case: Case) -> Result<(), BadCase>
    requires { R.is_shared }
{
    let loaded = loaded(case)?;
    put_session_over(rt, line, case, &loaded)
}

fn put_session_over<R: Runs>(
    rt: &R,
    line: &mut String,
    case: Case,
    loaded: &Loaded,
) -> Result<(), BadCase>
    requires { R.is_shared }
{
    let mut link = LocalLink::new(rt, case.alloc, loaded, 2);
    put_told(line, case, &mut link)
}

fn put_told<R: Runs>(
    line: &mut String,
    case: Case,
    link: &mut LocalLink<R>,
) -> Result<(), BadCase> {
    put_replies(line, case, link)?;
    put(line, link.exchanges().len() as u128)?;
    Ok(())
}

/// What comes of each step of a case.
fn put_replies<K: Dial>(line: &mut String, case: Case, link: &mut K) -> Result<(), BadCase>
    requires { K.is_ready link.old ≡ true }
{
    let whole = case.call() == "replies";
    for fields in case.list("steps")? {
        put_step(line, Case::new(case.alloc, fields), whole, link)?;
    }
    Ok(())
}

/// Dials, or asks.
fn put_step<K: Dial>(
    line: &mut String,
    step: Case,
    whole: bool,
    link: &mut K,
) -> Result<(), BadCase>
    requires { K.is_ready link.old ≡ true }
    ensures { OnOk result (K.is_ready link.new ≡ true) }
{
    if step.text("target") == "dial" {
        return dialled(link);
    }
    let reply = asked(link, step)?;
    Ok(put_reply(step.alloc, line, whole, &reply)?)
}

fn dialled<K: Dial>(link: &mut K) -> Result<(), BadCase>
    ensures { OnOk result (K.is_ready link.new ≡ true) }
{
    match link.dial("localhost", 8080) {
        Ok(()) => Ok(()),
        Err(_) => return Err(BadCase::OutOfMemory),
    }
}

/// The reply to a request.
fn asked<K: Dial>(link: &mut K, step: Case) -> Result<Reply, BadCase>
    requires { K.is_ready link.old ≡ true }
    ensures { OnOk result (K.is_ready link.new ≡ true) }
{
    let request = request(step)?;
    match link.exchange(request, u64::MAX) {
        Ok(reply) => Ok(reply),
        Err(_) => return Err(BadCase::OutOfMemory),
    }
}

/// The request of a step, whose body is zeros with some bytes put in.
pub fn request(step: Case) -> Result<Request, BadCase> {
    let target = match step.text("target") {
        "public" => Target::Public,
        "keys" => Target::Keys,
        "score" => Target::Score,
        "meta" => Target::Meta,
        "document" => Target::Document,
        _ => return Err(BadCase::Unfit),
    };
    let body = Bytes::from_vec(put_in(step)?);
    Ok(Request { target, body })
}

/// The status and the length of a reply, and its digest where it is known.
fn put_reply(
    alloc: Global,
    line: &mut String,
    whole: bool,
    reply: &Reply,
) -> Result<(), AllocError> {
    put(line, reply.status as u128)?;
    put(line, reply.body.len() as u128)?;
    if whole {
        put_digest(alloc, line, reply.body.as_slice())?;
    }
    Ok(())
}
