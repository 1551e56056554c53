//! A link in memory that plays replies made by hand.

use crate::cases::{BadCase, Case};
use crate::lines::{put, put_bytes, put_text};
use crate::session::request;
use co_link::{Bytes, Dial, FailingCalls, Link, LinkFault, Reply, ScriptLink};

/// The line of a case, behind the name of its call.
pub fn line(case: Case) -> Result<String, BadCase> {
    let mut line = String::new(case.alloc);
    match case.call() {
        "plays" => put_played(&mut line, case)?,
        _ => return Err(BadCase::Unfit),
    }
    Ok(line)
}

/// What comes of the steps of a case, and how many exchanges the link then tells.
fn put_played(line: &mut String, case: Case) -> Result<(), BadCase> {
    let mut link = script(case)?;
    put_steps(line, case, &mut link)?;
    put(line, link.exchanges().len() as u128)?;
    Ok(())
}

/// A link with the replies of a case, and the calls that are to fail.
fn script(case: Case) -> Result<ScriptLink, BadCase> {
    let replies = replies(case)?;
    let calls = FailingCalls::new(case.words("fails")?);
    Ok(ScriptLink::new(case.alloc, replies, calls))
}

fn replies(case: Case) -> Result<Vec<Reply>, BadCase> {
    let mut all = Vec::new(case.alloc);
    for fields in case.list("replies")? {
        let reply = reply(Case::new(case.alloc, fields))?;
        let Ok(()) = all.push(reply) else {
            return Err(BadCase::OutOfMemory);
        };
    }
    Ok(all)
}

fn reply(case: Case) -> Result<Reply, BadCase> {
    let body = Bytes::from_vec(case.bytes("body")?);
    let status = case.text("status").parse().unwrap_or(0);
    Ok(Reply { status, body })
}

fn put_steps(line: &mut String, case: Case, link: &mut ScriptLink) -> Result<(), BadCase> {
    for fields in case.list("steps")? {
        put_step(line, Case::new(case.alloc, fields), link)?;
    }
    Ok(())
}

/// Dials, or asks.
fn put_step(line: &mut String, step: Case, link: &mut ScriptLink) -> Result<(), BadCase> {
    if step.text("target") == "dial" {
        put_dialled(line, link)
    } else {
        put_asked(line, step, link)
    }
}

fn put_dialled(line: &mut String, link: &mut ScriptLink) -> Result<(), BadCase> {
    match link.dial("localhost", 8080) {
        Ok(()) => put_text(line, "dialled")?,
        Err(LinkFault::OutOfMemory) => return Err(BadCase::OutOfMemory),
        Err(_) => put_text(line, "failed")?,
    }
    Ok(())
}

fn put_asked(line: &mut String, step: Case, link: &mut ScriptLink) -> Result<(), BadCase> {
    let request = request(step)?;
    match link.exchange(request, u64::MAX) {
        Ok(reply) => put_reply(line, step, &reply)?,
        Err(LinkFault::OutOfMemory) => return Err(BadCase::OutOfMemory),
        Err(_) => put_text(line, "failed")?,
    }
    Ok(())
}

fn put_reply(line: &mut String, step: Case, reply: &Reply) -> Result<(), BadCase> {
    put(line, reply.status as u128)?;
    Ok(put_bytes(step.alloc, line, reply.body.as_slice())?)
}
