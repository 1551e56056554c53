//! What a request is put as, and what a reply is read as.

ghost use Rattle.std.specs.Prelude.{◌<◌};

use crate::rows::{number_or, put_bytes, text};
use crate::served::put_digest;
use co_http::{Conn, HttpLink};
use co_link::{
    Bytes, FailingCalls, Link, LinkFault, MemoryConnection, MemorySink, MemorySource, Reply,
    Request, Target,
};
use serde_json::Value;
use std::alloc::{AllocError, Global};

/// A link to a host over a connection with that input, of which each take gives at most a piece.
fn link_over(
    alloc: Global,
    host: &str,
    input: Vec<u8>,
    piece: usize,
) -> Result<HttpLink<MemoryConnection>, AllocError>
    requires { 0 < piece }
{
    let sink = MemorySink::new(alloc, 1_000_000, FailingCalls::none(alloc))?;
    let source = MemorySource::new(input, piece, FailingCalls::none(alloc));
    let line = MemoryConnection::new(source, sink);
    let conn = Conn::new(alloc)?;
    let host = Bytes::copy_of(alloc, host.as_bytes())?;
    Ok(HttpLink::new(alloc, conn, line, host))
}

fn target_of(name: &str) -> Target {
    match name {
        "keys" => Target::Keys,
        "score" => Target::Score,
        "meta" => Target::Meta,
        "document" => Target::Document,
        _ => Target::Public,
    }
}

/// A request of zeros.
fn request(alloc: Global, row: &Value) -> Result<Request, AllocError> {
    let body = vec![in alloc; 0; number_or(row, "length", 0) as usize]?;
    Ok(Request {
        target: target_of(text(row, "target")),
        body: Bytes::from_vec(body),
    })
}

/// What the request of a row is put as. No reply comes.
pub fn request_line(alloc: Global, row: &Value) -> Result<String, AllocError> {
    let mut link = link_over(alloc, text(row, "host"), Vec::new(alloc), usize::MAX)?;
    let _ = link.exchange(request(alloc, row)?, 256);
    let mut line = String::new(alloc);
    put_digest(alloc, &mut line, link.line().sink().as_slice())?;
    Ok(line)
}

fn put_reply(
    alloc: Global,
    line: &mut String,
    outcome: Result<Reply, LinkFault>,
) -> Result<(), AllocError> {
    match outcome {
        Ok(reply) => {
            write!(line, " {}", reply.status)?;
            put_digest(alloc, line, reply.body.as_slice())
        }
        Err(LinkFault::Failed) => line.push_str(" bad"),
        Err(LinkFault::OutOfMemory) => line.push_str(" memory"),
    }
}

/// What the reply of a row is read as, where each take gives at most a piece of it.
pub fn reply_line(alloc: Global, row: &Value, piece: usize) -> Result<String, AllocError>
    requires { 0 < piece }
{
    let mut input = Vec::new(alloc);
    put_bytes(&mut input, text(row, "reply"))?;
    let mut link = link_over(alloc, "localhost", input, piece)?;
    let outcome = link.exchange(request(alloc, row)?, number_or(row, "limit", 0));
    let mut line = String::new(alloc);
    put_reply(alloc, &mut line, outcome)?;
    Ok(line)
}
