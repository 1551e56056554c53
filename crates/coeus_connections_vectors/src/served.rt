//! How a connection is served.

ghost use Rattle.std.specs.Prelude.{◌<◌};

use crate::rows::{failing, input_of};
use co_board::Gate;
use co_connections::serve_connection;
use co_link::{MemoryConnection, MemorySink, MemorySource};
use co_server::Loaded;
use co_serving::{Ended, Served};
use co_switch::Steps;
use serde_json::Value;
use sha2::{Digest, Sha256};
use std::alloc::{AllocError, Global};
use std::thread::Threads;

/// A connection with the input of a row, which comes in pieces of that size.
fn connection(alloc: Global, row: &Value, piece: usize) -> Result<MemoryConnection, AllocError>
    requires { 0 < piece }
{
    let input = input_of(alloc, row)?;
    let source = MemorySource::new(input, piece, failing(alloc, row, "take")?);
    let sink = MemorySink::new(alloc, 200_000, failing(alloc, row, "put")?)?;
    Ok(MemoryConnection::new(source, sink))
}

/// Puts the length and the digest of some bytes.
pub fn put_digest(alloc: Global, line: &mut String, bytes: &[u8]) -> Result<(), AllocError> {
    let digest = hex::encode(alloc, &Sha256::digest(bytes))?;
    write!(line, " {} {digest}", bytes.len())
}

/// Puts how many responses a connection had, and how it ended.
fn put_served(line: &mut String, served: Served) -> Result<(), AllocError> {
    write!(line, " {} ", served.requests)?;
    match served.ended {
        Ended::Closed => line.push_str("closed"),
        Ended::Refused { status } => write!(line, "refused {status}"),
        Ended::Cut => line.push_str("cut"),
        Ended::Spent => line.push_str("spent"),
        Ended::ReadFault => line.push_str("read fault"),
        Ended::WriteFault => line.push_str("write fault"),
        Ended::OutOfMemory => line.push_str("memory"),
    }
}

/// How the connection of a row is served in pieces of that size.
fn put_line<R: Threads + Sync, G: Gate>(
    rt: &R,
    alloc: Global,
    line: &mut String,
    loaded: &Loaded,
    gate: &G,
    row: &Value,
    piece: usize,
) -> Result<(), AllocError>
    requires { 0 < piece }
{
    let mut connection = connection(alloc, row, piece)?;
    let mut steps = Steps::begin();
    let served = serve_connection(rt, alloc, loaded, &mut connection, 2, gate, &mut steps);
    put_served(line, served)?;
    put_digest(alloc, line, connection.sink().as_slice())
}

/// A line for each row: how its connection is served in pieces of that size.
pub fn lines<R: Threads + Sync, G: Gate>(
    rt: &R,
    alloc: Global,
    loaded: &Loaded,
    gate: &G,
    rows: &[Value],
    name: &str,
    piece: usize,
) -> Result<String, AllocError>
    requires { 0 < piece }
{
    let mut lines = String::new(alloc);
    for (number, row) in rows.iter().enumerate() {
        write!(lines, "{name} {number}")?;
        put_line(rt, alloc, &mut lines, loaded, gate, row, piece)?;
        lines.push_str("\n")?;
    }
    Ok(lines)
}
