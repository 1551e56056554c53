//! Serves the connections and makes the exchanges that other programs worked out, and prints what
//! comes of them.
//!
//! `data/http.json` has a corpus, and three lists over its library. `connections`: an input; each
//! is served whole and one byte at each take, and a line says how many responses it had, how it
//! ended, and the length and the digest of what was put. `requests`: a host, a target and the length of a
//! body; a line says the length and the digest of what is put. `replies`: what a server puts; it is
//! taken whole and one byte at each take, and a line says what it is read as. The file `stdout` has
//! the lines that must come. They were made from outside values, never from what this program
//! printed.
#![tactic(auto)]

ghost use Rattle.std.specs.Prelude.{◌<◌};

mod exchanged;
mod library;
mod rows;
mod served;

use anyhow::Error;
use co_board::OpenGate;
use exchanged::{reply_line, request_line};
use library::loaded;
use rows::list;
use serde_json::Value;
use served::lines;
use std::fs;

/// Prints what each request is put as, and what each reply is read as.
fn print_exchanges(rt: &HostRuntime, rows: &Value) -> Result<(), Error> {
    for (number, row) in list(rows, "requests").iter().enumerate() {
        let line = request_line(rt.alloc(), row)?;
        println!(rt; "request {number}{line}")?;
    }
    print_replies(rt, rows, "reply", usize::MAX)?;
    print_replies(rt, rows, "reply_bytes", 1)
}

/// Prints what each reply is read as, where each take gives at most a piece of it.
fn print_replies(rt: &HostRuntime, rows: &Value, name: &str, piece: usize) -> Result<(), Error>
    requires { 0 < piece }
{
    for (number, row) in list(rows, "replies").iter().enumerate() {
        let line = reply_line(rt.alloc(), row, piece)?;
        println!(rt; "{name} {number}{line}")?;
    }
    Ok(())
}

fn main(rt: HostRuntime) -> Result<(), Error> {
    let alloc = rt.alloc();
    let text = fs::read_to_string(&rt, "http.json")?;
    let rows = Value::from_str(alloc, text.as_str())?;
    let loaded = loaded(alloc, &rows)?;
    let connections = list(&rows, "connections");
    let whole = lines(
        &rt,
        alloc,
        &loaded,
        &OpenGate,
        connections,
        "whole",
        usize::MAX,
    )?;
    print!(rt; "{whole}")?;
    let bytes = lines(&rt, alloc, &loaded, &OpenGate, connections, "bytes", 1)?;
    print!(rt; "{bytes}")?;
    print_exchanges(&rt, &rows)
}
