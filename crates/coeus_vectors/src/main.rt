//! Gives the layers the cases that other programs worked out, and prints what comes of them.
//!
//! `data/LAYER.json` lists the cases of a layer. A case is an object of texts: the name of a
//! `call`, and what that call is given. For each the program prints a line: the layer, the number
//! of the case, the call, and what came of it. The file `stdout` has the lines that must come. They
//! were made from outside values, never from what this program printed.
//!
//! A further case is an object in a file of data/ and a line in `stdout`. A further layer is a file
//! of data/, a module with a function `line`, its name in `LAYERS` and an arm of `line_of`.
#![tactic(auto)]

mod bfv;
mod board;
mod bucket;
mod cases;
mod gates;
mod library;
mod lines;
mod link;
mod matvec;
mod noise;
mod pack;
mod pir;
mod ring;
mod rns;
mod rot;
mod search;
mod session;
mod slots;
mod streams;
mod switch;
mod text;
mod tfidf;
mod wire;

use anyhow::{Error, bail};
use cases::{BadCase, Case};
use serde_json::Value;
use std::fs;
use std::thread::Threads;

/// The layers, lowest first.
const LAYERS: [&str; 19] = [
    "ring", "rns", "slots", "noise", "bfv", "switch", "rot", "matvec", "pir", "board", "bucket",
    "link", "text", "tfidf", "pack", "library", "wire", "session", "search",
];

fn line_of<R: Threads + Sync>(rt: &R, layer: &str, case: Case) -> Result<String, BadCase> {
    match layer {
        "ring" => ring::line(case),
        "rns" => rns::line(case),
        "slots" => slots::line(case),
        "noise" => noise::line(case),
        "bfv" | "switch" => streams::line(layer, case),
        "rot" => rot::line(case),
        "matvec" => matvec::line(rt, case),
        "pir" => pir::line(rt, case),
        "board" => board::line(case),
        "bucket" => bucket::line(case),
        "link" => link::line(case),
        "text" => text::line(case),
        "tfidf" => tfidf::line(case),
        "pack" => pack::line(case),
        "library" => library::line(case),
        "wire" => wire::line(case),
        "session" => session::line(rt, case),
        "search" => search::line(rt, case),
        _ => Err(BadCase::Unfit),
    }
}

/// The cases of a layer.
fn read(rt: &HostRuntime, layer: &str) -> Result<Value, Error> {
    let path = format!(in rt.alloc(); "{layer}.json")?;
    let text = fs::read_to_string(rt, path.as_str())?;
    Ok(Value::from_str(rt.alloc(), text.as_str())?)
}

fn main(rt: HostRuntime) -> Result<(), Error> {
    for layer in LAYERS {
        let cases = read(&rt, layer)?;
        let Some(cases) = cases.as_array() else {
            bail!("no list of cases");
        };
        for (number, fields) in cases.iter().enumerate() {
            let case = Case::new(rt.alloc(), fields);
            let call = case.call();
            match line_of(&rt, layer, case) {
                Ok(line) => println!(rt; "{layer} {number} {call}{line}")?,
                Err(_) => println!(rt; "{layer} {number} {call}: no line")?,
            }
        }
    }
    Ok(())
}
