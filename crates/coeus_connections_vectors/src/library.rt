//! The library that the connections ask.

ghost use Rattle.std.specs.Prelude.{◌≡◌, IfOk};

use crate::rows::{number_or, text};
use anyhow::{Error, bail};
use co_corpus::{Corpus, read_corpus};
use co_library::{Library, Settings, publish};
use co_noise::{Shape, Tested, test};
use co_server::Loaded;
use serde_json::Value;
use std::alloc::{AllocError, Global};

fn corpus(alloc: Global, rows: &Value) -> Result<Corpus, Error> {
    match read_corpus(alloc, text(rows, "corpus").as_bytes()) {
        Ok(corpus) => Ok(corpus),
        Err(_) => bail!("no corpus"),
    }
}

fn library(alloc: Global, corpus: &Corpus, degree: u64) -> Result<Library, Error> {
    let settings = Settings {
        degree: u32::try_from(degree).unwrap_or(0),
        terms: 16_384,
        hits: 16,
        salt: 0,
        chunks: 1,
    };
    match publish(alloc, corpus, &settings) {
        Ok(library) => Ok(library),
        Err(_) => bail!("no library"),
    }
}

fn tested(shape: &Shape) -> Result<Tested, Error>
    ensures { IfOk result (λ t. t ≡ shape.now) }
{
    match test(shape) {
        Ok(tested) => Ok(tested),
        Err(_) => bail!("the test refused the library"),
    }
}

/// The library of the corpus that the file has, made ready for replies.
pub fn loaded(alloc: Global, rows: &Value) -> Result<Loaded, Error> {
    let corpus = corpus(alloc, rows)?;
    let library = library(alloc, &corpus, number_or(rows, "degree", 0))?;
    let tested = tested(library.shape())?;
    Ok(Loaded::new(alloc, library, tested)?)
}
