//! Public bytes of libraries, and faults of these and of their files. The files themselves stand in
//! the black-box cases.

use crate::cases::{BadCase, Case};
use crate::lines::{put, put_bytes, put_text};
use crate::tfidf::corpus;
use co_library::{Library, LibraryFault, Settings, publish};
use co_link::Bytes;
use co_wire::{WireFault, read_public, read_shape_fields, write_public};
use std::alloc::{AllocError, Global};

/// The line of a case, behind the name of its call.
pub fn line(case: Case) -> Result<String, BadCase> {
    let mut line = String::new(case.alloc);
    let library = library(case)?;
    match case.call() {
        "publish" => put_public(case.alloc, &mut line, &library)?,
        "file" => put_file_faults(case.alloc, &mut line, &library, case.text("changes"))?,
        "public" => put_public_faults(case.alloc, &mut line, &library, case.text("changes"))?,
        _ => return Err(BadCase::Unfit),
    }
    Ok(line)
}

fn settings(case: Case) -> Settings {
    Settings {
        degree: case.number("degree"),
        terms: case.number("terms"),
        hits: case.number("hits"),
        salt: case.number("salt"),
        chunks: case.number("chunks"),
    }
}

/// The library of a case.
pub fn library(case: Case) -> Result<Library, BadCase> {
    match publish(case.alloc, &corpus(case)?, &settings(case)) {
        Ok(library) => Ok(library),
        Err(_) => return Err(BadCase::Unfit),
    }
}

fn public_bytes(alloc: Global, library: &Library) -> Result<Bytes, AllocError> {
    let shape = library.shape();
    write_public(alloc, shape, library.terms())
}

/// The public bytes, how many of them are fields and terms, and whether what they are read as is
/// written again.
fn put_public(alloc: Global, line: &mut String, library: &Library) -> Result<(), BadCase> {
    let public = public_bytes(alloc, library)?;
    put_bytes(alloc, line, public.as_slice())?;
    put(line, behind_fields(alloc, public.as_slice())? as u128)?;
    if public_again(alloc, public.as_slice())?.as_slice() == public.as_slice() {
        put_text(line, "again")?;
    }
    Ok(())
}

/// The place behind the fields of the shape and the terms.
fn behind_fields(alloc: Global, public: &[u8]) -> Result<u64, BadCase> {
    if public.len() < 8 {
        return Err(BadCase::Unfit);
    }
    match read_shape_fields(alloc, public, 8) {
        Ok((_, _, behind)) => Ok(behind),
        Err(_) => return Err(BadCase::Unfit),
    }
}

/// What is written of the shape and the terms that public bytes are read as.
fn public_again(alloc: Global, public: &[u8]) -> Result<Bytes, BadCase> {
    match read_public(alloc, public) {
        Ok((shape, terms)) => Ok(write_public(alloc, &shape, &terms)?),
        Err(_) => return Err(BadCase::Unfit),
    }
}

/// The bytes with a change: a cut to some length, bytes at the end, or bytes put over an offset.
fn changed(alloc: Global, good: &[u8], change: &str) -> Result<Bytes, BadCase> {
    let Some((how, what)) = change.split_once('/') else {
        return Err(BadCase::Unfit);
    };
    if how == "cut" {
        let kept = what.parse::<usize>().unwrap_or(0);
        return Ok(Bytes::copy_of(alloc, good.get(..kept).unwrap_or(good))?);
    }
    let at = match how {
        "extend" => good.len(),
        offset => offset.parse::<usize>().unwrap_or(0),
    };
    let Ok(put) = hex::decode(alloc, what) else {
        return Err(BadCase::Unfit);
    };
    let mut bytes = Bytes::copy_of(alloc, good.get(..at).unwrap_or(good))?;
    bytes.append(&put)?;
    if let Some(rest) = good.get(at.saturating_add(put.len())..) {
        bytes.append(rest)?;
    }
    Ok(bytes)
}

fn put_place(line: &mut String, place: Option<u64>) -> Result<(), AllocError> {
    match place {
        Some(place) => put(line, place as u128),
        None => put_text(line, "-"),
    }
}

/// The place of the first fault of a library's file after each change.
fn put_file_faults(
    alloc: Global,
    line: &mut String,
    library: &Library,
    changes: &str,
) -> Result<(), BadCase> {
    let file = library.write(alloc)?;
    for change in changes.split_ascii_whitespace() {
        let bytes = changed(alloc, file.as_slice(), change)?;
        put_place(line, file_fault(alloc, bytes.as_slice())?)?;
    }
    Ok(())
}

fn file_fault(alloc: Global, bytes: &[u8]) -> Result<Option<u64>, BadCase> {
    match Library::read(alloc, bytes) {
        Ok(_) => Ok(None),
        Err(LibraryFault::BadLibrary { place }) => Ok(Some(place)),
        Err(LibraryFault::OutOfMemory) => Err(BadCase::OutOfMemory),
    }
}

/// The place of the first fault of its public bytes after each change.
fn put_public_faults(
    alloc: Global,
    line: &mut String,
    library: &Library,
    changes: &str,
) -> Result<(), BadCase> {
    let public = public_bytes(alloc, library)?;
    for change in changes.split_ascii_whitespace() {
        let bytes = changed(alloc, public.as_slice(), change)?;
        put_place(line, public_fault(alloc, bytes.as_slice())?)?;
    }
    Ok(())
}

fn public_fault(alloc: Global, bytes: &[u8]) -> Result<Option<u64>, BadCase> {
    match read_public(alloc, bytes) {
        Ok(_) => Ok(None),
        Err(WireFault::Public { place }) => Ok(Some(place)),
        Err(_) => Err(BadCase::OutOfMemory),
    }
}
