//! Requests and replies as bytes: how long they are, and ciphertexts both ways.

use crate::bfv::given;
use crate::cases::{BadCase, Case};
use crate::lines::{put, put_bytes, put_text};
use crate::noise::tested;
use co_link::{Bytes, Target};
use co_noise::Tested;
use co_wire::{
    WireFault, read_ciphers, record_chunks, reply_length, request_length, write_ciphers,
};
use std::alloc::AllocError;

/// The line of a case, behind the name of its call.
pub fn line(case: Case) -> Result<String, BadCase> {
    let mut line = String::new(case.alloc);
    match case.call() {
        "lengths" => put_lengths(&mut line, &tested(case)?)?,
        "write" => put_written(&mut line, case)?,
        "read" => put_reading(&mut line, case)?,
        _ => return Err(BadCase::Unfit),
    }
    Ok(line)
}

/// The pieces of a record, then the lengths of the requests of each target, and of the replies.
pub fn put_lengths(line: &mut String, tested: &Tested) -> Result<(), AllocError> {
    put(line, record_chunks(tested.shape().degree()) as u128)?;
    put(line, request_length(tested, Target::Public) as u128)?;
    put(line, request_length(tested, Target::Keys) as u128)?;
    put(line, request_length(tested, Target::Score) as u128)?;
    put(line, request_length(tested, Target::Meta) as u128)?;
    put(line, request_length(tested, Target::Document) as u128)?;
    put(line, reply_length(tested, Target::Keys) as u128)?;
    put(line, reply_length(tested, Target::Score) as u128)?;
    put(line, reply_length(tested, Target::Meta) as u128)?;
    put(line, reply_length(tested, Target::Document) as u128)?;
    Ok(())
}

/// The bytes of the ciphertext whose parts a case lists, and whether they are read and written
/// again.
fn put_written(line: &mut String, case: Case) -> Result<(), BadCase> {
    let cipher = given(case)?;
    let bytes = write_ciphers(case.alloc, &[cipher])?;
    put_bytes(case.alloc, line, bytes.as_slice())?;
    if written_again(case, bytes.as_slice())?.as_slice() == bytes.as_slice() {
        put_text(line, "again")?;
    }
    Ok(())
}

/// What is written of the ciphertext that bytes are read as.
fn written_again(case: Case, bytes: &[u8]) -> Result<Bytes, BadCase> {
    match read_ciphers(case.alloc, case.degree()?, 1, bytes) {
        Ok(ciphers) => Ok(write_ciphers(case.alloc, &ciphers)?),
        Err(_) => return Err(BadCase::Unfit),
    }
}

/// Whether bytes are so many ciphertexts, or why they are not.
fn put_reading(line: &mut String, case: Case) -> Result<(), BadCase> {
    let bytes = put_in(case)?;
    match read_ciphers(case.alloc, case.degree()?, case.number("count"), &bytes) {
        Ok(_) => Ok(put_text(line, "good")?),
        Err(fault) => put_fault(line, fault),
    }
}

fn put_fault(line: &mut String, fault: WireFault) -> Result<(), BadCase> {
    match fault {
        WireFault::Length { wanted, found } => write!(line, " length {wanted} {found}")?,
        WireFault::Range { place } => write!(line, " range {place}")?,
        _ => return Err(BadCase::OutOfMemory),
    }
    Ok(())
}

/// Zeros, of the length that a case says, with the bytes put in that it lists: each as a place, a
/// stroke and the bytes in hexadecimal.
pub fn put_in(case: Case) -> Result<Vec<u8>, BadCase> {
    let mut bytes = vec![in case.alloc; 0; case.number("length") as usize]?;
    for change in case.text("put").split_ascii_whitespace() {
        let Some((at, what)) = change.split_once('/') else {
            return Err(BadCase::Unfit);
        };
        let Ok(what) = hex::decode(case.alloc, what) else {
            return Err(BadCase::Unfit);
        };
        overwrite(&mut bytes, at.parse().unwrap_or(0), &what);
    }
    Ok(bytes)
}

fn overwrite(bytes: &mut [u8], at: usize, what: &[u8]) {
    for (place, byte) in bytes.iter_mut().skip(at).zip(what.iter()) {
        *place = *byte;
    }
}
