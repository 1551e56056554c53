//! Polynomials modulo t as slots, and as bytes.

use crate::cases::{BadCase, Case, degree_of};
use crate::lines::{put, put_bytes, put_poly, put_text, put_words};
use co_ring::Modulus;
use co_slots::{ByteFault, decode_bytes, decode_slots, encode_bytes, encode_slots};

/// The line of a case, behind the name of its call.
pub fn line(case: Case) -> Result<String, BadCase> {
    let mut line = String::new(case.alloc);
    match case.call() {
        "encode" => put_encoded(&mut line, case)?,
        "decode" => put_decoded(&mut line, case)?,
        "encode_bytes" => put_payload(&mut line, case)?,
        "decode_bytes" => put_payload_bytes(&mut line, case)?,
        _ => return Err(BadCase::Unfit),
    }
    Ok(line)
}

fn put_encoded(line: &mut String, case: Case) -> Result<(), BadCase> {
    let slots = case.residues(Modulus::Plain, "slots")?;
    let poly = encode_slots(case.alloc, degree_of(slots.len())?, &slots)?;
    Ok(put_poly(line, &poly)?)
}

fn put_decoded(line: &mut String, case: Case) -> Result<(), BadCase> {
    let poly = case.poly(Modulus::Plain, "poly")?;
    let slots = decode_slots(case.alloc, &poly)?;
    Ok(put_words(line, &slots)?)
}

fn put_payload(line: &mut String, case: Case) -> Result<(), BadCase> {
    let bytes = case.bytes("bytes")?;
    let degree = degree_of(bytes.len() / 2)?;
    if bytes.len() % 2 == 1 {
        return Err(BadCase::Unfit);
    }
    let poly = encode_bytes(case.alloc, degree, &bytes)?;
    Ok(put_poly(line, &poly)?)
}

/// The bytes, or the first place that spells none.
fn put_payload_bytes(line: &mut String, case: Case) -> Result<(), BadCase> {
    let poly = case.poly(Modulus::Plain, "poly")?;
    match decode_bytes(case.alloc, &poly) {
        Ok(bytes) => Ok(put_bytes(case.alloc, line, bytes.as_slice())?),
        Err(fault) => put_fault(line, fault),
    }
}

/// The fault of a polynomial that is no bytes.
pub fn put_fault(line: &mut String, fault: ByteFault) -> Result<(), BadCase> {
    let ByteFault::NotByte { place } = fault else {
        return Err(BadCase::OutOfMemory);
    };
    put_text(line, "not byte")?;
    put(line, place as u128)?;
    Ok(())
}
