//! What came of a call, as a line of text: each number or word behind a space.

use co_bfv::Cipher;
use co_ring::Poly;
use co_rns::Pair;
use co_wire::write_ciphers;
use sha2::{Digest, Sha256};
use std::alloc::{AllocError, Global};

/// A number.
pub fn put(line: &mut String, number: u128) -> Result<(), AllocError> {
    write!(line, " {number}")
}

/// A word.
pub fn put_text(line: &mut String, text: &str) -> Result<(), AllocError> {
    write!(line, " {text}")
}

/// Numbers, in order.
pub fn put_numbers(line: &mut String, numbers: &[u32]) -> Result<(), AllocError> {
    for number in numbers {
        put(line, *number as u128)?;
    }
    Ok(())
}

/// Numbers of 64 bits, in order.
pub fn put_words(line: &mut String, words: &[u64]) -> Result<(), AllocError> {
    for word in words {
        put(line, *word as u128)?;
    }
    Ok(())
}

/// The coefficients of a polynomial, the constant first.
pub fn put_poly(line: &mut String, poly: &Poly) -> Result<(), AllocError> {
    for k in 0..poly.degree() {
        put(line, poly.coeff(k) as u128)?;
    }
    Ok(())
}

/// The coefficients of a polynomial modulo q, the constant first.
pub fn put_pair(line: &mut String, pair: &Pair) -> Result<(), AllocError> {
    for k in 0..pair.degree() {
        put(line, pair.compose(k))?;
    }
    Ok(())
}

/// The bytes in hexadecimal.
pub fn put_bytes(alloc: Global, line: &mut String, bytes: &[u8]) -> Result<(), AllocError> {
    let text = hex::encode(alloc, bytes)?;
    put_text(line, text.as_str())
}

/// The digest of some bytes.
pub fn put_digest(alloc: Global, line: &mut String, bytes: &[u8]) -> Result<(), AllocError> {
    put_bytes(alloc, line, &Sha256::digest(bytes))
}

/// The digest of the bytes of ciphertexts, in order.
pub fn put_ciphers(alloc: Global, line: &mut String, ciphers: &[Cipher]) -> Result<(), AllocError> {
    let bytes = write_ciphers(alloc, ciphers)?;
    put_digest(alloc, line, bytes.as_slice())
}

/// The digest of each ciphertext.
pub fn put_each(alloc: Global, line: &mut String, ciphers: &[Cipher]) -> Result<(), AllocError> {
    for one in ciphers.chunks(1) {
        put_ciphers(alloc, line, one)?;
    }
    Ok(())
}
