//! Ciphertexts as bytes.

ghost use Rattle.std.specs.Prelude.{◌≡◌, ◌+◌, ◌*◌, ◌%◌, ◌<◌, ◌≤◌, ◌++◌, length, IfOk, IfErr, OnOk};
ghost use Rattle.co_rns.specs.Pairs.{IsWhole};
ghost use Rattle.co_bfv.specs.Ciphertexts.{IsCiphertext, ciphertext_degree};
ghost use Rattle.co_wire.specs.BadBodies.{IsBadBody};
ghost use Rattle.co_wire.specs.Lengths.{cipher_size};
ghost use Rattle.co_wire.specs.Bodies as bodies;
ghost use Rattle.co_wire.specs.Bodies.{residue_bytes, polynomial_bytes, cipher_bytes, ciphers_bytes, SpellsCiphers};
ghost use Rattle.co_wire.specs.Parts.{AreInRangeTo, ReadsTo, IsRangeFault};

use crate::fault::WireFault;
use co_bfv::Cipher;
use co_link::Bytes;
use co_math::{FIRST_MODULUS, SECOND_MODULUS};
use co_ring::{Degree, Modulus, Poly};
use co_rns::Pair;
use std::alloc::{AllocError, Global};

/// The bytes of a residue.
const RESIDUE_BYTES: usize = 7;

/// The bytes of a coefficient of a ciphertext's two polynomials: four residues.
pub const CIPHER_BYTES: usize = 28;

// ---- writing

/// Adds a residue at the end.
#[tactic(auto, unfolding(crate::specs::Bodies::residue_bytes))]
fn put_residue(out: &mut Vec<u8>, residue: u64) -> Result<(), AllocError>
    ensures { OnOk result (out.new.items ≡ out.old.items ++ residue_bytes residue) }
{
    out.extend_from_slice(&residue.to_le_bytes()[..RESIDUE_BYTES])
}

/// Adds a polynomial at the end.
#[tactic(auto, unfolding(crate::specs::Bodies::polynomial_bytes))]
pub(crate) fn put_polynomial(out: &mut Vec<u8>, pair: &Pair) -> Result<(), AllocError>
    ensures { OnOk result (out.new.items ≡ out.old.items ++ polynomial_bytes pair.now) }
{
    let first = pair.first();
    let second = pair.second();
    for k in 0..pair.degree() {
        put_residue(out, first.coeff(k))?;
        put_residue(out, second.coeff(k))?;
    }
    Ok(())
}

/// Adds a ciphertext at the end.
fn put_cipher(out: &mut Vec<u8>, cipher: &Cipher) -> Result<(), AllocError>
    ensures { OnOk result (out.new.items ≡ out.old.items ++ cipher_bytes cipher.now) }
{
    put_polynomial(out, cipher.c0())?;
    put_polynomial(out, cipher.c1())?;
    Ok(())
}

/// The bytes of all these ciphertexts, which have one degree.
fn room(ciphers: &[Cipher]) -> usize {
    match ciphers.first() {
        Some(cipher) => ciphers
            .len()
            .wrapping_mul(cipher.c0().degree())
            .wrapping_mul(CIPHER_BYTES),
        None => 0,
    }
}

/// The bytes of ciphertexts, one after another.
pub fn write_ciphers(alloc: Global, ciphers: &[Cipher]) -> Result<Bytes, AllocError>
    ensures { IfOk result (λ bytes. bytes ≡ ciphers_bytes ciphers.now) }
{
    let mut out = Vec::with_capacity(alloc, room(ciphers))?;
    for cipher in ciphers {
        put_cipher(&mut out, cipher)?;
    }
    Ok(Bytes::from_vec(out))
}

// ---- reading: by the number of residues before, from the front on

/// The residue at a place of a body.
#[tactic(auto, unfolding(crate::specs::Bodies::residue_at))]
fn residue_at(body: &[u8], i: usize) -> u64
    requires { RESIDUE_BYTES * i + RESIDUE_BYTES ≤ length body.now }
    ensures { result ≡ bodies.residue_at body.now i }
{
    let start = RESIDUE_BYTES * i;
    let mut bytes = [0; 8];
    bytes[..RESIDUE_BYTES].copy_from_slice(&body[start..start + RESIDUE_BYTES]);
    u64::from_le_bytes(bytes)
}

/// The residue at a place, where it is below its modulus; those before it are.
fn read_residue(body: &[u8], i: usize, modulus: u64) -> Result<u64, WireFault>
    requires room { RESIDUE_BYTES * i + RESIDUE_BYTES ≤ length body.now }
    requires modulus { modulus ≡ bodies.modulus_at i }
    requires before { AreInRangeTo body.now i }
    ensures value { IfOk result (λ r. r ≡ bodies.residue_at body.now i) }
    ensures below { IfOk result (λ r. r < modulus) }
    ensures in_range { OnOk result (AreInRangeTo body.now (i + 1)) }
    ensures fault { IfErr result (IsRangeFault body.now) }
{
    let residue = residue_at(body, i);
    if residue >= modulus {
        return Err(WireFault::Range {
            place: (RESIDUE_BYTES * i) as u64,
        });
    }
    Ok(residue)
}

/// The polynomial that stands behind so many residues, two residues a coefficient.
pub(crate) fn read_polynomial(
    alloc: Global,
    degree: Degree,
    body: &[u8],
    from: usize,
) -> Result<Pair, WireFault>
    requires room { RESIDUE_BYTES * (from + 2 * degree) ≤ length body.now }
    requires even { from % 2 ≡ 0 }
    requires before { AreInRangeTo body.now from }
    ensures read { ReadsTo polynomial_bytes from (from + 2 * degree) body.now result }
    ensures degree { IfOk result (λ p. length p ≡ degree) }
    ensures reduced { IfOk result IsWhole }
{
    let mut first = Poly::zero(alloc, Modulus::First, degree)?;
    let mut second = Poly::zero(alloc, Modulus::Second, degree)?;
    for k in 0..degree.get() as usize {
        let at = from + 2 * k;
        let residue = read_residue(body, at, FIRST_MODULUS)?;
        first.set(k, residue);
        let residue = read_residue(body, at + 1, SECOND_MODULUS)?;
        second.set(k, residue);
    }
    Ok(Pair::from_parts(first, second))
}

/// The ciphertext that stands behind so many residues: c0, then c1.
fn read_cipher(alloc: Global, degree: Degree, body: &[u8], from: usize) -> Result<Cipher, WireFault>
    requires room { RESIDUE_BYTES * (from + 4 * degree) ≤ length body.now }
    requires even { from % 2 ≡ 0 }
    requires before { AreInRangeTo body.now from }
    ensures read { ReadsTo cipher_bytes from (from + 4 * degree) body.now result }
    ensures degree { IfOk result (λ c. ciphertext_degree c ≡ degree) }
    ensures cipher { IfOk result IsCiphertext }
{
    let c0 = read_polynomial(alloc, degree, body, from)?;
    let c1 = read_polynomial(alloc, degree, body, from + 2 * degree.get() as usize)?;
    let cipher = Cipher::from_parts(c0, c1);
    let _ = cipher.degree();
    Ok(cipher)
}

/// So many ciphertexts, one after another.
fn read_each(
    alloc: Global,
    degree: Degree,
    count: usize,
    body: &[u8],
) -> Result<Vec<Cipher>, WireFault>
    requires { length body.now ≡ count * (28 * degree) }
    ensures spelled { IfOk result (λ cs. SpellsCiphers degree count cs.items body.now) }
    ensures fault { IfErr result (IsRangeFault body.now) }
{
    let step = 4 * degree.get() as usize;
    let mut ciphers = Vec::with_capacity(alloc, count)?;
    let mut at = 0;
    for i in 0..count {
        let _ = i;
        let cipher = read_cipher(alloc, degree, body, at)?;
        let Ok(()) = ciphers.push(cipher) else {
            return Err(WireFault::OutOfMemory);
        };
        at += step;
    }
    Ok(ciphers)
}

/// A body has so many bytes.
pub(crate) fn check_length(body: &[u8], wanted: u64) -> Result<(), WireFault>
    ensures good { OnOk result (length body.now ≡ wanted) }
    ensures fault { IfErr result (IsBadBody wanted body.now) }
{
    let found = body.len() as u64;
    if found != wanted {
        return Err(WireFault::Length { wanted, found });
    }
    Ok(())
}

/// So many ciphertexts of a degree.
///
/// The faults are, in this order, `Length` exactly where the body has not 28 bytes for each
/// coefficient, and `Range` exactly at the first residue that is at or above its modulus.
pub fn read_ciphers(
    alloc: Global,
    degree: Degree,
    count: u32,
    bytes: &[u8],
) -> Result<Vec<Cipher>, WireFault>
    ensures spelled { IfOk result (λ cs. SpellsCiphers degree count cs.items bytes.now) }
    ensures fault { IfErr result (IsBadBody (count * cipher_size degree) bytes.now) }
{
    check_length(bytes, count as u64 * (28 * degree.get() as u64))?;
    read_each(alloc, degree, count as usize, bytes)
}
