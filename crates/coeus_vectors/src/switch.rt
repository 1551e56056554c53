//! Keys, key sets, and key switches.

ghost use Rattle.std.specs.Prelude.{◌≡◌, length, IfOk};
ghost use Rattle.co_switch.specs.Keys.{keys_degree};

use crate::bfv::{drawn, encrypted, put_cipher};
use crate::cases::{BadCase, Case};
use crate::lines::{put, put_digest, put_pair, put_text};
use crate::noise::tested;
use crate::streams::Stand;
use co_bfv::{Cipher, Secret, sample_secret};
use co_math::{DIGIT_COUNT, FIRST_MODULUS, SECOND_MODULUS, log2_up};
use co_rns::Pair;
use co_switch::{
    GaloisKey, KeySet, Steps, apply, expansion_element, make_key, make_keys, rotation_element,
};
use co_wire::write_keys;
use rand_core::Rng;
use std::alloc::{AllocError, Global};

/// The line of a case, behind the name of its call.
pub fn line<R: Stand>(case: Case, rng: &mut R) -> Result<String, BadCase> {
    let mut line = String::new(case.alloc);
    put_call(&mut line, case, rng)?;
    put(&mut line, rng.stand() as u128)?;
    Ok(line)
}

fn put_call<R: Rng>(line: &mut String, case: Case, rng: &mut R) -> Result<(), BadCase> {
    match case.call() {
        "key" => put_key(line, case, rng),
        "switch" => put_switch(line, case, rng),
        "keys" | "elements" => put_keys(line, case, rng),
        "all_elements" => put_elements(line, case),
        _ => Err(BadCase::Unfit),
    }
}

/// The key of an element, for a secret.
fn key<R: Rng>(case: Case, secret: &Secret, rng: &mut R) -> Result<GaloisKey, BadCase> {
    let element = case.number("element");
    if element % 2 == 0 || element as usize / 2 >= secret.degree() {
        return Err(BadCase::Unfit);
    }
    Ok(make_key(case.alloc, secret, element, rng)?)
}

fn put_key<R: Rng>(line: &mut String, case: Case, rng: &mut R) -> Result<(), BadCase> {
    let secret = drawn(case, rng)?;
    let key = key(case, &secret, rng)?;
    put_pairs(case.alloc, line, &key)
}

/// The first pair of a key, and the digest of the others.
fn put_pairs(alloc: Global, line: &mut String, key: &GaloisKey) -> Result<(), BadCase> {
    put_pair(line, key.k0(0))?;
    put_pair(line, key.k1(0))?;
    let mut others = Vec::new(alloc);
    for index in 1..DIGIT_COUNT {
        spell_pair(&mut others, key.k0(index))?;
        spell_pair(&mut others, key.k1(index))?;
    }
    Ok(put_digest(alloc, line, &others)?)
}

/// Adds the bytes of a polynomial: of each coefficient the residues modulo q1 and q2, seven bytes
/// each, the low byte first.
fn spell_pair(bytes: &mut Vec<u8>, pair: &Pair) -> Result<(), AllocError> {
    for k in 0..pair.degree() {
        let coefficient = pair.compose(k);
        let first = (coefficient % FIRST_MODULUS as u128) as u64;
        let second = (coefficient % SECOND_MODULUS as u128) as u64;
        bytes.extend_from_slice(&first.to_le_bytes()[..7])?;
        bytes.extend_from_slice(&second.to_le_bytes()[..7])?;
    }
    Ok(())
}

/// The switch of an encryption, and what it opens to.
fn put_switch<R: Rng>(line: &mut String, case: Case, rng: &mut R) -> Result<(), BadCase> {
    let secret = drawn(case, rng)?;
    let switched = switched(case, &secret, rng)?;
    put_cipher(case.alloc, line, &secret, &switched)
}

fn switched<R: Rng>(case: Case, secret: &Secret, rng: &mut R) -> Result<Cipher, BadCase> {
    let cipher = encrypted(case, "message", secret, rng)?;
    let key = key(case, secret, rng)?;
    applied(case.alloc, &cipher, &key)
}

fn applied(alloc: Global, cipher: &Cipher, key: &GaloisKey) -> Result<Cipher, BadCase> {
    if cipher.degree() != key.degree() {
        return Err(BadCase::Unfit);
    }
    Ok(apply(alloc, cipher, key, &mut Steps::begin())?)
}

/// The elements of the rotation keys of a degree, and of all expansion keys that it may have.
fn put_elements(line: &mut String, case: Case) -> Result<(), BadCase> {
    let degree = case.degree()?.get();
    let last = log2_up(degree / 2);
    put_text(line, "rotations")?;
    for b in 0..last {
        put(line, rotation_element(degree, b) as u128)?;
    }
    put_text(line, "expansions")?;
    for j in 0..last + 1 {
        put(line, expansion_element(degree, j) as u128)?;
    }
    Ok(())
}

/// A secret, and keys for it and the shape of a case.
pub fn keyed<R: Rng>(case: Case, rng: &mut R) -> Result<(Secret, KeySet), BadCase>
    ensures { IfOk result (λ p. keys_degree p.1 ≡ length p.0) }
{
    let secret = sample_secret(case.alloc, case.degree()?, rng)?;
    let keys = keys(case, &secret, rng)?;
    Ok((secret, keys))
}

fn keys<R: Rng>(case: Case, secret: &Secret, rng: &mut R) -> Result<KeySet, BadCase>
    ensures { IfOk result (λ keys. keys_degree keys ≡ length secret.now) }
{
    let tested = tested(case)?;
    if secret.degree() != tested.shape().degree() as usize {
        return Err(BadCase::Unfit);
    }
    Ok(make_keys(case.alloc, &tested, secret, rng)?)
}

fn put_keys<R: Rng>(line: &mut String, case: Case, rng: &mut R) -> Result<(), BadCase> {
    let (_, keys) = keyed(case, rng)?;
    put_key_set(case.alloc, line, case.call() == "keys", &keys)
}

/// The elements of a set of keys, and the digest of its bytes where it is known.
fn put_key_set(
    alloc: Global,
    line: &mut String,
    whole: bool,
    keys: &KeySet,
) -> Result<(), BadCase> {
    put_elements_of(line, "rotations", keys.rotations())?;
    put_elements_of(line, "expansions", keys.expansions())?;
    if whole {
        put_digest(alloc, line, write_keys(alloc, keys)?.as_slice())?;
    }
    Ok(())
}

fn put_elements_of(line: &mut String, name: &str, keys: &[GaloisKey]) -> Result<(), AllocError> {
    put_text(line, name)?;
    for key in keys {
        put(line, key.element() as u128)?;
    }
    Ok(())
}
