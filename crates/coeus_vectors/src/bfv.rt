//! Draws, encryption, decryption, and sums of ciphertexts.

ghost use Rattle.std.specs.Prelude.{◌≡◌, length, All, IfOk, IsTrue};
ghost use Rattle.co_bfv.specs.Ciphertexts.{ciphertext_degree};

use crate::cases::{BadCase, Case, degree_of};
use crate::lines::{put, put_ciphers, put_each, put_pair, put_poly, put_words};
use crate::streams::{Stand, skip};
use co_bfv::{Cipher, Secret, decrypt, encrypt, sample_error, sample_secret, sample_uniform};
use co_ring::{Modulus, Poly};
use co_slots::{decode_slots, encode_slots};
use rand_core::Rng;
use std::alloc::{AllocError, Global};

/// The line of a case, behind the name of its call.
pub fn line<R: Stand>(case: Case, rng: &mut R) -> Result<String, BadCase> {
    let mut line = String::new(case.alloc);
    let secret = drawn(case, rng)?;
    put_call(&mut line, case, &secret, rng)?;
    put(&mut line, rng.stand() as u128)?;
    Ok(line)
}

fn put_call<R: Rng>(
    line: &mut String,
    case: Case,
    secret: &Secret,
    rng: &mut R,
) -> Result<(), BadCase> {
    match case.call() {
        "secret" => put_secret(case.alloc, line, secret),
        "uniform" => put_uniform(line, case, rng),
        "error" => put_error(line, case, rng),
        "decrypt" => put_decryption(line, case, secret),
        "encrypt" => put_encryption(line, case, secret, rng),
        "times" => put_multiple(line, case, secret, rng),
        "sum" | "difference" | "product" => put_combined(line, case, secret, rng),
        _ => Err(BadCase::Unfit),
    }
}

fn put_secret(alloc: Global, line: &mut String, secret: &Secret) -> Result<(), BadCase> {
    let residues = secret.residues(alloc)?;
    Ok(put_pair(line, &residues)?)
}

fn put_uniform<R: Rng>(line: &mut String, case: Case, rng: &mut R) -> Result<(), BadCase> {
    let drawn = sample_uniform(case.alloc, case.degree()?, rng)?;
    Ok(put_pair(line, &drawn)?)
}

fn put_error<R: Rng>(line: &mut String, case: Case, rng: &mut R) -> Result<(), BadCase> {
    let drawn = sample_error(case.alloc, case.degree()?, rng)?;
    Ok(put_pair(line, &drawn)?)
}

/// A secret, behind which some words are passed over.
pub fn drawn<R: Rng>(case: Case, rng: &mut R) -> Result<Secret, BadCase> {
    let secret = sample_secret(case.alloc, case.degree()?, rng)?;
    skip(rng, case.number("skip"));
    Ok(secret)
}

/// The encryption of the message of a field.
pub fn encrypted<R: Rng>(
    case: Case,
    name: &str,
    secret: &Secret,
    rng: &mut R,
) -> Result<Cipher, BadCase>
    ensures { IfOk result (λ c. ciphertext_degree c ≡ length secret.now) }
{
    let message = case.poly(Modulus::Plain, name)?;
    encryption(case.alloc, &message, secret, rng)
}

/// The encryption of a message of the secret's degree.
pub fn encryption<R: Rng>(
    alloc: Global,
    message: &Poly,
    secret: &Secret,
    rng: &mut R,
) -> Result<Cipher, BadCase>
    requires { message.now.modulus ≡ Modulus.Plain }
    ensures { IfOk result (λ c. ciphertext_degree c ≡ length secret.now) }
{
    if message.degree() != secret.degree() {
        return Err(BadCase::Unfit);
    }
    Ok(encrypt(alloc, secret, message, rng)?)
}

/// The message whose slots a field lists.
pub fn slots_message(case: Case, name: &str) -> Result<Poly, BadCase>
    ensures { IfOk result (λ p. p.modulus ≡ Modulus.Plain) }
{
    let slots = case.residues(Modulus::Plain, name)?;
    Ok(encode_slots(case.alloc, degree_of(slots.len())?, &slots)?)
}

/// Whether all ciphertexts have so many coefficients.
pub fn have_degree(ciphers: &[Cipher], degree: usize) -> bool
    ensures { IsTrue result → All (λ c. ciphertext_degree c ≡ degree) ciphers.now }
{
    ciphers.iter().all(|cipher| cipher.degree() == degree)
}

fn opened(alloc: Global, secret: &Secret, cipher: &Cipher) -> Result<Poly, BadCase>
    ensures { IfOk result (λ p. p.modulus ≡ Modulus.Plain) }
{
    if cipher.degree() != secret.degree() {
        return Err(BadCase::Unfit);
    }
    Ok(decrypt(alloc, secret, cipher)?)
}

/// The coefficients that a ciphertext opens to.
fn put_opened(
    alloc: Global,
    line: &mut String,
    secret: &Secret,
    cipher: &Cipher,
) -> Result<(), BadCase> {
    put_poly(line, &opened(alloc, secret, cipher)?)?;
    Ok(())
}

/// What of a message is put: its coefficients, or its slots.
#[derive(Clone, Copy)]
pub enum Shown {
    Coefficients,
    Slots,
}

fn put_message(
    alloc: Global,
    line: &mut String,
    message: &Poly,
    shown: Shown,
) -> Result<(), AllocError>
    requires { message.now.modulus ≡ Modulus.Plain }
{
    match shown {
        Shown::Coefficients => put_poly(line, message),
        Shown::Slots => put_words(line, &decode_slots(alloc, message)?),
    }
}

/// What each ciphertext opens to, and then their digests.
pub fn put_each_opened(
    alloc: Global,
    line: &mut String,
    secret: &Secret,
    ciphers: &[Cipher],
    shown: Shown,
) -> Result<(), BadCase> {
    put_all_opened(alloc, line, secret, ciphers, shown)?;
    Ok(put_each(alloc, line, ciphers)?)
}

/// What each ciphertext opens to.
pub fn put_all_opened(
    alloc: Global,
    line: &mut String,
    secret: &Secret,
    ciphers: &[Cipher],
    shown: Shown,
) -> Result<(), BadCase> {
    for cipher in ciphers {
        let message = opened(alloc, secret, cipher)?;
        put_message(alloc, line, &message, shown)?;
    }
    Ok(())
}

/// A ciphertext, and what it opens to.
pub fn put_cipher(
    alloc: Global,
    line: &mut String,
    secret: &Secret,
    cipher: &Cipher,
) -> Result<(), BadCase> {
    put_pair(line, cipher.c0())?;
    put_pair(line, cipher.c1())?;
    put_opened(alloc, line, secret, cipher)
}

fn put_encryption<R: Rng>(
    line: &mut String,
    case: Case,
    secret: &Secret,
    rng: &mut R,
) -> Result<(), BadCase> {
    let cipher = encrypted(case, "message", secret, rng)?;
    put_cipher(case.alloc, line, secret, &cipher)
}

fn put_decryption(line: &mut String, case: Case, secret: &Secret) -> Result<(), BadCase> {
    let cipher = given(case)?;
    put_opened(case.alloc, line, secret, &cipher)
}

/// The ciphertext whose parts a case lists.
pub fn given(case: Case) -> Result<Cipher, BadCase> {
    let c0 = case.pair("c0")?;
    let c1 = case.pair("c1")?;
    if c0.degree() != c1.degree() {
        return Err(BadCase::Unfit);
    }
    Ok(Cipher::from_parts(c0, c1))
}

/// What a sum, a difference or a product with a plain polynomial opens to, and its digest.
fn put_combined<R: Rng>(
    line: &mut String,
    case: Case,
    secret: &Secret,
    rng: &mut R,
) -> Result<(), BadCase> {
    let combined = combined(case, secret, rng)?;
    put_opened(case.alloc, line, secret, &combined)?;
    put_cipher_digest(case.alloc, line, &combined)
}

fn combined<R: Rng>(case: Case, secret: &Secret, rng: &mut R) -> Result<Cipher, BadCase> {
    let one = encrypted(case, "one", secret, rng)?;
    let other = encrypted(case, "other", secret, rng)?;
    combination(case, one, &other)
}

fn combination(case: Case, mut one: Cipher, other: &Cipher) -> Result<Cipher, BadCase> {
    if one.degree() != other.degree() {
        return Err(BadCase::Unfit);
    }
    match case.call() {
        "sum" => one.add_in(other),
        "difference" => one.sub_in(other),
        _ => return plain_product(case, &one),
    }
    Ok(one)
}

/// The digest of the bytes of one ciphertext.
pub fn put_cipher_digest(alloc: Global, line: &mut String, cipher: &Cipher) -> Result<(), BadCase> {
    let copy = cipher.copy(alloc)?;
    Ok(put_ciphers(alloc, line, &[copy])?)
}

fn plain_product(case: Case, cipher: &Cipher) -> Result<Cipher, BadCase> {
    let plain = case.poly(Modulus::Plain, "plain")?;
    if plain.degree() != cipher.degree() {
        return Err(BadCase::Unfit);
    }
    Ok(cipher.mul_plain(case.alloc, &plain)?)
}

/// What so many times an encryption opens to.
fn put_multiple<R: Rng>(
    line: &mut String,
    case: Case,
    secret: &Secret,
    rng: &mut R,
) -> Result<(), BadCase> {
    let one = encrypted(case, "message", secret, rng)?;
    let mut sum = Cipher::zero(case.alloc, degree_of(one.degree())?)?;
    add_times(&mut sum, &one, case.number("count"));
    put_opened(case.alloc, line, secret, &sum)
}

fn add_times(sum: &mut Cipher, one: &Cipher, count: u32)
    requires { ciphertext_degree sum.old ≡ ciphertext_degree one.now }
{
    for _turn in 0..count {
        sum.add_in(one);
    }
}
