//! Encryption and decryption.

ghost use Rattle.std.specs.Prelude.{ℕ, ℤ, ◌≡◌, ◌*◌, ◌<◌, map, length, IfOk, OnOk};
ghost use Rattle.co_math.specs.Parameters.{q, plain_modulus, fresh_bound};
ghost use Rattle.co_math.specs.Polynomials.{plus};
ghost use Rattle.co_math.specs.Coefficients.{coefficients, AreResidues, signed_coefficients};
ghost use Rattle.co_ring.specs.Polynomials.{degree_of, polynomial_of};
ghost use Rattle.co_bfv.specs.Ciphertexts.{MeansWithin, ciphertext_degree};
ghost use Rattle.co_bfv.specs.Encryptions.{delta, encrypted, opened, decrypted};
ghost use Rattle.co_bfv.specs.Draws.{encryption_draw, error_draw};

use crate::ciphers::Cipher;
use crate::draws::{sample_error, sample_uniform};
use crate::secrets::Secret;
use co_math::{CIPHER_MODULUS, PLAIN_MODULUS};
use co_ring::{Modulus, Poly};
use co_rns::Pair;
use rand_core::Rng;
use std::alloc::{AllocError, Global};

/// Encrypts a message modulo t. After an error the rest of the stream is not stated.
pub fn encrypt<R: Rng>(
    alloc: Global,
    secret: &Secret,
    message: &Poly,
    rng: &mut R,
) -> Result<Cipher, AllocError>
    requires plain_modulus { message.now.modulus ≡ Modulus.Plain }
    requires one_degree { degree_of message.now ≡ length secret.now }
    ensures value { IfOk result (λ c.
        c ≡ (encryption_draw secret.now message.now.coeffs (R.stream rng.old)).0) }
    ensures rest { OnOk result (
        R.stream rng.new ≡ (encryption_draw secret.now message.now.coeffs (R.stream rng.old)).1) }
    ensures fresh { IfOk result (λ c.
        MeansWithin (signed_coefficients secret.now) c (polynomial_of message.now) fresh_bound) }
    ensures degree { IfOk result (λ c. ciphertext_degree c ≡ length secret.now) }
{
    let _ = secret.degree();
    let a = sample_uniform(alloc, message.shape(), rng)?;
    let c0 = masked(alloc, secret, message, &a, rng)?;
    Ok(Cipher::from_parts(c0, a))
}

/// What is added in an encryption with the uniform polynomial a.
fn masked<R: Rng>(
    alloc: Global,
    secret: &Secret,
    message: &Poly,
    a: &Pair,
    rng: &mut R,
) -> Result<Pair, AllocError>
    requires plain_modulus { message.now.modulus ≡ Modulus.Plain }
    requires message_degree { degree_of message.now ≡ length secret.now }
    requires one_degree { length a.now ≡ length secret.now }
    ensures value { IfOk result (λ p. let e = (error_draw (length secret.now) (R.stream rng.old)).0 in
        p ≡ (encrypted secret.now message.now.coeffs a.now e).c0) }
    ensures rest { OnOk result (
        R.stream rng.new ≡ (error_draw (length secret.now) (R.stream rng.old)).1) }
    ensures degree { IfOk result (λ p. length p ≡ length secret.now) }
{
    let _ = secret.degree();
    let mut c0 = noisy(alloc, message, rng)?;
    let mask = secret.mul(alloc, a)?;
    c0.sub_in(&mask);
    Ok(c0)
}

/// A message times q / t, rounded, and an error.
fn noisy<R: Rng>(alloc: Global, message: &Poly, rng: &mut R) -> Result<Pair, AllocError>
    requires { message.now.modulus ≡ Modulus.Plain }
    ensures value { IfOk result (λ p. let n = degree_of message.now in
        AreResidues q n (plus (coefficients (map delta message.now.coeffs))
        (signed_coefficients (error_draw n (R.stream rng.old)).0)) p) }
    ensures rest { OnOk result (
        R.stream rng.new ≡ (error_draw (degree_of message.now) (R.stream rng.old)).1) }
{
    let _ = message.degree();
    let mut scaled = scale(alloc, message)?;
    let e = sample_error(alloc, message.shape(), rng)?;
    scaled.add_in(&e);
    Ok(scaled)
}

/// Decrypts a ciphertext: to the message that it means, wherever twice its noise is below q.
pub fn decrypt(alloc: Global, secret: &Secret, cipher: &Cipher) -> Result<Poly, AllocError>
    requires { ciphertext_degree cipher.now ≡ length secret.now }
    ensures value { IfOk result (λ p.
        p ≡ record { modulus = Modulus.Plain; coeffs = decrypted secret.now cipher.now }) }
    ensures meaning { IfOk result (λ p. (m : ℤ → ℤ) (b : ℕ)
        → MeansWithin (signed_coefficients secret.now) cipher.now m b → 2 * b < q
        → AreResidues plain_modulus (length secret.now) m p.coeffs) }
    ensures degree { IfOk result (λ p. degree_of p ≡ length secret.now) }
{
    let _ = cipher.degree();
    let mut phase = secret.mul(alloc, cipher.c1())?;
    phase.add_in(cipher.c0());
    Ok(open(alloc, &phase)?)
}

/// A message times q / t, rounded.
fn scale(alloc: Global, message: &Poly) -> Result<Pair, AllocError>
    requires { message.now.modulus ≡ Modulus.Plain }
    ensures { IfOk result (λ p. p ≡ map delta message.now.coeffs) }
{
    let mut scaled = Vec::with_capacity(alloc, message.degree())?;
    for k in 0..message.degree() {
        scaled.push(scale_one(message.coeff(k)))?;
    }
    Pair::split(alloc, message.shape(), &scaled)
}

/// A coefficient of a message times q / t, rounded.
fn scale_one(coefficient: u64) -> u128
    requires { coefficient < plain_modulus }
    ensures value { result ≡ delta coefficient }
    ensures reduced { result < q }
{
    (2 * CIPHER_MODULUS * coefficient as u128 + PLAIN_MODULUS as u128) / (2 * PLAIN_MODULUS as u128)
}

/// The message of a phase modulo q.
fn open(alloc: Global, phase: &Pair) -> Result<Poly, AllocError>
    ensures { IfOk result (λ p.
        p ≡ record { modulus = Modulus.Plain; coeffs = map opened phase.now }) }
{
    let mut message = Vec::with_capacity(alloc, phase.degree())?;
    for k in 0..phase.degree() {
        message.push(open_one(phase.compose(k)))?;
    }
    Ok(Poly::from_vec(Modulus::Plain, message))
}

/// A coefficient of a phase times t / q, rounded, modulo t.
fn open_one(coefficient: u128) -> u64
    requires { coefficient < q }
    ensures value { result ≡ opened coefficient }
    ensures reduced { result < plain_modulus }
{
    ((2 * PLAIN_MODULUS as u128 * coefficient + CIPHER_MODULUS) / (2 * CIPHER_MODULUS)
        % PLAIN_MODULUS as u128) as u64
}
