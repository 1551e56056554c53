//! Random polynomials, drawn from a generator's words.

ghost use Rattle.std.specs.Prelude.{◌≡◌, ◌<◌, ◌≤◌, length, unsigned_abs, IfOk, OnOk};
ghost use Rattle.co_math.specs.Parameters.{q, first_modulus, second_modulus};
ghost use Rattle.co_rns.specs.Residue_pairs.{composed};
ghost use Rattle.co_math.specs.Coefficients.{residues_of, signed_coefficients};
ghost use Rattle.co_bfv.specs.Draws.{ternary_draw, wide_draw, coefficient_draw, binomial_draw};
ghost use Rattle.co_bfv.specs.Draws.{secret_draw, uniform_draw, error_draw};

use crate::secrets::Secret;
use crate::signed::residues;
use co_math::{ERROR_BOUND, FIRST_MODULUS, SECOND_MODULUS};
use co_ring::{Degree, Modulus, Poly};
use co_rns::Pair;
use rand_core::Rng;
use std::alloc::{AllocError, Global};

const TWO_TO_64: u128 = 1 << 64;

/// The bits that count one way.
const HALF: u64 = 1 << ERROR_BOUND;

/// A secret, by one word for each coefficient. After an error the rest of the stream is not stated.
pub fn sample_secret<R: Rng>(
    alloc: Global,
    degree: Degree,
    rng: &mut R,
) -> Result<Secret, AllocError>
    ensures value { IfOk result (λ s. s ≡ (secret_draw degree (R.stream rng.old)).0) }
    ensures rest { OnOk result (R.stream rng.new ≡ (secret_draw degree (R.stream rng.old)).1) }
    ensures degree { IfOk result (λ s. length s ≡ degree) }
{
    let mut coeffs = Vec::with_capacity(alloc, degree.get() as usize)?;
    for i in 0..degree.get() {
        coeffs.push(ternary(rng))?;
    }
    Ok(Secret::from_coeffs(alloc, degree, coeffs)?)
}

/// A uniform polynomial modulo q, by four words for each coefficient.
/// After an error the rest of the stream is not stated.
pub fn sample_uniform<R: Rng>(
    alloc: Global,
    degree: Degree,
    rng: &mut R,
) -> Result<Pair, AllocError>
    ensures degree { IfOk result (λ a. length a ≡ degree) }
    ensures value { IfOk result (λ a. a ≡ (uniform_draw degree (R.stream rng.old)).0) }
    ensures rest { OnOk result (R.stream rng.new ≡ (uniform_draw degree (R.stream rng.old)).1) }
{
    let mut first = Poly::zero(alloc, Modulus::First, degree)?;
    let mut second = Poly::zero(alloc, Modulus::Second, degree)?;
    for k in 0..degree.get() as usize {
        let (x, y) = coefficient(rng);
        first.set(k, x);
        second.set(k, y);
    }
    Ok(Pair::from_parts(first, second))
}

/// An error modulo q, by one word for each coefficient.
/// After an error of memory the rest of the stream is not stated.
pub fn sample_error<R: Rng>(alloc: Global, degree: Degree, rng: &mut R) -> Result<Pair, AllocError>
    ensures value { IfOk result (λ e. let drawn = (error_draw degree (R.stream rng.old)).0 in
        e ≡ residues_of q degree (signed_coefficients drawn)) }
    ensures rest { OnOk result (R.stream rng.new ≡ (error_draw degree (R.stream rng.old)).1) }
    ensures degree { IfOk result (λ e. length e ≡ degree) }
{
    let drawn = errors(alloc, degree, rng)?;
    residues(alloc, degree, &drawn)
}

/// One word w: (w mod 3) - 1.
fn ternary<R: Rng>(rng: &mut R) -> i8
    ensures drawn { (result, R.stream rng.new) ≡ ternary_draw (R.stream rng.old) }
    ensures small { unsigned_abs result ≤ 1 }
{
    (rng.next_u64() % 3) as i8 - 1
}

/// Two words, the high one first.
fn wide<R: Rng>(rng: &mut R) -> u128
    ensures { (result, R.stream rng.new) ≡ wide_draw (R.stream rng.old) }
{
    let high = rng.next_u64();
    let low = rng.next_u64();
    high as u128 * TWO_TO_64 + low as u128
}

/// Four words: the residues of a number below q.
fn coefficient<R: Rng>(rng: &mut R) -> (u64, u64)
    ensures drawn { (composed result.0 result.1, R.stream rng.new)
        ≡ coefficient_draw (R.stream rng.old) }
    ensures first { result.0 < first_modulus }
    ensures second { result.1 < second_modulus }
{
    let x = wide(rng);
    let y = wide(rng);
    (
        (x % FIRST_MODULUS as u128) as u64,
        (y % SECOND_MODULUS as u128) as u64,
    )
}

/// One word, by the centred binomial distribution: the number of ones in its 21 low bits minus the
/// number of ones in the next 21.
fn binomial<R: Rng>(rng: &mut R) -> i8
    ensures { (result, R.stream rng.new) ≡ binomial_draw (R.stream rng.old) }
{
    let word = rng.next_u64();
    let low = (word % HALF).count_ones();
    let high = (word / HALF % HALF).count_ones();
    low as i8 - high as i8
}

/// The coefficients of an error.
fn errors<R: Rng>(alloc: Global, degree: Degree, rng: &mut R) -> Result<Vec<i8>, AllocError>
    ensures value { IfOk result (λ e. e.items ≡ (error_draw degree (R.stream rng.old)).0) }
    ensures rest { OnOk result (R.stream rng.new ≡ (error_draw degree (R.stream rng.old)).1) }
    ensures len { IfOk result (λ e. length e.items ≡ degree) }
{
    let mut drawn = Vec::with_capacity(alloc, degree.get() as usize)?;
    for i in 0..degree.get() {
        drawn.push(binomial(rng))?;
    }
    Ok(drawn)
}
