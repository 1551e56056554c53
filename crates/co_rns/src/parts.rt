//! Coefficients modulo q, from and to their residues.

ghost use Rattle.std.specs.Prelude.{◌≡◌, ◌+◌, ◌*◌, ◌/◌, ◌<◌, ◌%◌, ◌^◌, length, slice_index, pos};
ghost use Rattle.std.specs.Prelude.{IfOk};
ghost use Rattle.co_math.specs.Parameters.{first_modulus, second_modulus, plain_modulus};
ghost use Rattle.co_math.specs.Parameters.{digit_base, digit_count, q};
ghost use Rattle.co_math.specs.Residues.{residue};
ghost use Rattle.co_math.specs.Meanings.{centred as centred_of};
ghost use Rattle.co_ring.specs.Moduli.{value_of};
ghost use Rattle.co_ring.specs.Polynomials.{degree_of, IsPoly};
ghost use Rattle.co_rns.specs.Residue_pairs.{composed, all_composed, AreResiduesOf, AreDigits};
ghost use Rattle.co_rns.specs.Residue_pairs.{centred_coefficients};

use co_math::{
    DIGIT_BASE, DIGIT_BITS, FIRST_MODULUS, INVERSE_OF_FIRST, PLAIN_MODULUS, SECOND_MODULUS,
};
use co_ring::{Degree, Modulus, Poly, multiply_by, subtract};
use std::alloc::{AllocError, Global};

/// floor(INVERSE_OF_FIRST * 2^64 / SECOND_MODULUS).
const INVERSE_QUOTIENT: u64 = (INVERSE_OF_FIRST as u128 * 18446744073709551616
    / SECOND_MODULUS as u128) as u64;

/// The number below q with these residues.
#[inline]
pub fn compose(first: u64, second: u64) -> u128
    requires first { first < first_modulus }
    requires second { second < second_modulus }
    ensures value { result ≡ composed first second }
    ensures reduced { result < q }
{
    let times = multiply_by(
        subtract(second, first, SECOND_MODULUS),
        INVERSE_OF_FIRST,
        INVERSE_QUOTIENT,
        SECOND_MODULUS,
    );
    first as u128 + FIRST_MODULUS as u128 * times as u128
}

/// The residues of a polynomial modulo q.
pub fn reduce(
    alloc: Global,
    modulus: Modulus,
    degree: Degree,
    coeffs: &[u128],
) -> Result<Poly, AllocError>
    requires { length coeffs.now ≡ degree }
    ensures modulus { IfOk result (λ p. p.modulus ≡ modulus) }
    ensures coeffs { IfOk result (λ p. AreResiduesOf (value_of modulus) coeffs.now p.coeffs) }
{
    let _n = degree.get();
    let m = modulus.value();
    let mut residues = Vec::with_capacity(alloc, coeffs.len())?;
    for k in 0..coeffs.len() {
        residues.push((coeffs[k] % m as u128) as u64)?;
    }
    Ok(Poly::from_vec(modulus, residues))
}

/// A digit of a number.
#[inline]
pub fn digit_of(coefficient: u128, index: u32) -> u64
    requires { index < digit_count }
    ensures value { result ≡ coefficient / digit_base ^ index % digit_base }
    ensures small { result < digit_base }
{
    ((coefficient >> (DIGIT_BITS * index)) % DIGIT_BASE as u128) as u64
}

/// The coefficient at a place, from its residues.
#[inline]
pub fn compose_at(first: &Poly, second: &Poly, at: usize) -> u128
    requires first_modulus { first.now.modulus ≡ Modulus.First }
    requires second_modulus { second.now.modulus ≡ Modulus.Second }
    requires one_degree { degree_of second.now ≡ degree_of first.now }
    requires in_range { at < degree_of first.now }
    ensures value { result ≡ slice_index (all_composed first.now.coeffs second.now.coeffs) at }
    ensures reduced { result < q }
{
    compose(first.coeff(at), second.coeff(at))
}

/// The digits of each coefficient, which are their own residues.
pub fn write_digits(
    first: &Poly,
    second: &Poly,
    index: u32,
    into_first: &mut Poly,
    into_second: &mut Poly,
)
    requires index { index < digit_count }
    requires first_modulus { first.now.modulus ≡ Modulus.First }
    requires second_modulus { second.now.modulus ≡ Modulus.Second }
    requires one_degree { degree_of second.now ≡ degree_of first.now }
    requires into_first_modulus { into_first.old.modulus ≡ Modulus.First }
    requires into_second_modulus { into_second.old.modulus ≡ Modulus.Second }
    requires into_first_degree { degree_of into_first.old ≡ degree_of first.now }
    requires into_second_degree { degree_of into_second.old ≡ degree_of first.now }
    ensures first_modulus_after { into_first.new.modulus ≡ Modulus.First }
    ensures second_modulus_after { into_second.new.modulus ≡ Modulus.Second }
    ensures first_digits { AreDigits digit_base index
        (all_composed first.now.coeffs second.now.coeffs) into_first.new.coeffs }
    ensures second_digits { AreDigits digit_base index
        (all_composed first.now.coeffs second.now.coeffs) into_second.new.coeffs }
{
    for k in 0..first.degree() {
        let digit = digit_of(compose_at(first, second, k), index);
        into_first.set(k, digit);
        into_second.set(k, digit);
    }
}

/// All coefficients, from their residues.
pub fn compose_all(first: &Poly, second: &Poly, into: &mut [u128])
    requires first_modulus { first.now.modulus ≡ Modulus.First }
    requires second_modulus { second.now.modulus ≡ Modulus.Second }
    requires one_degree { degree_of second.now ≡ degree_of first.now }
    requires into_degree { length into.old ≡ degree_of first.now }
    ensures { into.new ≡ all_composed first.now.coeffs second.now.coeffs }
{
    for k in 0..into.len() {
        into[k] = compose_at(first, second, k);
    }
}

/// The digit at a place of each coefficient.
pub fn digits_of(coeffs: &[u128], index: u32, into: &mut [u64])
    requires index { index < digit_count }
    requires into_degree { length into.old ≡ length coeffs.now }
    ensures { AreDigits digit_base index coeffs.now into.new }
{
    for k in 0..into.len() {
        into[k] = digit_of(coeffs[k], index);
    }
}

/// A coefficient modulo t as the number of least absolute value, modulo m.
pub fn centre(value: u64, m: u64) -> u64
    requires reduced { value < plain_modulus }
    requires room { 65536 < m }
    ensures { result ≡ residue m (centred_of plain_modulus (pos value)) }
{
    if value <= 32768 {
        value
    } else {
        value + (m - PLAIN_MODULUS)
    }
}

/// A polynomial modulo t with its centred coefficients, modulo m.
pub fn centred(alloc: Global, plain: &Poly, modulus: Modulus) -> Result<Poly, AllocError>
    requires { plain.now.modulus ≡ Modulus.Plain }
    ensures { IfOk result (IsPoly modulus (degree_of plain.now)
        (centred_coefficients plain.now.coeffs)) }
{
    let n = plain.degree();
    let m = modulus.value();
    let mut residues = Vec::with_capacity(alloc, n)?;
    for k in 0..n {
        residues.push(centre(plain.coeff(k), m))?;
    }
    Ok(Poly::from_vec(modulus, residues))
}
