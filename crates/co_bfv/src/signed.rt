//! Polynomials of small integers, modulo q.

ghost use Rattle.std.specs.Prelude.{◌≡◌, ◌<◌, length, IfOk};
ghost use Rattle.co_math.specs.Residues.{residue};
ghost use Rattle.co_ring.specs.Polynomials.{IsPoly};
ghost use Rattle.co_math.specs.Parameters.{q};
ghost use Rattle.co_math.specs.Coefficients.{residues_of, signed_coefficients};

use co_ring::{Degree, Modulus, Poly};
use co_rns::Pair;
use std::alloc::{AllocError, Global};

/// A small integer, modulo m.
pub fn reduce(value: i8, m: u64) -> u64
    requires { 128 < m }
    ensures { result ≡ residue m value }
{
    if value >= 0 {
        value as u64
    } else {
        m - value.unsigned_abs() as u64
    }
}

/// A polynomial of small integers, modulo one of the moduli.
pub fn reduce_all(
    alloc: Global,
    values: &[i8],
    modulus: Modulus,
    degree: Degree,
) -> Result<Poly, AllocError>
    requires { length values.now ≡ degree }
    ensures { IfOk result (IsPoly modulus degree (signed_coefficients values.now)) }
{
    let mut coeffs = Vec::with_capacity(alloc, degree.get() as usize)?;
    let m = modulus.value();
    for k in 0..values.len() {
        coeffs.push(reduce(values[k], m))?;
    }
    Ok(Poly::from_vec(modulus, coeffs))
}

/// A polynomial of small integers, modulo q.
pub fn residues(alloc: Global, degree: Degree, values: &[i8]) -> Result<Pair, AllocError>
    requires { length values.now ≡ degree }
    ensures value { IfOk result (λ p. p ≡ residues_of q degree (signed_coefficients values.now)) }
    ensures degree { IfOk result (λ p. length p ≡ degree) }
{
    let _n = degree.get();
    let first = reduce_all(alloc, values, Modulus::First, degree)?;
    let second = reduce_all(alloc, values, Modulus::Second, degree)?;
    Ok(Pair::from_parts(first, second))
}
