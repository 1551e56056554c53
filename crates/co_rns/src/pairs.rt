//! Polynomials modulo q.

ghost use Rattle.std.specs.Prelude.{◌≡◌, ◌*◌, ◌<◌, ◌%◌, length, slice_index, pos, IfOk};
ghost use Rattle.co_math.specs.Parameters.{first_modulus, second_modulus, digit_base, digit_count};
ghost use Rattle.co_math.specs.Parameters.{q};
ghost use Rattle.co_math.specs.Polynomials.{plus, minus, scaled, shifted, product};
ghost use Rattle.co_math.specs.Coefficients.{coefficients, AreBelow, AreResidues, IsSubstituted};
ghost use Rattle.co_ring.specs.Polynomials.{degree_of};
ghost use Rattle.co_rns.specs.Residue_pairs.{AreResiduesOf, AreDigits, centred_coefficients};
ghost use Rattle.co_rns.specs.Pairs.{IsWhole};

use crate::parts;
use co_ring::{Degree, Modulus, Poly};
use std::alloc::{AllocError, Global};
use std::marker::Model;

/// A polynomial modulo X^n + 1 and q.
#[derive(Drop)]
pub struct Pair {
    pub(crate) first: Poly,
    pub(crate) second: Poly,
}

impl Model for Pair {
    ghost use Rattle.std.specs.Prelude.{ℕ, List};
    ghost use Rattle.co_rns.specs.Residue_pairs.{all_composed};
    ghost use Rattle.co_rns.specs.Pairs.{IsPair};

    ghost Value = { List ℕ };

    ghost view = { λ p. all_composed p.first.coeffs p.second.coeffs };

    ghost invariant = { λ p. IsPair p.first p.second };
}

impl Pair {
    /// The polynomial 0.
    pub fn zero(alloc: Global, degree: Degree) -> Result<Pair, AllocError>
        ensures { IfOk result (AreResidues q degree (λ _. pos 0)) }
    {
        Ok(Pair {
            first: Poly::zero(alloc, Modulus::First, degree)?,
            second: Poly::zero(alloc, Modulus::Second, degree)?,
        })
    }

    /// The polynomial with these coefficients, the constant first: each is taken modulo q1 and q2.
    pub fn split(alloc: Global, degree: Degree, coeffs: &[u128]) -> Result<Pair, AllocError>
        requires one_degree { length coeffs.now ≡ degree }
        requires reduced { AreBelow q coeffs.now }
        ensures { IfOk result (λ p. p ≡ coeffs.now) }
    {
        Ok(Pair {
            first: parts::reduce(alloc, Modulus::First, degree, coeffs)?,
            second: parts::reduce(alloc, Modulus::Second, degree, coeffs)?,
        })
    }

    /// A polynomial modulo t with its centred coefficients, those of least absolute value.
    pub fn centred(alloc: Global, plain: &Poly) -> Result<Pair, AllocError>
        requires { plain.now.modulus ≡ Modulus.Plain }
        ensures { IfOk result (AreResidues q (degree_of plain.now)
            (centred_coefficients plain.now.coeffs)) }
    {
        Ok(Pair {
            first: parts::centred(alloc, plain, Modulus::First)?,
            second: parts::centred(alloc, plain, Modulus::Second)?,
        })
    }

    /// The one polynomial modulo q with these residues, by the Chinese remainder formula.
    pub fn from_parts(first: Poly, second: Poly) -> Pair
        requires first_modulus { first.modulus ≡ Modulus.First }
        requires second_modulus { second.modulus ≡ Modulus.Second }
        requires one_degree { degree_of second ≡ degree_of first }
        ensures whole { IsWhole result }
        ensures first_residues { AreResiduesOf first_modulus result first.coeffs }
        ensures second_residues { AreResiduesOf second_modulus result second.coeffs }
    {
        let _ = first.degree();
        let _ = second.degree();
        Pair { first, second }
    }

    /// The residues modulo q1.
    pub fn first(&self) -> &Poly
        ensures modulus { result.now.modulus ≡ Modulus.First }
        ensures residues { AreResiduesOf first_modulus self.now result.now.coeffs }
    {
        &self.first
    }

    /// The residues modulo q2.
    pub fn second(&self) -> &Poly
        ensures modulus { result.now.modulus ≡ Modulus.Second }
        ensures residues { AreResiduesOf second_modulus self.now result.now.coeffs }
    {
        &self.second
    }

    /// How many coefficients there are. The second clause says what holds of each pair.
    pub fn degree(&self) -> usize
        ensures value { result ≡ length self.now }
        ensures whole { IsWhole self.now }
    {
        self.first.degree()
    }

    /// The coefficient of X^at.
    pub fn compose(&self, at: usize) -> u128
        requires { at < length self.now }
        ensures value { result ≡ slice_index self.now at }
        ensures reduced { result < q }
    {
        parts::compose_at(&self.first, &self.second, at)
    }

    /// The polynomial of the digits at a place, the lowest at 0. A digit is below the base, so it
    /// is its own residue modulo q1 and q2.
    pub fn digit(&self, index: u32, into: &mut Pair)
        requires index { index < digit_count }
        requires one_degree { length into.old ≡ length self.now }
        ensures { AreDigits digit_base index self.now into.new }
    {
        parts::write_digits(
            &self.first,
            &self.second,
            index,
            &mut into.first,
            &mut into.second,
        );
    }

    /// Adds another polynomial.
    pub fn add_in(&mut self, other: &Pair)
        requires { length other.now ≡ length self.old }
        ensures { AreResidues q (length self.old)
            (plus (coefficients self.old) (coefficients other.now)) self.new }
    {
        self.first.add_in(&other.first);
        self.second.add_in(&other.second);
    }

    /// Subtracts another polynomial.
    pub fn sub_in(&mut self, other: &Pair)
        requires { length other.now ≡ length self.old }
        ensures { AreResidues q (length self.old)
            (minus (coefficients self.old) (coefficients other.now)) self.new }
    {
        self.first.sub_in(&other.first);
        self.second.sub_in(&other.second);
    }

    /// Times a number, which need not be below q.
    pub fn scale(&mut self, factor: u64)
        ensures { AreResidues q (length self.old)
            (scaled (pos factor) (coefficients self.old)) self.new }
    {
        self.first.scale(factor);
        self.second.scale(factor);
    }

    /// X becomes X^g, as under the Galois element g.
    pub fn substitute(&self, g: u32, into: &mut Pair)
        requires odd { g % 2 ≡ 1 }
        requires within { g < 2 * length self.now }
        requires one_degree { length into.old ≡ length self.now }
        ensures { IsSubstituted q g self.now into.new }
    {
        self.first.substitute(g, &mut into.first);
        self.second.substitute(g, &mut into.second);
    }

    /// Times X^exponent; X^n is -1.
    pub fn monomial_mul(&self, exponent: u32, into: &mut Pair)
        requires within { exponent < 2 * length self.now }
        requires one_degree { length into.old ≡ length self.now }
        ensures { AreResidues q (length self.now)
            (shifted exponent (coefficients self.now)) into.new }
    {
        self.first.monomial_mul(exponent, &mut into.first);
        self.second.monomial_mul(exponent, &mut into.second);
    }

    /// The negacyclic product: X^n is -1. It makes the tables of its transforms anew.
    pub fn mul(&self, alloc: Global, other: &Pair) -> Result<Pair, AllocError>
        requires { length other.now ≡ length self.now }
        ensures { IfOk result (AreResidues q (length self.now)
            (product (length self.now) (coefficients self.now) (coefficients other.now))) }
    {
        Ok(Pair {
            first: self.first.mul(alloc, &other.first)?,
            second: self.second.mul(alloc, &other.second)?,
        })
    }

    /// The negacyclic product with a polynomial modulo t, taken with its centred coefficients.
    pub fn mul_plain(&self, alloc: Global, plain: &Poly) -> Result<Pair, AllocError>
        requires plain_modulus { plain.now.modulus ≡ Modulus.Plain }
        requires one_degree { degree_of plain.now ≡ length self.now }
        ensures { IfOk result (AreResidues q (length self.now)
            (product (length self.now) (coefficients self.now)
            (centred_coefficients plain.now.coeffs))) }
    {
        let first = parts::centred(alloc, plain, Modulus::First)?;
        let second = parts::centred(alloc, plain, Modulus::Second)?;
        Ok(Pair {
            first: self.first.mul(alloc, &first)?,
            second: self.second.mul(alloc, &second)?,
        })
    }
}
