//! Secrets.

ghost use Rattle.std.specs.Prelude.{◌≡◌, length, IfOk};
ghost use Rattle.co_math.specs.Parameters.{q};
ghost use Rattle.co_math.specs.Polynomials.{product};
ghost use Rattle.co_math.specs.Coefficients.{coefficients, residues_of, signed_coefficients};
ghost use Rattle.co_bfv.specs.Secrets.{IsSecret};

use crate::signed::residues;
use co_ring::Degree;
use co_rns::{Pair, PairSpectrum, Tables, from_spectrum, to_spectrum};
use std::alloc::{AllocError, Global};
use std::marker::Model;

/// A secret polynomial: n coefficients, each -1, 0 or 1. Its values at the roots of -1 and the
/// tables of the transforms are made once and kept.
#[derive(Drop)]
pub struct Secret {
    coeffs: Vec<i8>,
    tables: Tables,
    values: PairSpectrum,
}

impl Model for Secret {
    ghost use Rattle.std.specs.Prelude.{ℤ, List};
    ghost use Rattle.co_bfv.specs.Secrets.{IsKept};

    ghost Value = { List ℤ };

    ghost view = { λ s. s.coeffs.items };

    ghost invariant = { λ s. IsKept s.coeffs.items s.tables s.values };
}

impl Secret {
    /// The secret with these coefficients, the constant first.
    pub fn from_coeffs(alloc: Global, degree: Degree, coeffs: Vec<i8>) -> Result<Secret, AllocError>
        requires small { IsSecret coeffs.items }
        requires one_degree { length coeffs.items ≡ degree }
        ensures { IfOk result (λ s. s ≡ coeffs.items) }
    {
        let whole = residues(alloc, degree, &coeffs)?;
        let tables = Tables::new(alloc, degree)?;
        let mut values = PairSpectrum::zero(alloc, degree)?;
        to_spectrum(&tables, &whole, &mut values);
        Ok(Secret {
            coeffs,
            tables,
            values,
        })
    }

    /// The number of coefficients.
    pub fn degree(&self) -> usize
        ensures value { result ≡ length self.now }
        ensures secret { IsSecret self.now }
    {
        self.coeffs.len()
    }

    /// The secret as a polynomial modulo q.
    pub fn residues(&self, alloc: Global) -> Result<Pair, AllocError>
        ensures value { IfOk result (λ p.
            p ≡ residues_of q (length self.now) (signed_coefficients self.now)) }
        ensures degree { IfOk result (λ p. length p ≡ length self.now) }
    {
        residues(alloc, Degree::of(self.coeffs.len()), &self.coeffs)
    }

    /// The product with a polynomial modulo q, by two transforms.
    pub fn mul(&self, alloc: Global, other: &Pair) -> Result<Pair, AllocError>
        requires { length other.now ≡ length self.now }
        ensures value { IfOk result (λ p. let n = length self.now in
            p ≡ residues_of q n
            (product n (coefficients other.now) (signed_coefficients self.now))) }
        ensures degree { IfOk result (λ p. length p ≡ length self.now) }
    {
        let degree = self.tables.degree();
        let mut factor = PairSpectrum::zero(alloc, degree)?;
        to_spectrum(&self.tables, other, &mut factor);
        let mut values = PairSpectrum::zero(alloc, degree)?;
        values.mul_add(&factor, &self.values);
        let mut product = Pair::zero(alloc, degree)?;
        from_spectrum(&self.tables, &values, &mut product);
        Ok(product)
    }
}
