//! The digits of a polynomial modulo q, on their way into a transform.

ghost use Rattle.std.specs.Prelude.{◌≡◌, ◌<◌, ℕ, List, length, IfOk};
ghost use Rattle.co_math.specs.Parameters.{digit_base, digit_count};
ghost use Rattle.co_math.specs.Coefficients.{coefficients};
ghost use Rattle.co_rns.specs.Spectra.{IsSpectrumOf, spectrum_degree};
ghost use Rattle.co_rns.specs.Residue_pairs.{AreDigits};

use crate::pairs::Pair;
use crate::parts;
use crate::spectra::{PairSpectrum, Tables, small_to_spectrum};
use co_ring::Degree;
use std::alloc::{AllocError, Global};
use std::marker::Model;

/// The coefficients of a polynomial modulo q, each composed of its residues once, and room for
/// one digit of each: 24 * n bytes.
#[derive(Drop)]
pub struct Decomposition {
    coeffs: Vec<u128>,
    digits: Vec<u64>,
}

impl Model for Decomposition {
    ghost use Rattle.std.specs.Prelude.{ℕ, List};
    ghost use Rattle.co_rns.specs.Pairs.{IsDecomposition};

    ghost Value = { List ℕ };

    ghost view = { λ d. d.coeffs.items };

    ghost invariant = { λ d. IsDecomposition d.coeffs.items d.digits.items };
}

impl Decomposition {
    /// Of the polynomial 0.
    pub fn zero(alloc: Global, degree: Degree) -> Result<Decomposition, AllocError>
        ensures { IfOk result (λ d. length d ≡ degree) }
    {
        let n = degree.get() as usize;
        Ok(Decomposition {
            coeffs: vec![in alloc; 0; n]?,
            digits: vec![in alloc; 0; n]?,
        })
    }

    /// Takes the coefficients of another polynomial.
    pub fn set(&mut self, pair: &Pair)
        requires { length pair.now ≡ length self.old }
        ensures { self.new ≡ pair.now }
    {
        parts::compose_all(&pair.first, &pair.second, &mut self.coeffs);
    }

    /// The values of the polynomial of the digits at a place.
    pub fn to_spectrum(&mut self, tables: &Tables, index: u32, into: &mut PairSpectrum)
        requires index { index < digit_count }
        requires degree { length self.old ≡ tables.now }
        requires into_degree { spectrum_degree into.old ≡ tables.now }
        ensures same { self.new ≡ self.old }
        ensures values { (digits : List ℕ) → AreDigits digit_base index self.old digits
            → IsSpectrumOf tables.now (coefficients digits) into.new }
    {
        parts::digits_of(&self.coeffs, index, &mut self.digits);
        small_to_spectrum(tables, &self.digits, into);
    }
}
