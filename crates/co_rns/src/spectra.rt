//! The values of polynomials modulo q at the roots of -1, and transforms between both.

ghost use Rattle.std.specs.Prelude.{◌≡◌, ℕ, ℤ, length, pos, IfOk};
ghost use Rattle.co_math.specs.Parameters.{first_modulus, q};
ghost use Rattle.co_math.specs.Coefficients.{coefficients, AreBelow, AreResidues, IsDegree};
ghost use Rattle.co_rns.specs.Spectra.{IsAddedProduct, IsSpectrumOf, spectrum_degree};

use crate::pairs::Pair;
use co_ring::{Degree, Modulus, Spectrum, Table, forward, forward_coeffs, inverse};
use std::alloc::{AllocError, Global};
use std::marker::Model;

/// The tables of the transforms modulo q1 and q2 for one degree, made once: 64 * n bytes.
#[derive(Drop)]
pub struct Tables {
    first: Table,
    second: Table,
}

impl Model for Tables {
    ghost use Rattle.std.specs.Prelude.{ℕ};
    ghost use Rattle.co_rns.specs.Spectra.{AreTables};

    ghost Value = { ℕ };

    ghost view = { λ t. t.first.degree };

    ghost invariant = { λ t. AreTables t.first t.second };
}

impl Tables {
    /// The tables for this degree.
    pub fn new(alloc: Global, degree: Degree) -> Result<Tables, AllocError>
        ensures { IfOk result (λ t. t ≡ degree) }
    {
        Ok(Tables {
            first: Table::new(alloc, Modulus::First, degree)?,
            second: Table::new(alloc, Modulus::Second, degree)?,
        })
    }

    /// The degree of the polynomials that they transform.
    pub fn degree(&self) -> Degree
        ensures { result ≡ self.now }
    {
        self.first.degree()
    }
}

/// The n values of a polynomial modulo q1 at psi^(2k+1), and those modulo q2, k = 0 .. n - 1,
/// where psi is the modulus's root for n.
#[derive(Drop)]
pub struct PairSpectrum {
    pub(crate) first: Spectrum,
    pub(crate) second: Spectrum,
}

impl Model for PairSpectrum {
    ghost use Rattle.co_rns.specs.Spectra.{IsPairSpectrum, PairValues};

    ghost Value = { PairValues };

    ghost view = { λ s. record { first = s.first.values; second = s.second.values } };

    ghost invariant = { λ s. IsPairSpectrum s.first s.second };
}

impl PairSpectrum {
    /// The values of the polynomial 0.
    pub fn zero(alloc: Global, degree: Degree) -> Result<PairSpectrum, AllocError>
        ensures { IfOk result (IsSpectrumOf degree (λ _. pos 0)) }
    {
        Ok(PairSpectrum {
            first: Spectrum::zero(alloc, Modulus::First, degree)?,
            second: Spectrum::zero(alloc, Modulus::Second, degree)?,
        })
    }

    /// How many values there are modulo each.
    pub fn degree(&self) -> usize
        ensures value { result ≡ spectrum_degree self.now }
        ensures one_degree { result ≡ length self.now.second }
        ensures valid { IsDegree result }
    {
        self.first.degree()
    }

    /// Adds the product with each other of the values of a and of b.
    pub fn mul_add(&mut self, a: &PairSpectrum, b: &PairSpectrum)
        requires a_degree { spectrum_degree a.now ≡ spectrum_degree self.old }
        requires b_degree { spectrum_degree b.now ≡ spectrum_degree self.old }
        ensures { IsAddedProduct self.old a.now b.now self.new }
    {
        self.first.mul_add(&a.first, &b.first);
        self.second.mul_add(&a.second, &b.second);
    }
}

/// The values of a polynomial modulo q.
pub fn to_spectrum(tables: &Tables, pair: &Pair, into: &mut PairSpectrum)
    requires pair_degree { length pair.now ≡ tables.now }
    requires into_degree { spectrum_degree into.old ≡ tables.now }
    ensures { IsSpectrumOf tables.now (coefficients pair.now) into.new }
{
    forward(&tables.first, &pair.first, &mut into.first);
    forward(&tables.second, &pair.second, &mut into.second);
}

/// The values of a polynomial whose coefficients, the constant first, are below both moduli.
pub fn small_to_spectrum(tables: &Tables, coeffs: &[u64], into: &mut PairSpectrum)
    requires one_degree { length coeffs.now ≡ tables.now }
    requires small { AreBelow first_modulus coeffs.now }
    requires into_degree { spectrum_degree into.old ≡ tables.now }
    ensures { IsSpectrumOf tables.now (coefficients coeffs.now) into.new }
{
    forward_coeffs(&tables.first, coeffs, &mut into.first);
    forward_coeffs(&tables.second, coeffs, &mut into.second);
}

/// The polynomial modulo q with these values. There is one: `back` says that each f with the
/// values is it.
pub fn from_spectrum(tables: &Tables, values: &PairSpectrum, into: &mut Pair)
    requires values_degree { spectrum_degree values.now ≡ tables.now }
    requires into_degree { length into.old ≡ tables.now }
    ensures degree { length into.new ≡ tables.now }
    ensures values { IsSpectrumOf tables.now (coefficients into.new) values.now }
    ensures back { (f : ℤ → ℤ) → IsSpectrumOf tables.now f values.now
        → AreResidues q tables.now f into.new }
{
    inverse(&tables.first, &values.first, &mut into.first);
    inverse(&tables.second, &values.second, &mut into.second);
    let _ = into.first.degree();
    let _ = into.second.degree();
}
