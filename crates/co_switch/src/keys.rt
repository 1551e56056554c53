//! Keys for one Galois element.

ghost use Rattle.std.specs.Prelude.{◌≡◌, ◌<◌, length, All, IfOk};
ghost use Rattle.co_math.specs.Parameters.{digit_count};
ghost use Rattle.co_switch.specs.Keys.{IsKey, AreSpectra, part, key_degree};

use co_ring::Degree;
use co_rns::{Pair, PairSpectrum, Tables, to_spectrum};
use std::alloc::{AllocError, Global};
use std::marker::Model;

/// A key for X to X^g: a pair of polynomials modulo q for each digit, the lowest digit first. Their
/// values at the roots of -1 and the tables of the transforms are made once and kept: 448 * n bytes
/// in all.
#[derive(Drop)]
pub struct GaloisKey {
    element: u32,
    k0: Vec<Pair>,
    k1: Vec<Pair>,
    kept: Kept,
}

/// The tables of the transforms for a key's degree, and the values of its polynomials.
#[derive(Drop)]
struct Kept {
    tables: Tables,
    values0: Vec<PairSpectrum>,
    values1: Vec<PairSpectrum>,
}

impl Model for GaloisKey {
    ghost use Rattle.co_switch.specs.Keys.{Key, IsKept};

    ghost Value = { Key };

    ghost view = { λ k. record { element = k.element; k0 = k.k0.items; k1 = k.k1.items } };

    ghost invariant = { λ k. IsKept
        (record { element = k.element; k0 = k.k0.items; k1 = k.k1.items })
        k.kept.tables k.kept.values0.items k.kept.values1.items };
}

// The values of polynomials of one degree.
fn spectra(
    alloc: Global,
    tables: &Tables,
    polynomials: &[Pair],
) -> Result<Vec<PairSpectrum>, AllocError>
    requires count { length polynomials.now ≡ digit_count }
    requires one_degree { All (λ p. length p ≡ tables.now) polynomials.now }
    ensures { IfOk result (λ values. AreSpectra tables.now polynomials.now values.items) }
{
    let mut values = Vec::with_capacity(alloc, polynomials.len())?;
    for index in 0..polynomials.len() {
        let mut value = PairSpectrum::zero(alloc, tables.degree())?;
        to_spectrum(tables, &polynomials[index], &mut value);
        values.push(value)?;
    }
    Ok(values)
}

// What is kept with the pairs of a key.
fn keep(alloc: Global, degree: Degree, k0: &[Pair], k1: &[Pair]) -> Result<Kept, AllocError>
    requires k0_count { length k0.now ≡ digit_count }
    requires k0_degree { All (λ p. length p ≡ degree) k0.now }
    requires k1_count { length k1.now ≡ digit_count }
    requires k1_degree { All (λ p. length p ≡ degree) k1.now }
    ensures tables { IfOk result (λ kept. kept.tables ≡ degree) }
    ensures values0 { IfOk result (λ kept. AreSpectra kept.tables k0.now kept.values0.items) }
    ensures values1 { IfOk result (λ kept. AreSpectra kept.tables k1.now kept.values1.items) }
{
    let tables = Tables::new(alloc, degree)?;
    let (values0, values1) = both_spectra(alloc, &tables, k0, k1)?;
    Ok(Kept {
        tables,
        values0,
        values1,
    })
}

// The values of the polynomials of a key's pairs.
fn both_spectra(
    alloc: Global,
    tables: &Tables,
    k0: &[Pair],
    k1: &[Pair],
) -> Result<(Vec<PairSpectrum>, Vec<PairSpectrum>), AllocError>
    requires k0_count { length k0.now ≡ digit_count }
    requires k0_degree { All (λ p. length p ≡ tables.now) k0.now }
    requires k1_count { length k1.now ≡ digit_count }
    requires k1_degree { All (λ p. length p ≡ tables.now) k1.now }
    ensures first { IfOk result (λ values. AreSpectra tables.now k0.now values.0.items) }
    ensures second { IfOk result (λ values. AreSpectra tables.now k1.now values.1.items) }
{
    let values0 = spectra(alloc, tables, k0)?;
    let values1 = spectra(alloc, tables, k1)?;
    Ok((values0, values1))
}

impl GaloisKey {
    /// The key with these pairs.
    pub fn from_parts(
        alloc: Global,
        element: u32,
        k0: Vec<Pair>,
        k1: Vec<Pair>,
    ) -> Result<GaloisKey, AllocError>
        requires { IsKey (record { element = element; k0 = k0.items; k1 = k1.items }) }
        ensures { IfOk result (λ key.
            key ≡ record { element = element; k0 = k0.items; k1 = k1.items }) }
    {
        let kept = keep(alloc, Degree::of(k0[0].degree()), &k0, &k1)?;
        Ok(GaloisKey {
            element,
            k0,
            k1,
            kept,
        })
    }

    /// The Galois element g, which is odd.
    pub fn element(&self) -> u32
        ensures value { result ≡ self.now.element }
        ensures key { IsKey self.now }
    {
        self.element
    }

    /// The first polynomial of the pair of a digit.
    pub fn k0(&self, index: u32) -> &Pair
        requires { index < digit_count }
        ensures { result.now ≡ part self.now.k0 index }
    {
        &self.k0[index as usize]
    }

    /// The second polynomial of the pair of a digit.
    pub fn k1(&self, index: u32) -> &Pair
        requires { index < digit_count }
        ensures { result.now ≡ part self.now.k1 index }
    {
        &self.k1[index as usize]
    }

    /// The number of coefficients of each polynomial.
    pub fn degree(&self) -> usize
        ensures value { result ≡ key_degree self.now }
        ensures key { IsKey self.now }
    {
        self.k0[0].degree()
    }

    /// The tables of the transforms for its degree.
    pub(crate) fn tables(&self) -> &Tables
        ensures { result.now ≡ key_degree self.now }
    {
        &self.kept.tables
    }

    /// The values of the first polynomials of its pairs.
    pub(crate) fn values0(&self) -> &[PairSpectrum]
        ensures { AreSpectra (key_degree self.now) self.now.k0 result.now }
    {
        &self.kept.values0
    }

    /// The values of the second polynomials of its pairs.
    pub(crate) fn values1(&self) -> &[PairSpectrum]
        ensures { AreSpectra (key_degree self.now) self.now.k1 result.now }
    {
        &self.kept.values1
    }
}
