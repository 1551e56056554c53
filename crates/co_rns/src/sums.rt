//! Sums of products of polynomials modulo q, by their values, that are reduced once.

ghost use Rattle.std.specs.Prelude.{ℤ, ◌≡◌, ◌<◌, ◌≤◌, ◌+◌, [], ◌∷◌, length, IfOk};
ghost use Rattle.co_math.specs.Coefficients.{residues_of};
ghost use Rattle.co_math.specs.Parameters.{q};
ghost use Rattle.co_ring.specs.Product_sums.{most_products};
ghost use Rattle.co_rns.specs.Spectra.{IsNoPairSum, IsPairSumOf, IsPairSumWith, IsPairSumWithAll, IsReducedPair};
ghost use Rattle.co_rns.specs.Spectra.{spectrum_degree};

use crate::pairs::Pair;
use crate::spectra::{PairSpectrum, Tables, from_spectrum};
use co_ring::{Degree, Modulus, ProductSum};
use std::alloc::{AllocError, Global};
use std::marker::Model;

/// A sum of products of spectra, in 128 bits and not reduced: 32 * n bytes.
#[derive(Drop)]
pub struct PairSum {
    first: ProductSum,
    second: ProductSum,
}

impl Model for PairSum {
    ghost use Rattle.co_rns.specs.Spectra.{IsPairSum, PairSums};

    ghost Value = { PairSums };

    ghost view = { λ s.
        record { count = s.first.count; first = s.first.values; second = s.second.values } };

    ghost invariant = { λ s. IsPairSum s.first s.second };
}

impl PairSum {
    /// The sum of no products.
    pub fn zero(alloc: Global, degree: Degree) -> Result<PairSum, AllocError>
        ensures { IfOk result (IsNoPairSum degree) }
    {
        Ok(PairSum {
            first: ProductSum::zero(alloc, Modulus::First, degree)?,
            second: ProductSum::zero(alloc, Modulus::Second, degree)?,
        })
    }

    /// Makes it the sum of no products again.
    pub fn clear(&mut self)
        ensures { IsNoPairSum (length self.old.first) self.new }
    {
        self.first.clear();
        self.second.clear();
    }

    /// Adds the product with each other of the values of a and of b.
    pub fn add_product(&mut self, a: &PairSpectrum, b: &PairSpectrum)
        requires a_degree { spectrum_degree a.now ≡ length self.old.first }
        requires b_degree { spectrum_degree b.now ≡ length self.old.first }
        requires room { self.old.count < most_products }
        ensures { IsPairSumWith self.old a.now b.now self.new }
    {
        self.first.add_product(&a.first, &b.first);
        self.second.add_product(&a.second, &b.second);
    }

    /// Adds three products, each of two spectra that stand one after the other, in one pass.
    pub fn add_three(
        &mut self,
        a: &PairSpectrum,
        b: &PairSpectrum,
        c: &PairSpectrum,
        d: &PairSpectrum,
        e: &PairSpectrum,
        f: &PairSpectrum,
    )
        requires a_degree { spectrum_degree a.now ≡ length self.old.first }
        requires b_degree { spectrum_degree b.now ≡ length self.old.first }
        requires c_degree { spectrum_degree c.now ≡ length self.old.first }
        requires d_degree { spectrum_degree d.now ≡ length self.old.first }
        requires e_degree { spectrum_degree e.now ≡ length self.old.first }
        requires f_degree { spectrum_degree f.now ≡ length self.old.first }
        requires room { self.old.count + 3 ≤ most_products }
        ensures { IsPairSumWithAll self.old
            ((a.now, b.now) ∷ (c.now, d.now) ∷ (e.now, f.now) ∷ []) self.new }
    {
        self.first
            .add_three(&a.first, &b.first, &c.first, &d.first, &e.first, &f.first);
        self.second.add_three(
            &a.second, &b.second, &c.second, &d.second, &e.second, &f.second,
        );
    }

    /// The sums modulo q1 and q2.
    pub fn reduce(&self, into: &mut PairSpectrum)
        requires { spectrum_degree into.old ≡ length self.now.first }
        ensures { IsReducedPair self.now into.new }
    {
        self.first.reduce(&mut into.first);
        self.second.reduce(&mut into.second);
    }

    /// The polynomial whose values the sum has. The room is scratch.
    pub fn polynomial(
        &self,
        alloc: Global,
        tables: &Tables,
        room: &mut PairSpectrum,
    ) -> Result<Pair, AllocError>
        requires sum_degree { length self.now.first ≡ tables.now }
        requires room_degree { spectrum_degree room.old ≡ tables.now }
        ensures value { IfOk result (λ p. (f : ℤ → ℤ) → IsPairSumOf tables.now f self.now
            → p ≡ residues_of q tables.now f) }
        ensures degree { IfOk result (λ p. length p ≡ tables.now) }
        ensures room_degree { spectrum_degree room.new ≡ tables.now }
    {
        self.reduce(room);
        let mut poly = Pair::zero(alloc, tables.degree())?;
        from_spectrum(tables, room, &mut poly);
        Ok(poly)
    }
}
