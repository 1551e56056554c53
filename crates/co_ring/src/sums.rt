//! Sums of products of spectra, value by value, that are reduced once.

ghost use Rattle.std.specs.Prelude.{◌≡◌, ◌<◌, ◌≤◌, ◌+◌, [], ◌∷◌, length, IfOk};
ghost use Rattle.co_ring.specs.Moduli.{value_of};
ghost use Rattle.co_ring.specs.Product_sums.{AreReduced, IsNoSum, IsSumWith, IsSumWithAll, most_products};

use crate::degrees::Degree;
use crate::moduli::Modulus;
use crate::spectra::Spectrum;
use co_transform::{clear, gather, gather_three, reduce_sums, reducer_of};
use std::alloc::{AllocError, Global};
use std::marker::Model;

/// How many products one sum takes: so many of numbers below 2^51 stay below 2^128.
pub const MOST_PRODUCTS: u64 = 1 << 25;

/// A sum of products of spectra, value by value, in 128 bits and not reduced: 16 * n bytes.
/// Inside it stands in the order of a transform's leaves, as a spectrum does.
#[derive(Drop)]
pub struct ProductSum {
    modulus: Modulus,
    levels: u32,
    count: u64,
    leaves: Vec<u128>,
}

impl Model for ProductSum {
    ghost use Rattle.co_ring.specs.Spectra.{in_order};
    ghost use Rattle.co_ring.specs.Product_sums.{AreSumLeaves, Sums};

    ghost Value = { Sums };

    ghost view = { λ s. record {
      modulus = s.modulus;
      count = s.count;
      values = in_order s.levels s.leaves.items;
    } };

    ghost invariant = { λ s. AreSumLeaves s.modulus s.levels s.count s.leaves.items };
}

impl ProductSum {
    /// The sum of no products.
    pub fn zero(alloc: Global, modulus: Modulus, degree: Degree) -> Result<ProductSum, AllocError>
        ensures { IfOk result (IsNoSum modulus degree) }
    {
        let n = degree.get() as usize;
        Ok(ProductSum {
            modulus,
            levels: degree.exponent(),
            count: 0,
            leaves: vec![in alloc; 0; n]?,
        })
    }

    /// Makes it the sum of no products again.
    pub fn clear(&mut self)
        ensures { IsNoSum self.old.modulus (length self.old.values) self.new }
    {
        clear(&mut self.leaves);
        self.count = 0;
    }

    /// How many products there are. The second clause says what holds of each sum.
    pub fn count(&self) -> u64
        ensures value { result ≡ self.now.count }
        ensures few { result ≤ most_products }
    {
        self.count
    }

    /// Adds the product with each other of the values of a and of b.
    pub fn add_product(&mut self, a: &Spectrum, b: &Spectrum)
        requires a_modulus { a.now.modulus ≡ self.old.modulus }
        requires b_modulus { b.now.modulus ≡ self.old.modulus }
        requires a_degree { length a.now.values ≡ length self.old.values }
        requires b_degree { length b.now.values ≡ length self.old.values }
        requires room { self.old.count < most_products }
        ensures { IsSumWith self.old a.now.values b.now.values self.new }
    {
        let q = self.modulus.value();
        gather(&mut self.leaves, a.leaves(), b.leaves(), self.count, q);
        self.count += 1;
    }

    /// Adds three products, each of two spectra that stand one after the other, in one pass.
    pub fn add_three(
        &mut self,
        a: &Spectrum,
        b: &Spectrum,
        c: &Spectrum,
        d: &Spectrum,
        e: &Spectrum,
        f: &Spectrum,
    )
        requires a_modulus { a.now.modulus ≡ self.old.modulus }
        requires b_modulus { b.now.modulus ≡ self.old.modulus }
        requires c_modulus { c.now.modulus ≡ self.old.modulus }
        requires d_modulus { d.now.modulus ≡ self.old.modulus }
        requires e_modulus { e.now.modulus ≡ self.old.modulus }
        requires f_modulus { f.now.modulus ≡ self.old.modulus }
        requires a_degree { length a.now.values ≡ length self.old.values }
        requires b_degree { length b.now.values ≡ length self.old.values }
        requires c_degree { length c.now.values ≡ length self.old.values }
        requires d_degree { length d.now.values ≡ length self.old.values }
        requires e_degree { length e.now.values ≡ length self.old.values }
        requires f_degree { length f.now.values ≡ length self.old.values }
        requires room { self.old.count + 3 ≤ most_products }
        ensures { IsSumWithAll self.old
            ((a.now.values, b.now.values) ∷ (c.now.values, d.now.values)
            ∷ (e.now.values, f.now.values) ∷ []) self.new }
    {
        let q = self.modulus.value();
        gather_three(
            &mut self.leaves,
            a.leaves(),
            b.leaves(),
            c.leaves(),
            d.leaves(),
            e.leaves(),
            f.leaves(),
            self.count,
            q,
        );
        self.count += 3;
    }

    /// The sums modulo the modulus.
    pub fn reduce(&self, into: &mut Spectrum)
        requires one_modulus { into.old.modulus ≡ self.now.modulus }
        requires one_degree { length into.old.values ≡ length self.now.values }
        ensures modulus { into.new.modulus ≡ self.now.modulus }
        ensures values { AreReduced (value_of self.now.modulus) self.now.values into.new.values }
    {
        let by = reducer_of(self.modulus.value());
        reduce_sums(&self.leaves, by, &mut into.leaves);
    }
}
