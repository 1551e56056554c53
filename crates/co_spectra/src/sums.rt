//! Sums of products of ciphertexts and plain polynomials.

ghost use Rattle.std.specs.Prelude.{ℕ, ℤ, List, ◌≡◌, ◌+◌, ◌<◌, ◌≤◌, length, IfOk};
ghost use Rattle.co_math.specs.Coefficients.{IsDegree};
ghost use Rattle.co_math.specs.Polynomials.{IsWrapped, plus, unit};
ghost use Rattle.co_ring.specs.Product_sums.{most_products};
ghost use Rattle.co_rns.specs.Spectra.{IsPairSumOf, IsSpectrumOf, spectrum_degree};
ghost use Rattle.co_bfv.specs.Ciphertexts.{Ciphertext, ciphertext_degree, ciphertext_sum, plain_product, zero_ciphertext};
ghost use Rattle.co_spectra.specs.Values.{AreCipherValues, AreOfDegree, ArePlainValues};
ghost use Rattle.co_spectra.specs.Sums.{IsCipherSumOf, three_added};

use crate::values::CipherSpectrum;
use co_bfv::Cipher;
use co_ring::{Degree, MOST_PRODUCTS};
use co_rns::{PairSpectrum, PairSum, Tables, small_to_spectrum};
use std::alloc::{AllocError, Global};
use std::marker::Model;

/// A sum of products of ciphertexts and plain polynomials of one degree, by their values and not
/// reduced: 64 * n bytes.
#[derive(Drop)]
pub struct CipherSum {
    degree: Degree,
    c0: PairSum,
    c1: PairSum,
    count: u64,
}

impl Model for CipherSum {
    ghost use Rattle.co_spectra.specs.Sums.{CipherSums, AreKept};

    ghost Value = { CipherSums };

    ghost view = { λ s. record { degree = s.degree; c0 = s.c0; c1 = s.c1 } };

    ghost invariant = { λ s. AreKept (record { degree = s.degree; c0 = s.c0; c1 = s.c1 }) s.count };
}

/// The values of the polynomial 1.
pub fn values_of_one(alloc: Global, tables: &Tables) -> Result<PairSpectrum, AllocError>
    ensures { IfOk result (IsSpectrumOf tables.now (unit tables.now)) }
{
    let degree = tables.degree();
    let mut coeffs = vec![in alloc; 0u64; degree.get() as usize]?;
    coeffs[0] = 1;
    let mut values = PairSpectrum::zero(alloc, degree)?;
    small_to_spectrum(tables, &coeffs, &mut values);
    Ok(values)
}

/// Reduces a sum, so that it counts as one product.
fn reduce(sum: &mut PairSum, room: &mut PairSpectrum, one: &PairSpectrum)
    requires degree { IsDegree (length sum.old.first) }
    requires room_degree { spectrum_degree room.old ≡ length sum.old.first }
    requires one_is { IsSpectrumOf (length sum.old.first) (unit (length sum.old.first)) one.now }
    ensures same { (f : ℤ → ℤ) → IsWrapped (length sum.old.first) f
        → IsPairSumOf (length sum.old.first) f sum.old
        → IsPairSumOf (length sum.old.first) f sum.new }
    ensures count { sum.new.count ≡ 1 }
    ensures degree { length sum.new.first ≡ length sum.old.first }
    ensures room_degree { spectrum_degree room.new ≡ length sum.old.first }
{
    sum.reduce(room);
    sum.clear();
    sum.add_product(one, room);
}

/// Adds another sum, as one product.
fn add_sum(sum: &mut PairSum, other: &PairSum, room: &mut PairSpectrum, one: &PairSpectrum)
    requires degree { IsDegree (length sum.old.first) }
    requires few { sum.old.count < most_products }
    requires other_degree { length other.now.first ≡ length sum.old.first }
    requires room_degree { spectrum_degree room.old ≡ length sum.old.first }
    requires one_is { IsSpectrumOf (length sum.old.first) (unit (length sum.old.first)) one.now }
    ensures sum { (f g : ℤ → ℤ) → IsWrapped (length sum.old.first) g
        → IsPairSumOf (length sum.old.first) f sum.old
        → IsPairSumOf (length sum.old.first) g other.now
        → IsPairSumOf (length sum.old.first) (plus f g) sum.new }
    ensures count { sum.new.count ≡ sum.old.count + 1 }
    ensures degree { length sum.new.first ≡ length sum.old.first }
    ensures room_degree { spectrum_degree room.new ≡ length sum.old.first }
{
    other.reduce(room);
    sum.add_product(one, room);
}

impl CipherSum {
    /// The sum of no products.
    pub fn zero(alloc: Global, degree: Degree) -> Result<CipherSum, AllocError>
        ensures none { IfOk result (IsCipherSumOf (zero_ciphertext degree)) }
        ensures degree { IfOk result (λ s. s.degree ≡ degree) }
        ensures count { IfOk result (λ s. s.c0.count ≡ 0) }
    {
        let _ = degree.get();
        Ok(CipherSum {
            degree,
            c0: PairSum::zero(alloc, degree)?,
            c1: PairSum::zero(alloc, degree)?,
            count: 0,
        })
    }

    /// Adds the product of a ciphertext and a plain polynomial.
    pub fn add_product(&mut self, turned: &CipherSpectrum, plain: &PairSpectrum)
        requires few { self.old.c0.count < most_products }
        requires turned_degree { AreOfDegree self.old.degree turned.now }
        requires plain_degree { spectrum_degree plain.now ≡ self.old.degree }
        ensures product { (c a : Ciphertext) (p : List ℕ) → IsCipherSumOf c self.old
            → AreCipherValues self.old.degree a turned.now
            → ArePlainValues self.old.degree p plain.now
            → IsCipherSumOf (ciphertext_sum c (plain_product a p)) self.new }
        ensures degree { self.new.degree ≡ self.old.degree }
        ensures count { self.new.c0.count ≡ self.old.c0.count + 1 }
    {
        self.c0.add_product(&turned.c0, plain);
        self.c1.add_product(&turned.c1, plain);
        self.count += 1;
    }

    /// Adds three products, each of a ciphertext and the plain polynomial after it, in one pass.
    pub fn add_three(
        &mut self,
        a: &CipherSpectrum,
        b: &PairSpectrum,
        c: &CipherSpectrum,
        d: &PairSpectrum,
        e: &CipherSpectrum,
        f: &PairSpectrum,
    )
        requires few { self.old.c0.count + 3 ≤ most_products }
        requires a_degree { AreOfDegree self.old.degree a.now }
        requires b_degree { spectrum_degree b.now ≡ self.old.degree }
        requires c_degree { AreOfDegree self.old.degree c.now }
        requires d_degree { spectrum_degree d.now ≡ self.old.degree }
        requires e_degree { AreOfDegree self.old.degree e.now }
        requires f_degree { spectrum_degree f.now ≡ self.old.degree }
        ensures products { (k k1 k2 k3 : Ciphertext) (p1 p2 p3 : List ℕ)
            → IsCipherSumOf k self.old
            → AreCipherValues self.old.degree k1 a.now
            → ArePlainValues self.old.degree p1 b.now
            → AreCipherValues self.old.degree k2 c.now
            → ArePlainValues self.old.degree p2 d.now
            → AreCipherValues self.old.degree k3 e.now
            → ArePlainValues self.old.degree p3 f.now
            → IsCipherSumOf (three_added k k1 k2 k3 p1 p2 p3) self.new }
        ensures degree { self.new.degree ≡ self.old.degree }
        ensures count { self.new.c0.count ≡ self.old.c0.count + 3 }
    {
        self.c0.add_three(&a.c0, b, &c.c0, d, &e.c0, f);
        self.c1.add_three(&a.c1, b, &c.c1, d, &e.c1, f);
        self.count += 3;
    }

    /// Reduces the sum where it takes no product more. The room is scratch, `one` has the values of
    /// 1.
    pub fn make_room(&mut self, room: &mut PairSpectrum, one: &PairSpectrum)
        requires room_degree { spectrum_degree room.old ≡ self.old.degree }
        requires one_is { IsSpectrumOf self.old.degree (unit self.old.degree) one.now }
        ensures same { (c : Ciphertext) → IsCipherSumOf c self.old → IsCipherSumOf c self.new }
        ensures degree { self.new.degree ≡ self.old.degree }
        ensures few { self.new.c0.count < most_products }
        ensures room_degree { spectrum_degree room.new ≡ self.old.degree }
    {
        if self.count == MOST_PRODUCTS {
            reduce(&mut self.c0, room, one);
            reduce(&mut self.c1, room, one);
            self.count = 1;
        }
    }

    /// Adds another sum, as one product. It takes no memory. The room is scratch, `one` has the
    /// values of 1.
    pub fn add_in(&mut self, other: &CipherSum, room: &mut PairSpectrum, one: &PairSpectrum)
        requires few { self.old.c0.count < most_products }
        requires one_degree { other.now.degree ≡ self.old.degree }
        requires room_degree { spectrum_degree room.old ≡ self.old.degree }
        requires one_is { IsSpectrumOf self.old.degree (unit self.old.degree) one.now }
        ensures sum { (c d : Ciphertext) → IsCipherSumOf c self.old → IsCipherSumOf d other.now
            → IsCipherSumOf (ciphertext_sum c d) self.new }
        ensures degree { self.new.degree ≡ self.old.degree }
        ensures room_degree { spectrum_degree room.new ≡ self.old.degree }
    {
        add_sum(&mut self.c0, &other.c0, room, one);
        add_sum(&mut self.c1, &other.c1, room, one);
        self.count += 1;
    }

    /// The ciphertext that the sum is.
    pub fn cipher(&self, alloc: Global, tables: &Tables) -> Result<Cipher, AllocError>
        requires { self.now.degree ≡ tables.now }
        ensures value { IfOk result (λ r. (c : Ciphertext) → IsCipherSumOf c self.now → r ≡ c) }
        ensures degree { IfOk result (λ r. ciphertext_degree r ≡ self.now.degree) }
    {
        let mut room = PairSpectrum::zero(alloc, tables.degree())?;
        let c0 = self.c0.polynomial(alloc, tables, &mut room)?;
        let c1 = self.c1.polynomial(alloc, tables, &mut room)?;
        Ok(Cipher::from_parts(c0, c1))
    }
}
