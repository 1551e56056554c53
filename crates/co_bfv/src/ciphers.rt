//! Ciphertexts: their parts, sums and differences, and products with plain polynomials.

ghost use Rattle.std.specs.Prelude.{ℕ, ℤ, pos, ◌≡◌, ◌*◌, length, IfOk};
ghost use Rattle.co_math.specs.Parameters.{plain_half};
ghost use Rattle.co_math.specs.Polynomials.{IsWrapped, plus, minus, product};
ghost use Rattle.co_ring.specs.Polynomials.{degree_of};
ghost use Rattle.co_rns.specs.Residue_pairs.{centred_coefficients};
ghost use Rattle.co_bfv.specs.Ciphertexts.{Ciphertext, IsCiphertext, MeansWithin, ciphertext_degree};
ghost use Rattle.co_bfv.specs.Ciphertexts.{zero_ciphertext, plain_product, IsCombined};
ghost use Rattle.co_bfv.specs.Ciphertexts.{ciphertext_sum, ciphertext_difference};

use co_ring::{Degree, Modulus, Poly};
use co_rns::Pair;
use std::alloc::{AllocError, Global};
use std::marker::Model;

/// A ciphertext: two polynomials modulo X^n + 1 and q.
#[derive(Drop)]
pub struct Cipher {
    c0: Pair,
    c1: Pair,
}

impl Model for Cipher {
    ghost Value = { Ciphertext };

    ghost view = { λ c. record { c0 = c.c0; c1 = c.c1 } };

    ghost invariant = { λ c. IsCiphertext (record { c0 = c.c0; c1 = c.c1 }) };
}

impl Cipher {
    /// The ciphertext of zeros.
    pub fn zero(alloc: Global, degree: Degree) -> Result<Cipher, AllocError>
        ensures value { IfOk result (λ c. c ≡ zero_ciphertext degree) }
        ensures meaning { IfOk result (λ c. (s : ℤ → ℤ) → MeansWithin s c (λ _. pos 0) 0) }
        ensures degree { IfOk result (λ c. ciphertext_degree c ≡ degree) }
    {
        let _n = degree.get();
        Ok(Cipher {
            c0: Pair::zero(alloc, degree)?,
            c1: Pair::zero(alloc, degree)?,
        })
    }

    /// Another ciphertext of the same value.
    pub fn copy(&self, alloc: Global) -> Result<Cipher, AllocError>
        ensures { IfOk result (λ c. c ≡ self.now) }
    {
        let mut copy = Cipher::zero(alloc, Degree::of(self.degree()))?;
        copy.add_in(self);
        Ok(copy)
    }

    /// The ciphertext with these two parts.
    pub fn from_parts(c0: Pair, c1: Pair) -> Cipher
        requires { length c1 ≡ length c0 }
        ensures { result ≡ record { c0 = c0; c1 = c1 } }
    {
        let _ = c0.degree();
        let _ = c1.degree();
        Cipher { c0, c1 }
    }

    /// The part that is added: the phase is c0 + c1 * s.
    pub fn c0(&self) -> &Pair
        ensures { result.now ≡ self.now.c0 }
    {
        &self.c0
    }

    /// The part that the secret multiplies.
    pub fn c1(&self) -> &Pair
        ensures { result.now ≡ self.now.c1 }
    {
        &self.c1
    }

    /// The number of coefficients of each part.
    pub fn degree(&self) -> usize
        ensures value { result ≡ ciphertext_degree self.now }
        ensures ciphertext { IsCiphertext self.now }
    {
        self.c0.degree()
    }

    /// Adds a ciphertext: the messages add up, and so do the bounds of the noise.
    pub fn add_in(&mut self, other: &Cipher)
        requires { ciphertext_degree other.now ≡ ciphertext_degree self.old }
        ensures { IsCombined plus (ciphertext_sum self.old other.now) self.old other.now self.new }
    {
        self.c0.add_in(&other.c0);
        self.c1.add_in(&other.c1);
    }

    /// Subtracts a ciphertext: the messages are subtracted, and the bounds of the noise add up.
    pub fn sub_in(&mut self, other: &Cipher)
        requires { ciphertext_degree other.now ≡ ciphertext_degree self.old }
        ensures { IsCombined minus (ciphertext_difference self.old other.now) self.old other.now
            self.new }
    {
        self.c0.sub_in(&other.c0);
        self.c1.sub_in(&other.c1);
    }

    /// The product with a polynomial modulo t, taken with centred coefficients.
    pub fn mul_plain(&self, alloc: Global, plain: &Poly) -> Result<Cipher, AllocError>
        requires plain_modulus { plain.now.modulus ≡ Modulus.Plain }
        requires one_degree { degree_of plain.now ≡ ciphertext_degree self.now }
        ensures value { IfOk result (λ c. c ≡ plain_product self.now plain.now.coeffs) }
        ensures meaning { IfOk result (λ c. let n = ciphertext_degree self.now in
            (s m : ℤ → ℤ) (b : ℕ) → IsWrapped n s → MeansWithin s self.now m b
            → MeansWithin s c
            (product n (centred_coefficients plain.now.coeffs) m) (n * plain_half * b)) }
        ensures degree { IfOk result (λ c. ciphertext_degree c ≡ ciphertext_degree self.now) }
    {
        Ok(Cipher {
            c0: self.c0.mul_plain(alloc, plain)?,
            c1: self.c1.mul_plain(alloc, plain)?,
        })
    }
}
