//! The switch.

ghost use Rattle.std.specs.Prelude.{ℕ, ℤ, ◌≡◌, ◌+◌, ◌*◌, ◌%◌, ◌<◌, length, IfOk, OnOk, OnErr};
ghost use Rattle.co_math.specs.Polynomials.{IsWrapped, substitution};
ghost use Rattle.co_math.specs.Coefficients.{residues_of};
ghost use Rattle.co_math.specs.Parameters.{q};
ghost use Rattle.co_math.specs.Bounds.{switch_bound};
ghost use Rattle.co_bfv.specs.Ciphertexts.{MeansWithin, ciphertext_degree};
ghost use Rattle.co_switch.specs.Keys.{IsGoodKey, key_degree};
ghost use Rattle.co_switch.specs.Steps.{raised};
ghost use Rattle.co_switch.specs.Switches.{automorphism, digit_sum, switched};

use crate::keys::GaloisKey;
use crate::products::digit_sums;
use crate::steps::Steps;
use co_bfv::Cipher;
use co_ring::Degree;
use co_rns::Pair;
use std::alloc::{AllocError, Global};

/// The ciphertext with X^g for X, under the same secret, in one step.
pub fn apply<L>(
    alloc: Global,
    cipher: &Cipher,
    key: &GaloisKey,
    steps: &mut Steps<L>,
) -> Result<Cipher, AllocError>
    requires { ciphertext_degree cipher.now ≡ key_degree key.now }
    ensures value { IfOk result (λ c. c ≡ switched key.now cipher.now) }
    ensures meaning { IfOk result (λ c. let n = key_degree key.now in
        (s m : ℤ → ℤ) (b : ℕ) → IsWrapped n s → IsWrapped n m → IsGoodKey s key.now
        → MeansWithin s cipher.now m b
        → MeansWithin s c (substitution n key.now.element m) (b + switch_bound n)) }
    ensures degree { IfOk result (λ c. ciphertext_degree c ≡ ciphertext_degree cipher.now) }
    ensures step { OnOk result (steps.new ≡ raised steps.old 1) }
    ensures no_step { OnErr result (steps.new ≡ steps.old) }
{
    let _ = cipher.degree();
    let _ = key.element();
    let switched = switch(alloc, cipher, key)?;
    steps.step();
    Ok(switched)
}

// The ciphertext with X^g for X, under the same secret.
fn switch(alloc: Global, cipher: &Cipher, key: &GaloisKey) -> Result<Cipher, AllocError>
    requires { ciphertext_degree cipher.now ≡ key_degree key.now }
    ensures { IfOk result (λ c. c ≡ switched key.now cipher.now) }
{
    let _ = cipher.degree();
    let mut c0 = substitute(alloc, cipher.c0(), key.element())?;
    let (first, second) = image_sums(alloc, cipher.c1(), key)?;
    c0.add_in(&first);
    Ok(Cipher::from_parts(c0, second))
}

// The sums over the digits of the polynomial with X^g for X, for both polynomials of the key's
// pairs.
fn image_sums(alloc: Global, poly: &Pair, key: &GaloisKey) -> Result<(Pair, Pair), AllocError>
    requires { length poly.now ≡ key_degree key.now }
    ensures first { IfOk result (λ sums. sums.0 ≡ residues_of q (key_degree key.now)
        (digit_sum (automorphism key.now.element poly.now) key.now.k0)) }
    ensures second { IfOk result (λ sums. sums.1 ≡ residues_of q (key_degree key.now)
        (digit_sum (automorphism key.now.element poly.now) key.now.k1)) }
{
    let image = substitute(alloc, poly, key.element())?;
    digit_sums(alloc, key.tables(), &image, key.values0(), key.values1())
}

// The polynomial with X^g for X.
pub(crate) fn substitute(alloc: Global, poly: &Pair, element: u32) -> Result<Pair, AllocError>
    requires odd { element % 2 ≡ 1 }
    requires within { element < 2 * length poly.now }
    ensures { IfOk result (λ p. p ≡ automorphism element poly.now) }
{
    let mut into = Pair::zero(alloc, Degree::of(poly.degree()))?;
    poly.substitute(element, &mut into);
    Ok(into)
}
