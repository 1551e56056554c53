//! Facts of slots. Each function returns nothing: its contract is the fact.

ghost use Rattle.std.specs.Prelude.{◌≡◌, ◌+◌, ◌*◌, ◌/◌, ◌%◌, ◌<◌, ℕ, List, length, pos};
ghost use Rattle.co_math.specs.Parameters.{plain_modulus};
ghost use Rattle.co_math.specs.Residues.{residue};
ghost use Rattle.co_math.specs.Powers.{power};
ghost use Rattle.co_math.specs.Polynomials.{plus, product};
ghost use Rattle.co_math.specs.Coefficients.{coefficients, AreBelow, AreResidues, IsDegree};
ghost use Rattle.co_math.specs.Coefficients.{IsSubstituted};
ghost use Rattle.co_slots.specs.Slots.{slot, AreSlots};
ghost use Rattle.co_slots.specs.Payloads.{IsPayload};

use crate::slots::SlotTable;

/// No two polynomials have the same slots.
pub fn one_polynomial()
    ensures { (xs ys slots : List ℕ) → IsDegree (length xs) → AreBelow plain_modulus xs
        → AreBelow plain_modulus ys
        → AreSlots xs slots → AreSlots ys slots → xs ≡ ys }
{}

/// The slots of a sum are the sums of the slots.
pub fn sums()
    ensures { (xs ys zs : List ℕ) (p : ℕ) → length ys ≡ length xs
        → AreResidues plain_modulus (length xs) (plus (coefficients xs) (coefficients ys)) zs
        → slot zs p ≡ (slot xs p + slot ys p) % plain_modulus }
{}

/// The slots of a negacyclic product are the products of the slots.
pub fn products()
    ensures { (xs ys zs : List ℕ) (p : ℕ) → IsDegree (length xs) → length ys ≡ length xs
        → AreResidues plain_modulus (length xs)
        (product (length xs) (coefficients xs) (coefficients ys)) zs
        → slot zs p ≡ slot xs p * slot ys p % plain_modulus }
{}

/// X to X^(3^i) moves slot j + i modulo n/2 to slot j in both rows.
pub fn turns()
    ensures first_row { (i j : ℕ) (xs ys : List ℕ) → IsDegree (length xs)
        → IsSubstituted plain_modulus (residue (2 * length xs) (power (pos 3) i)) xs ys
        → j < length xs / 2
        → slot ys j ≡ slot xs ((j + i) % (length xs / 2)) }
    ensures second_row { (i j : ℕ) (xs ys : List ℕ) → IsDegree (length xs)
        → IsSubstituted plain_modulus (residue (2 * length xs) (power (pos 3) i)) xs ys
        → j < length xs / 2
        → slot ys (length xs / 2 + j) ≡ slot xs (length xs / 2 + (j + i) % (length xs / 2)) }
{}

/// A payload's bytes give its coefficients, and its coefficients give its bytes.
pub fn payloads()
    ensures one_polynomial { (bytes coeffs others : List ℕ) → IsPayload bytes coeffs
        → IsPayload bytes others → coeffs ≡ others }
    ensures one_text { (bytes others coeffs : List ℕ) → IsPayload bytes coeffs
        → IsPayload others coeffs → bytes ≡ others }
{}

/// A table of slots may be handed to other threads, and shared.
pub fn threads(table: &SlotTable) {
    crosses(table);
}

fn crosses<T: Send + Sync>(_value: &T) {}
