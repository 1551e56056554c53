//! Laws of sums over units. Each function returns nothing: its contract is the law.

ghost use Rattle.std.specs.Prelude.{ℕ, ◌≡◌, ◌+◌, ◌*◌, ◌/◌, ◌%◌, ◌++◌, List};
ghost use Rattle.co_bfv.specs.Ciphertexts.{Ciphertext, ciphertext_sum};
ghost use Rattle.co_bfv.specs.Totals.{ciphertext_total};
ghost use Rattle.co_crew.specs.Crew.{IsEach};
ghost use Rattle.co_crew.specs.Sums.{units_total};

/// A sum over units that stand once each is the sum over all units, in whatever order.
pub fn order_makes_no_difference()
    ensures { (n : ℕ) (f : ℕ → Ciphertext) (units : ℕ) (us : List ℕ) → IsEach units us
        → units_total n f us ≡ ciphertext_total n units f }
{}

/// The sums of two workers, added, are the sum over the units of both.
pub fn sums_add_up()
    ensures { (n : ℕ) (f : ℕ → Ciphertext) (us vs : List ℕ)
        → ciphertext_sum (units_total n f us) (units_total n f vs) ≡ units_total n f (us ++ vs) }
{}

/// Where unit k * U + r has the terms r * Z to r * Z + Z - 1 of row k, all units have all terms.
pub fn units_are_rows()
    ensures { (n K U Z : ℕ) (g : ℕ → ℕ → Ciphertext)
        → ciphertext_total n (K * U) (λ unit. ciphertext_total n Z (λ j.
        g (unit / U) (unit % U * Z + j)))
        ≡ ciphertext_total n K (λ k. ciphertext_total n (U * Z) (g k)) }
{}
