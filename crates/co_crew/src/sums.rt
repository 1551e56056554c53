//! Sums of ciphertexts that workers have, place by place.

ghost use Rattle.std.specs.Prelude.{ℕ, ◌≡◌, ◌<◌, length};
ghost use Rattle.co_bfv.specs.Ciphertexts.{ciphertext_degree};
ghost use Rattle.co_bfv.specs.Totals.{ciphertext_at};
ghost use Rattle.co_crew.specs.Sums.{AreAdded};

use co_bfv::Cipher;

/// Adds to each ciphertext the one at its place among others. It takes no memory.
pub fn add_each(sums: &mut [Cipher], others: &[Cipher])
    requires count { length others.now ≡ length sums.old }
    requires degrees { (a : ℕ) → a < length sums.old
        → ciphertext_degree (ciphertext_at others.now a)
        ≡ ciphertext_degree (ciphertext_at sums.old a) }
    ensures { AreAdded sums.old others.now sums.new }
{
    for a in 0..sums.len() {
        sums[a].add_in(&others[a]);
    }
}
