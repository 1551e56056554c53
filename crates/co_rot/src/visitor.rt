//! Who is shown rotations.

ghost use Rattle.std.specs.Prelude.{ℕ, ◌≡◌, ◌<◌, ◌/◌, OnOk};
ghost use Rattle.co_bfv.specs.Ciphertexts.{Ciphertext, ciphertext_degree};

use co_bfv::Cipher;
use std::alloc::AllocError;

/// Is shown the rotations of a ciphertext, one after another.
pub trait Visitor {
    /// What a visit of a rotation, by its number and its ciphertext, makes of a state.
    ghost visits: { Self → ℕ → Ciphertext → Self → Type 0 };

    /// The degree of the ciphertexts that it is shown.
    ghost degree: { Self → ℕ };

    /// After want of memory the state isn't stated.
    fn visit(&mut self, rotation: u32, cipher: &Cipher) -> Result<(), AllocError>
        requires rotation { rotation < degree self.old / 2 }
        requires degree { ciphertext_degree cipher.now ≡ degree self.old }
        ensures visits { OnOk result (visits self.old rotation cipher.now self.new) }
        ensures degree { OnOk result (degree self.new ≡ degree self.old) };
}
