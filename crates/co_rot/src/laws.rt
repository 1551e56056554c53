//! Laws of rotations. Each function returns nothing: its contract is the law.

ghost use Rattle.std.specs.Prelude.{ℕ, ◌≡◌, ◌<◌, ◌^◌, length};
ghost use Rattle.co_bfv.specs.Ciphertexts.{Ciphertext, IsCiphertext, ciphertext_degree};
ghost use Rattle.co_switch.specs.Keys.{Keys, AreKeys, keys_degree, rotation_key};
ghost use Rattle.co_switch.specs.Switches.{switched};
ghost use Rattle.co_rot.specs.Bits.{lowest_bit, parent_of};
ghost use Rattle.co_rot.specs.Rotations.{rotation, RotationsTurn};

/// The rotation by 0 is the ciphertext itself; any other is that of its parent, switched with the
/// key of the lowest set bit.
pub fn rotations_come_from_parents()
    ensures none { (keys : Keys) (c : Ciphertext) → rotation keys c 0 ≡ c }
    ensures one { (keys : Keys) (c : Ciphertext) (i : ℕ) → AreKeys keys → 0 < i
        → i < 2 ^ length keys.rotations
        → rotation keys c i
        ≡ switched (rotation_key keys (lowest_bit i)) (rotation keys c (parent_of i)) }
{}

/// A rotation by i means the message with X^(3^i) for X, at one switch of noise for each set bit.
pub fn rotations_turn_slots()
    ensures { (keys : Keys) (c : Ciphertext) → AreKeys keys → IsCiphertext c
        → ciphertext_degree c ≡ keys_degree keys → RotationsTurn keys c }
{}
