//! The keys of a client.

ghost use Rattle.std.specs.Prelude.{◌≡◌};
ghost use Rattle.co_switch.specs.Keys.{AreKeys};

use crate::keys::GaloisKey;
use std::marker::Model;

/// The keys of the rotations, for the elements 3^(2^b) modulo 2n in the order of b, and those of
/// the expansions, for the elements n / 2^j + 1 in the order of j.
#[derive(Drop)]
pub struct KeySet {
    rotations: Vec<GaloisKey>,
    expansions: Vec<GaloisKey>,
}

impl Model for KeySet {
    ghost use Rattle.co_switch.specs.Keys.{Keys, AreKeys};

    ghost Value = { Keys };

    ghost view = { λ k. record { rotations = k.rotations.items; expansions = k.expansions.items } };

    ghost invariant = { λ k. AreKeys
        (record { rotations = k.rotations.items; expansions = k.expansions.items }) };
}

impl KeySet {
    /// The set of these keys.
    pub fn from_parts(rotations: Vec<GaloisKey>, expansions: Vec<GaloisKey>) -> KeySet
        requires { AreKeys (record { rotations = rotations.items; expansions = expansions.items }) }
        ensures { result ≡ record { rotations = rotations.items; expansions = expansions.items } }
    {
        KeySet {
            rotations,
            expansions,
        }
    }

    /// The log2(n / 2) keys of the rotations.
    pub fn rotations(&self) -> &[GaloisKey]
        ensures value { result.now ≡ self.now.rotations }
        ensures keys { AreKeys self.now }
    {
        &self.rotations
    }

    /// The keys of the expansions, at most log2 n.
    pub fn expansions(&self) -> &[GaloisKey]
        ensures value { result.now ≡ self.now.expansions }
        ensures keys { AreKeys self.now }
    {
        &self.expansions
    }
}
