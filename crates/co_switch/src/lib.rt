//! Galois automorphisms of ciphertexts: X to X^g, and a key switch from s(X^g) back to s, at a
//! cost in noise.
//!
//! Model: a `GaloisKey` is six pairs of polynomials modulo q for a Galois element g. It is *good*
//! for a secret s where each pair hides W^j * s(X^g) with an error of at most 21. A `KeySet` is
//! the keys of the rotations and of the expansions of one degree, in order.
//! `apply` is the only call of the product that switches keys, and counts one step on a `Steps`.
//! Not here: which rotations are wanted (co_rot), expansions (co_pir), the wire form of a key
//! (co_wire).
#![tactic(auto)]

mod galois;
mod key_sets;
mod keys;
mod making;
mod products;
mod steps;
mod switching;

pub use galois::{expansion_element, rotation_element};
pub use key_sets::KeySet;
pub use keys::GaloisKey;
pub use making::{make_key, make_keys};
pub use steps::Steps;
pub use switching::apply;
