//! The encryption scheme of Fan and Vercauteren: draws, encryption, decryption, and sums of
//! ciphertexts.
//!
//! Model: a `Cipher` is two polynomials modulo q. It *means* a polynomial m modulo t within b under
//! a secret, where the noise of each coefficient is at most b. A fresh one means its message within
//! F = 21 * t + 32768, and decryption gives m wherever twice the noise stays below q.
//! Every random value is a function of the generator's stream of words.
//! A `Secret` keeps its values at the roots of -1, and the tables of the transforms, for its
//! products.
//! Not here: substitutions and their key switches (co_switch), what a message spells (co_slots),
//! which bounds the product meets (co_noise). No code computes a noise.
#![tactic(auto)]

mod ciphers;
mod draws;
mod encryption;
mod secrets;
mod signed;

pub use ciphers::Cipher;
pub use draws::{sample_error, sample_secret, sample_uniform};
pub use encryption::{decrypt, encrypt};
pub use secrets::Secret;
