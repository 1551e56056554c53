//! Ciphertexts and plain polynomials by their values at the roots of -1, and sums of their
//! products.
//!
//! Model: a `CipherSpectrum` has the values of both parts of a ciphertext, `plain_spectrum` gives
//! those of a polynomial modulo t with its centred coefficients. A `CipherSum` is a sum of products
//! of both: 128 bits a value, reduced where it is read. So a sum of many products costs one
//! transform back for each part, and its ciphertext is that of the products one by one, bit for
//! bit. Not here: transforms (co_rns), what is multiplied and added (co_matvec, co_pir).
#![tactic(auto)]

mod sums;
mod values;

pub use sums::{CipherSum, values_of_one};
pub use values::{CipherSpectrum, plain_spectrum};
