//! Plain mathematics of the scheme: definitions and lemmas, stated once for the crates above.
//!
//! `specs` has the definitions: residues and congruence, sums over a range, polynomials
//! modulo X^n + 1 as antiperiodic functions on the integers, lists of coefficients, powers
//! and roots, values, digits, logarithms, centred numbers and noise, and the numbers of the scheme.
//! `proofs` has the laws: of sums (split, shift, reverse, exchange, re-index), of the ring
//! (product, substitution, bounds), of roots and values, and that contracts on lists of
//! residues have one list.
//! The numbers of the scheme are constants, each here alone; `laws` has facts of numbers as
//! contracts.
//! Not here: any type of the scheme (co_ring and above).
#![tactic(auto)]

pub mod laws;
mod parameters;
mod sizes;

pub use parameters::{
    CIPHER_MODULUS, DIGIT_BASE, DIGIT_BITS, DIGIT_COUNT, ERROR_BOUND, FIRST_MODULUS,
    INVERSE_OF_FIRST, LEAST_DEGREE, LEAST_EXPONENT, MOST_DEGREE, MOST_EXPONENT, PLAIN_MODULUS,
    SECOND_MODULUS,
};
pub use sizes::{is_degree, log2_up};
