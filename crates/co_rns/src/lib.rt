//! Polynomials modulo X^n + 1 and q = q1 * q2, kept as two residues.
//!
//! Model: a `Pair` is the list of its n coefficients, the constant first, each below q.
//! Within, it is one polynomial modulo q1 and one modulo q2; `compose` gives a coefficient
//! from its two residues by the Chinese remainder formula, `split` takes residues.
//! A `PairSpectrum` has the values of both at the roots of -1, by `Tables` that are made once;
//! a `PairSum` is a sum of products of such values, reduced once. A `Decomposition` takes the
//! digits of a polynomial's coefficients into transforms.
//! `digit` gives the polynomial of one digit of each coefficient, which is its own residue;
//! the base and the number of digits are parameters of co_math.
//! Calls that write `into` or `self` take no memory and always succeed.
//! Not here: what a polynomial modulo q hides (co_bfv), keys made of digits (co_switch).
#![tactic(auto)]

mod decompositions;
pub mod laws;
mod pairs;
mod parts;
mod spectra;
mod sums;

pub use decompositions::Decomposition;
pub use pairs::Pair;
pub use spectra::{PairSpectrum, Tables, from_spectrum, small_to_spectrum, to_spectrum};
pub use sums::PairSum;
