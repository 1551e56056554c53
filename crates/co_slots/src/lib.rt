//! Polynomials modulo t as slots, and as payload bytes.
//!
//! Slot (0, j) is the value at zeta^(3^j) and slot (1, j) that at zeta^(-3^j), where zeta is
//! the root modulo t and 0 <= j < n/2; a list of slots has the first row before the second.
//! A payload has two bytes a coefficient, the high byte first.
//! A `SlotTable` goes both ways by the transform modulo t, with tables that are made once;
//! `encode_slots` gives the one polynomial that has the slots, `decode_slots` its slots;
//! `laws` has what sums, products and substitutions do to slots, and that slots and bytes
//! each belong to one polynomial.
//! Not here: what the slots are used for (co_matvec), which bytes are sent (co_pir).
#![tactic(auto)]

pub mod laws;
mod payloads;
mod slots;

pub use payloads::{ByteFault, decode_bytes, encode_bytes};
pub use slots::{SlotTable, decode_slots, encode_slots};
