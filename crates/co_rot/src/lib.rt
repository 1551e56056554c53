//! Rotations of the slots of a ciphertext.
//!
//! Model: the rotation by i is made from the one by i without its lowest set bit, by the key of
//! that bit; so it depends on the ciphertext, the keys and i alone. It means the message with
//! X^(3^i) for X: slot (h, j) is what slot (h, (j + i) mod n / 2) was, at one switch of noise for
//! each set bit of i.
//! The n / 2 rotations are cut into 2^u subtrees of 2^w rotations each. The *crown* is the first
//! rotation of each subtree; a *walk* shows a visitor the rotations of one subtree in order.
//! Not here: what a switch is and costs (co_switch), what slots are (co_slots), what rotations are
//! multiplied with (co_matvec).
#![tactic(auto)]

mod laws;
mod parents;
mod subtrees;
mod visitor;

pub use laws::{rotations_come_from_parents, rotations_turn_slots};
pub use parents::parent;
pub use subtrees::{crown, subtree_count, subtree_size, walk_subtree};
pub use visitor::Visitor;
