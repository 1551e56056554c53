//! Workers that claim the units of a board, each with a sum of its own, of any type.
//!
//! Model: a `Work` says what each unit adds to a sum and in how many steps. `fan_out` gives the sum
//! of all units, each added once, in some order. Where the order makes no difference to a sum, so
//! do the number of workers, the gate and the schedule.
//! Not here: what units and sums are (co_matvec, co_pir), how units are drawn (co_board).
#![tactic(auto)]

mod crew;
mod laws;
mod sums;
mod work;

pub use crew::fan_out;
pub use laws::{order_makes_no_difference, sums_add_up, units_are_rows};
pub use sums::add_each;
pub use work::Work;
