//! The rule that the board's table keeps, and what its steps tell.

use atomic_table::{Join, Play, Split, TableRule};
use std::collections::LinkedList;

/// How many units and passes a board has.
#[derive(Clone, Copy)]
pub struct Limits {
    /// Units have the numbers below this one.
    pub units: u64,
    /// How many passes there are.
    pub seats: u64,
}

/// What a pass knows. No value of it is made.
pub struct Hand {
    /// Those of its board.
    pub limits: Limits,
    /// The pass's number.
    pub number: u64,
    /// The numbers that it drew, the first one first.
    pub drawn: LinkedList<u64>,
}

/// The rule that a board's states keep.
pub struct Claimable;

impl TableRule<(), LinkedList<Hand>, Limits> for Claimable {
    ghost use Rattle.co_board.specs.Rule.{Holds, all_hands};

    ghost holds = { Holds };

    ghost first = { all_hands };
}

/// A hand draws the word's next number.
pub struct Draw;

impl Play<(), LinkedList<Hand>> for Draw {
    ghost use Rattle.co_board.specs.Rule.{Drew};

    ghost then = { Drew };
}

/// A seat of several hands gives one away, or takes one in.
pub struct Deal;

impl Split<LinkedList<Hand>> for Deal {
    ghost use Rattle.co_board.specs.Rule.{front_hand, other_hands};

    ghost left = { other_hands };

    ghost right = { front_hand };
}

impl Join<LinkedList<Hand>> for Deal {
    ghost use Rattle.std.specs.Prelude.{[], ◌++◌};

    ghost both = { λ v w. v ++ w };

    ghost spent = { [] };
}
