//! A board and its passes.
ghost use Rattle.std.specs.Prelude.{◌≡◌, ◌≤◌, ◌<◌, ◌^◌, All, IfOk, length, map, [], ◌∷◌};
ghost use Rattle.co_board.specs.Once.{EachOnce};
ghost use Rattle.co_board.specs.Passes.{PassValue, HadNone, units_of, Claimed, pass_of, drawn_of, new_passes, fresh_passes, IsClosed};
ghost use Rattle.co_board.specs.Rule.{all_hands, first_hand};

use crate::rule::{Claimable, Deal, Draw, Hand, Limits};
use atomic_table::{Seat, Table};
use std::alloc::{AllocError, Global};
use std::collections::LinkedList;
use std::marker::Model;

/// The most workers of one job: the most passes of a board.
pub const MOST_WORKERS: u32 = 64;

type View = LinkedList<Hand>;

/// A word that counts up as its passes draw from it, and the number of units.
#[derive(Drop)]
pub struct Board {
    table: Table<(), View, Limits, Claimable, Global>,
    units: u64,
}

impl Model for Board {
    ghost use Rattle.std.specs.Prelude.{◌≡◌, ◌≤◌, ◌^◌};
    ghost use Rattle.co_board.specs.Passes.{BoardValue};
    ghost use Rattle.co_board.specs.declared.board.TheConstants.{MOST_WORKERS};

    ghost Value = { BoardValue };

    ghost view = { λ b. record {
      units = b.table.shared.key.units;
      seats = b.table.shared.key.seats;
      table = b.table.shared.table_id;
    } };

    ghost invariant = { λ b. (b.units ≡ b.table.shared.key.units) × (b.units ≤ 2 ^ 32)
        × (1 ≤ b.table.shared.key.seats) × (b.table.shared.key.seats ≤ MOST_WORKERS)
        × (b.table.shared.table_id.words ≡ 1) × (b.table.shared.table_id.slots ≡ 0) };
}

/// The right to claim units of one board.
#[derive(Drop)]
pub struct Pass {
    seat: Seat<(), View>,
    spent: bool,
}

impl Model for Pass {
    ghost use Rattle.std.specs.Prelude.{◌≡◌, [], ◌∷◌};
    ghost use Rattle.co_board.specs.Passes.{PassValue, pass_of, has_passed};
    ghost use Rattle.co_board.specs.Rule.{first_hand};

    ghost Value = { PassValue };

    ghost view = { λ p. pass_of p.seat.table_id (first_hand p.seat.me.0) };

    ghost invariant = { λ p. (p.seat.me ≡ (first_hand p.seat.me.0 ∷ [], []))
        × (p.spent ≡ has_passed (first_hand p.seat.me.0).limits.units
        (first_hand p.seat.me.0).drawn) };
}

/// A pass in the hand of a seat that carries one hand.
fn pass_with(seat: Seat<(), View>) -> Pass
    requires { (h : Hand) × (seat.me ≡ (h ∷ [], [])) × (h.drawn ≡ []) }
    ensures { result ≡ pass_of seat.table_id (first_hand seat.me.0) }
{
    Pass { seat, spent: false }
}

/// Gives the hands of the seat to passes, one each. The last one keeps the seat.
fn deal(
    alloc: Global,
    table: &Table<(), View, Limits, Claimable, Global>,
    mut seat: Seat<(), View>,
    limits: Limits,
) -> Result<Vec<Pass>, AllocError>
    requires some { 1 ≤ limits.seats }
    requires table { (seat.table_id ≡ table.now.shared.table_id) × (table.now.shared.key ≡ limits)
        × (table.now.shared.table_id.words ≡ 1) }
    requires hands { seat.me ≡ (all_hands limits, []) }
    ensures { IfOk result (λ passes. passes.items ≡ new_passes table.now.shared.table_id limits) }
{
    let mut passes = Vec::new(alloc);
    for number in 0..limits.seats - 1 {
        let _ = number;
        let next = table.shared.split_seat::<Deal>(&mut seat);
        passes.push(pass_with(next))?;
    }
    passes.push(pass_with(seat))?;
    Ok(passes)
}

impl Board {
    /// A board and its passes, in the order of their numbers.
    pub fn new(alloc: Global, units: u64, seats: u32) -> Result<(Board, Vec<Pass>), AllocError>
        requires units { units ≤ 2 ^ 32 }
        requires seats { (1 ≤ seats) × (seats ≤ MOST_WORKERS) }
        ensures { IfOk result (λ made. (made.0.units ≡ units) × (made.0.seats ≡ seats)
            × (made.1.items ≡ fresh_passes made.0)) }
    {
        let limits = Limits {
            units,
            seats: u64::from(seats),
        };
        let (table, seat) = Table::of_words(alloc, &[0], &limits)?;
        let passes = deal(alloc, &table, seat, limits)?;
        Ok((Board { table, units }, passes))
    }

    /// Draws the next number. The answer is None where it is no unit, and without a draw where the
    /// pass had None before.
    pub fn claim(&self, pass: &mut Pass) -> Option<u64>
        requires { pass.old.board ≡ self.now }
        ensures pass { (pass.new.board ≡ pass.old.board) × (pass.new.number ≡ pass.old.number) }
        ensures draws { Claimed self.now.units pass.old.drawn pass.new.drawn result }
    {
        if pass.spent {
            return None;
        }
        let number = self.table.shared.fetch_add::<Draw>(&mut pass.seat, 0, 1);
        if number < self.units {
            return Some(number);
        }
        pass.spent = true;
        None
    }

    /// The board's word. The passes are all those of the board.
    pub fn close(self, passes: Vec<Pass>) -> u64
        requires board { All (λ p. p.board ≡ self) passes.items }
        requires all { length passes.items ≡ self.seats }
        ensures state { IsClosed self passes.items result }
        ensures each_once { EachOnce result (map drawn_of passes.items) }
        ensures units { All (HadNone self.units) passes.items
            → EachOnce self.units (map (units_of self.units) passes.items) }
    {
        let Board { table, units: _ } = self;
        let mut rest = passes.into_iter();
        let Some(first) = rest.next() else {
            unreachable!()
        };
        let Pass {
            seat: mut kept,
            spent: _,
        } = first;
        for pass in rest {
            let Pass { seat, spent: _ } = pass;
            table.shared.join_seat::<Deal>(&mut kept, seat);
        }
        let closed = table.close_with(kept);
        let word = closed.word(0);
        closed.free();
        word
    }
}
