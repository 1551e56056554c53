//! A board of numbers that several passes draw.

use crate::cases::{BadCase, Case};
use crate::lines::{put, put_text};
use co_board::Board;
use std::alloc::AllocError;

/// The line of a case, behind the name of its call.
pub fn line(case: Case) -> Result<String, BadCase> {
    let mut line = String::new(case.alloc);
    match case.call() {
        "draws" => put_draws(&mut line, case)?,
        _ => return Err(BadCase::Unfit),
    }
    Ok(line)
}

/// What two passes draw in turn of a board of three units, the first once more at the end, and the
/// board's word.
fn put_draws(line: &mut String, case: Case) -> Result<(), AllocError> {
    let (board, mut passes) = Board::new(case.alloc, 3, 2)?;
    let first = board.claim(&mut passes[0]);
    let second = board.claim(&mut passes[1]);
    let third = board.claim(&mut passes[0]);
    let fourth = board.claim(&mut passes[1]);
    let fifth = board.claim(&mut passes[0]);
    let again = board.claim(&mut passes[0]);
    let word = board.close(passes);
    for drawn in [first, second, third, fourth, fifth, again] {
        put_drawn(line, drawn)?;
    }
    put(line, word as u128)
}

fn put_drawn(line: &mut String, drawn: Option<u64>) -> Result<(), AllocError> {
    match drawn {
        Some(unit) => put(line, unit as u128),
        None => put_text(line, "-"),
    }
}
