//! A gate that keeps what it is told, and may hold a unit.

use crate::cases::Case;
use crate::lines::{put, put_text};
use co_board::Gate;
use std::alloc::AllocError;
use std::sync::atomic::AtomicU64;
use std::sync::atomic::Ordering::SeqCst;
use std::thread;

const TURNS: u32 = 1_000_000;

/// How many units begin beside the one that is held.
const OTHERS: u64 = 3;

/// Holds one unit until the others have begun, for at most `TURNS` turns.
#[derive(Drop)]
pub struct Watch {
    held: u64,
    digits: AtomicU64,
    begun: AtomicU64,
    ran_out: AtomicU64,
}

impl Watch {
    /// Holds the unit that a case says, or none.
    pub fn of(case: Case) -> Watch {
        Watch {
            held: case.text("held").parse().unwrap_or(u64::MAX),
            digits: AtomicU64::new(0),
            begun: AtomicU64::new(0),
            ran_out: AtomicU64::new(0),
        }
    }

    /// The units in the order in which they began, from 1, as the digits of a number; or whether
    /// the others began while one was held.
    pub fn put(&self, line: &mut String, call: &str) -> Result<(), AllocError> {
        match call {
            "order" => put(line, self.digits.load(SeqCst) as u128),
            "held" if self.ran_out.load(SeqCst) != 0 => put_text(line, "ran out"),
            "held" => put_text(line, "let go"),
            _ => Ok(()),
        }
    }

    fn keep(&self, unit: u64) {
        let before = self.digits.load(SeqCst).wrapping_mul(10);
        self.digits
            .store(before.wrapping_add(unit).wrapping_add(1), SeqCst);
    }

    fn hold(&self) {
        for _ in 0..TURNS {
            if self.begun.load(SeqCst) == OTHERS {
                return;
            }
            thread::yield_now();
        }
        self.ran_out.store(1, SeqCst);
    }
}

impl Gate for Watch {
    fn begin(&self, unit: u64) {
        self.keep(unit);
        if unit == self.held {
            self.hold();
        } else {
            self.begun.fetch_add(1, SeqCst);
        }
    }
}
