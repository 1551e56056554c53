//! Where the random words of a case come from: words that it lists, with zeros behind them, or
//! SplitMix64.

ghost use Rattle.rand_core.specs.Steps.{stream_of, steps_u64_low};
ghost use Rattle.coeus_vectors.specs.Given.{next_of};

use crate::cases::{BadCase, Case};
use crate::{bfv, switch};
use rand_core::utils::NextWord;
use rand_core::{Rng, SeedableRng, utils};
use rand_xoshiro::SplitMix64;
use std::marker::Model;

/// A number that tells how far a generator has gone.
pub trait Stand: Rng {
    fn stand(&self) -> u64;
}

/// Given words, and then zeros. A contract sees the words that are left.
#[derive(Drop)]
pub struct Given<'a> {
    left: &'a [u64],
    taken: u64,
}

impl<'a> Model for Given<'a> {
    ghost use Rattle.std.specs.Prelude.{ℕ, List};

    ghost Value = { List ℕ };

    ghost view = { λ g. g.left.now };
}

impl<'a> Given<'a> {
    /// A generator that gives these words, and then zeros.
    pub fn new(words: &'a [u64]) -> Self {
        Given {
            left: words,
            taken: 0,
        }
    }
}

impl<'a> NextWord<u64> for Given<'a> {
    ghost step = { next_of };

    fn next_word(&mut self) -> u64 {
        self.taken = self.taken.wrapping_add(1);
        match self.left {
            [word, rest @ ..] => {
                self.left = rest;
                *word
            }
            [] => 0,
        }
    }
}

impl<'a> Rng for Given<'a> {
    ghost stream = { stream_of (steps_u64_low next_of) };

    fn next_u32(&mut self) -> u32 {
        (self.next_word() % 4_294_967_296) as u32
    }

    fn next_u64(&mut self) -> u64 {
        self.next_word()
    }

    fn fill_bytes(&mut self, dst: &mut [u8]) {
        utils::fill_bytes_via_u64(self, dst)
    }
}

impl<'a> Stand for Given<'a> {
    /// The words taken.
    fn stand(&self) -> u64 {
        self.taken
    }
}

impl Stand for SplitMix64 {
    /// The next word.
    fn stand(&self) -> u64 {
        SplitMix64::from_seed(self.state()).next_u64()
    }
}

/// Moves a generator on by so many words.
pub fn skip<R: Rng>(rng: &mut R, words: u32) {
    for _ in 0..words {
        rng.next_u64();
    }
}

/// The line of a case whose words come from its stream.
pub fn line(layer: &str, case: Case) -> Result<String, BadCase> {
    match case.text("stream") {
        "given" => {
            let words = case.words("words")?;
            line_of(layer, case, &mut Given::new(&words))
        }
        seed => {
            let mut words = SplitMix64::seed_from_u64(seed.parse().unwrap_or(0));
            line_of(layer, case, &mut words)
        }
    }
}

fn line_of<R: Stand>(layer: &str, case: Case, rng: &mut R) -> Result<String, BadCase> {
    match layer {
        "bfv" => bfv::line(case, rng),
        _ => switch::line(case, rng),
    }
}
