//! Which calls of an object in memory are to fail.
ghost use Rattle.std.specs.Prelude.{◌≡◌, []};
ghost use Rattle.co_link.specs.Calls.{calls_failing, is_to_fail, after_call};

use std::alloc::Global;
use std::marker::Model;

/// The numbers of the calls that are to fail, and the number of the next call. The calls of one
/// object count from 0, whether they fail or not.
#[derive(Debug, Drop)]
pub struct FailingCalls {
    numbers: Vec<u64>,
    next: u64,
}

impl Model for FailingCalls {
    ghost use Rattle.co_link.specs.Calls.{Calls};

    ghost Value = { Calls };

    ghost view = { λ c. record { failing = c.numbers.items; next = c.next } };
}

impl FailingCalls {
    /// The calls of these numbers are to fail.
    pub fn new(numbers: Vec<u64>) -> Self
        ensures { result ≡ calls_failing numbers.items }
    {
        FailingCalls { numbers, next: 0 }
    }

    /// No call is to fail. It takes no memory.
    pub fn none(alloc: Global) -> Self
        ensures { result ≡ calls_failing [] }
    {
        FailingCalls::new(Vec::new(alloc))
    }

    /// Counts a call, and says whether it is to fail.
    pub fn next_fails(&mut self) -> bool
        ensures value { result ≡ is_to_fail self.old }
        ensures counted { self.new ≡ after_call self.old }
    {
        let number = self.next;
        self.next = self.next.saturating_add(1);
        self.numbers.contains(&number)
    }
}
