//! The count of key switches.

ghost use Rattle.std.specs.Prelude.{◌≡◌};
ghost use Rattle.co_switch.specs.Steps.{raised};

use std::marker::{Brand, Model, PhantomData};

/// How many key switches were made. The mark `L` tells one caller's count from another's.
/// A count stays at 2^64 - 1 once it is there.
#[derive(Drop)]
pub struct Steps<L> {
    count: u64,
    mark: PhantomData<L>,
}

impl<L> Model for Steps<L> {
    ghost use Rattle.std.specs.Prelude.{ℕ};

    ghost Value = { ℕ };

    ghost view = { λ s. s.count };
}

// Only a number is sent: the mark is no data.
unsafe impl<L> Send for Steps<L> {}

impl Steps<Brand> {
    /// A count of none.
    pub fn begin() -> Steps<Brand>
        ensures { result ≡ 0 }
    {
        Steps {
            count: 0,
            mark: PhantomData,
        }
    }
}

impl<L> Steps<L> {
    /// A count of none for one worker of the same caller.
    pub fn part(&self) -> Steps<L>
        ensures { result ≡ 0 }
    {
        Steps {
            count: 0,
            mark: PhantomData,
        }
    }

    /// Adds what a worker counted.
    #[tactic(auto, unfolding(crate::specs::Steps::raised))]
    pub fn take_in(&mut self, part: Steps<L>)
        ensures { self.new ≡ raised self.old part }
    {
        self.count = self.count.saturating_add(part.count);
    }

    /// One key switch. Only `apply` calls it.
    #[tactic(auto, unfolding(crate::specs::Steps::raised))]
    pub(crate) fn step(&mut self)
        ensures { self.new ≡ raised self.old 1 }
    {
        self.count = self.count.saturating_add(1);
    }
}
