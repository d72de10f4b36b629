//! Which calls of a kind fail.

ghost use Rattle.std.specs.Prelude.{◌≡◌};
ghost use Rattle.oemm_blobs.specs.Memory.{armed_with, fails_next, after_call};

use std::marker::Model;

/// The numbers of the calls that fail, counted from 1, and how many calls were made.
#[derive(Drop)]
pub struct Armed {
    numbers: Vec<u64>,
    calls: u64,
}

impl Model for Armed {
    ghost use Rattle.oemm_blobs.specs.Memory.{Armed as Numbers};

    ghost Value = { Numbers };

    ghost view = { λ a. record { numbers = a.numbers.items; calls = a.calls } };
}

impl Armed {
    /// The calls of these numbers fail from now on.
    pub fn with(numbers: Vec<u64>) -> Armed
        ensures { result ≡ armed_with numbers.items }
    {
        Armed { numbers, calls: 0 }
    }

    /// Counts one call, and answers whether it fails.
    pub fn fails(&mut self) -> bool
        ensures fails { result ≡ fails_next self.old }
        ensures after { self.new ≡ after_call self.old }
    {
        self.calls = self.calls.saturating_add(1);
        self.numbers.contains(&self.calls)
    }
}
