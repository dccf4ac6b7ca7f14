ghost use Rattle.std.specs.Prelude.{◌≡◌, ◌≤◌};
ghost use Rattle.host_io.specs.Count.{count_with_one_more};

use std::marker::Model;

/// A count that stops at the greatest u64.
#[derive(Drop)]
pub struct Count {
    count: u64,
}

impl Model for Count {
    ghost use Rattle.std.specs.Prelude.{ℕ};

    ghost Value = { ℕ };

    ghost view = { λ c. c.count };
}

impl Count {
    /// A count of nothing.
    pub fn new() -> Count
        ensures { result ≡ 0 }
    {
        Count { count: 0 }
    }

    /// Counts one more.
    pub fn add_one(&mut self)
        ensures count { self.new ≡ count_with_one_more self.old }
        ensures rises { self.old ≤ self.new }
    {
        self.count = self.count.saturating_add(1);
    }

    /// How many were counted.
    pub fn value(&self) -> u64
        ensures { result ≡ self.now }
    {
        self.count
    }
}
