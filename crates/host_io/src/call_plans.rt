ghost use Rattle.std.specs.Prelude.{◌≡◌, ◌↔◌, Contains, IsTrue};
ghost use Rattle.host_io.specs.Count.{count_with_one_more};

use super::counts::Count;
use std::marker::Model;

/// Which calls fail, by their numbers from 1, and how many calls there were.
#[derive(Drop)]
pub struct CallPlan {
    fails: Vec<u64>,
    calls: Count,
}

impl Model for CallPlan {
    ghost use Rattle.host_io.specs.CallPlan.{PlannedCalls};

    ghost Value = { PlannedCalls };

    ghost view = { λ p. record { fails = p.fails.items; calls = p.calls } };
}

impl CallPlan {
    /// The calls of these numbers fail; there was none so far.
    pub fn new(fails: Vec<u64>) -> CallPlan
        ensures { result ≡ record { fails = fails.items; calls = 0 } }
    {
        CallPlan {
            fails,
            calls: Count::new(),
        }
    }

    /// Counts a call; true where it is to fail.
    pub fn is_failing(&mut self) -> bool
        ensures fails { IsTrue result ↔ Contains self.old.fails
            (count_with_one_more self.old.calls) }
        ensures calls { self.new
            ≡ record self.old { calls = count_with_one_more self.old.calls } }
    {
        self.calls.add_one();
        self.fails.contains(&self.calls.value())
    }
}
