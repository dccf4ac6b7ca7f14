ghost use Rattle.std.specs.Prelude.{◌≡◌};

use super::limits::{DEFAULT_INTERVAL, MAX_INTERVAL, MAX_MOMENT, MIN_INTERVAL};
use std::marker::Model;

/// Whether a pull is due.
#[derive(Clone, Copy, Debug, PartialEq, Eq)]
pub enum Due {
    /// At once.
    Now,
    /// In so many milliseconds.
    Early(u64),
    /// Only by force.
    Manual,
}

/// The interval that lies between two pulls, and the moment of the last one. After Microsoft's documentation of
/// `RTD.ThrottleInterval`: milliseconds, 2,000 at first; at 0 a pull is due at any moment, at -1 at none.
#[derive(Drop)]
pub struct Throttle {
    interval: i64,
    last: Option<u64>,
}

impl Model for Throttle {
    ghost use Rattle.std.specs.Prelude.{◌≤◌, int_le, IsTrue, IfSome};
    ghost use Rattle.throttle.specs.Pacing.{Pacing};
    ghost use Rattle.throttle.specs.declared.limits.TheConstants.{MAX_INTERVAL, MAX_MOMENT};

    ghost Value = { Pacing };

    ghost view = { λ t. record { interval = t.interval; last = t.last } };

    ghost invariant = { λ t. IsTrue (int_le t.interval MAX_INTERVAL)
        × IfSome t.last (λ last. last ≤ MAX_MOMENT) };
}

impl Throttle {
    ghost use Rattle.std.specs.Prelude.{◌≤◌, int_le, IsTrue, Some, None};
    ghost use Rattle.throttle.specs.Pacing.{due_by};
    ghost use Rattle.throttle.specs.declared.limits.TheConstants.{DEFAULT_INTERVAL, MAX_INTERVAL, MAX_MOMENT, MIN_INTERVAL};

    /// The interval at first, and no pull yet.
    pub fn new() -> Throttle
        ensures { result ≡ record { interval = DEFAULT_INTERVAL; last = None } }
    {
        Throttle {
            interval: DEFAULT_INTERVAL,
            last: None,
        }
    }

    /// Sets the interval. The moment of the last pull stays.
    pub fn set(&mut self, ms: i64)
        requires least { IsTrue (int_le MIN_INTERVAL ms) }
        requires greatest { IsTrue (int_le ms MAX_INTERVAL) }
        ensures { self.new ≡ record self.old { interval = ms } }
    {
        self.interval = ms;
    }

    /// Whether a pull at this moment is due.
    pub fn due(&self, now: u64) -> Due
        requires { now ≤ MAX_MOMENT }
        ensures { result ≡ due_by self.now.interval self.now.last now }
    {
        let Ok(interval) = u64::try_from(self.interval) else {
            return Due::Manual;
        };
        let Some(last) = self.last else {
            return Due::Now;
        };
        let end = last + interval;
        if interval > 0 && now < end {
            Due::Early(end - now)
        } else {
            Due::Now
        }
    }

    /// A pull was made at this moment. The interval stays.
    pub fn pulled(&mut self, now: u64)
        requires { now ≤ MAX_MOMENT }
        ensures { self.new ≡ record self.old { last = Some now } }
    {
        self.last = Some(now);
    }
}
