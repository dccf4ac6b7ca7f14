ghost use Rattle.std.specs.Prelude.{◌≡◌, ◌<◌, ◌≤◌, ◌↔◌, Some, length, take, min, Contains, IsErr, IfOk, OnOk, OnErr};
ghost use Rattle.std.specs.Io.KnownBytes.{Consumes, Keeps, IsAtEnd};
ghost use Rattle.host_io.specs.Count.{count_with_one_more, Rose};

use super::call_plans::CallPlan;
use super::counts::Count;
use super::failures::Failed;
use super::sources::Source;
use std::marker::Model;

/// A source in memory, which tells its bytes. It gives them in pieces, and fails the calls that it
/// was told to fail.
#[derive(Drop)]
pub struct MemorySource {
    bytes: Vec<u8>,
    start: usize,
    piece: usize,
    plan: CallPlan,
    faults: Count,
}

impl Model for MemorySource {
    ghost use Rattle.std.specs.Prelude.{◌<◌, ◌≤◌, drop, length};
    ghost use Rattle.host_io.specs.Source.{MemoryInput};

    ghost Value = { MemoryInput };

    ghost view = { λ s. record {
      left = drop s.start s.bytes.items;
      piece = s.piece;
      fails = s.plan.fails;
      calls = s.plan.calls;
      faults = s.faults;
    } };

    ghost invariant = { λ s. (s.start ≤ length s.bytes.items) × (0 < s.piece) };
}

impl MemorySource {
    /// A source that gives at most `piece` bytes a call and fails the calls, counted from 1, whose
    /// numbers stand in `fails`.
    pub fn new(bytes: Vec<u8>, piece: usize, fails: Vec<u64>) -> MemorySource
        requires { 0 < piece }
        ensures { result ≡ record {
          left = bytes.items;
          piece = piece;
          fails = fails.items;
          calls = 0;
          faults = 0;
        } }
    {
        MemorySource {
            bytes,
            start: 0,
            piece,
            plan: CallPlan::new(fails),
            faults: Count::new(),
        }
    }
}

impl Source for MemorySource {
    ghost remaining = { λ s. Some s.left };

    ghost faults = { λ s. s.faults };

    fn read(&mut self, buf: &mut [u8]) -> Result<usize, Failed>
        ensures fits { IfOk result (λ n. n ≤ length buf.new) }
        ensures given { IfOk result (λ n. Consumes (Some self.old.left) (Some self.new.left)
            (take n buf.new)) }
        ensures end { result ≡ Ok 0 → 0 < length buf.new → IsAtEnd (Some self.new.left) }
        ensures steady { OnOk result (self.new.faults ≡ self.old.faults) }
        ensures kept { OnErr result (Keeps (Some self.old.left) (Some self.new.left)) }
        ensures failed { OnErr result (Rose self.old.faults self.new.faults) }
        ensures count { self.old.faults ≤ self.new.faults }

        ensures fails { IsErr result ↔ Contains self.old.fails
            (count_with_one_more self.old.calls) }
        ensures most { IfOk result (λ n. n ≡ min self.old.piece
            (min (length buf.old) (length self.old.left))) }
        ensures calls { self.new.calls ≡ count_with_one_more self.old.calls }
        ensures settings { (self.new.piece ≡ self.old.piece) × (self.new.fails ≡ self.old.fails) }

        // A failure is counted once, and all but the two counts stays.
        ensures after_failure { OnErr result
            (self.new
            ≡ record self.old {
              calls = count_with_one_more self.old.calls;
              faults = count_with_one_more self.old.faults;
            }) }
    {
        if self.plan.is_failing() {
            self.faults.add_one();
            return Err(Failed);
        }
        let left = self.bytes.len() - self.start;
        let count = self.piece.min(buf.len().min(left));
        let end = self.start + count;
        buf[..count].copy_from_slice(&self.bytes[self.start..end]);
        self.start = end;
        Ok(count)
    }
}
