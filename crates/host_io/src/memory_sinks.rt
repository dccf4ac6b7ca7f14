ghost use Rattle.std.specs.Prelude.{◌≡◌, ◌+◌, ◌-◌, ◌<◌, ◌≤◌, ◌⊎◌, true, false, [], Some, length, take, min, Contains, IsErr, IsTrue, ◌↔◌, ◌++◌, IfOk, OnOk, OnErr};
ghost use Rattle.std.specs.Io.KnownBytes.{Keeps};
ghost use Rattle.host_io.specs.Count.{Rose, count_with_one_more};
ghost use Rattle.host_io.specs.Sink.{Appends};

use super::call_plans::CallPlan;
use super::counts::Count;
use super::failures::Failed;
use super::sinks::Sink;
use std::alloc::{AllocError, Global};
use std::marker::Model;

/// A sink in memory, which tells what was written. It takes bytes in pieces, and fails the calls
/// that it was told to fail and those for whose bytes there is no memory.
#[derive(Drop)]
pub struct MemorySink {
    bytes: Vec<u8>,
    piece: usize,
    plan: CallPlan,
    faults: Count,
    finished: bool,
}

impl Model for MemorySink {
    ghost use Rattle.std.specs.Prelude.{◌-◌, ◌<◌, vec_len, vec_capacity};
    ghost use Rattle.host_io.specs.Sink.{MemoryOutput};

    ghost Value = { MemoryOutput };

    ghost view = { λ s. record {
      written = s.bytes.items;
      room = vec_capacity s.bytes - vec_len s.bytes;
      piece = s.piece;
      fails = s.plan.fails;
      calls = s.plan.calls;
      faults = s.faults;
      finished = s.finished;
    } };

    ghost invariant = { λ s. 0 < s.piece };
}

impl MemorySink {
    /// A sink that takes at most `piece` bytes a call and fails the calls whose numbers stand in
    /// `fails`. Those of `write` and `finish` are counted together, from 1.
    pub fn new(alloc: Global, piece: usize, fails: Vec<u64>) -> MemorySink
        requires { 0 < piece }
        ensures { result ≡ record {
          written = [];
          room = result.room;
          piece = piece;
          fails = fails.items;
          calls = 0;
          faults = 0;
          finished = false;
        } }
    {
        MemorySink {
            bytes: Vec::new(alloc),
            piece,
            plan: CallPlan::new(fails),
            faults: Count::new(),
            finished: false,
        }
    }

    /// Makes room for so many bytes more. A write that fits into the room that there is fails only
    /// where it was told to.
    pub fn reserve(&mut self, count: usize) -> Result<(), AllocError>
        ensures room { OnOk result (count ≤ self.new.room) }
        ensures kept { self.new ≡ record self.old { room = self.new.room } }
    {
        self.bytes.reserve(count)
    }

    /// The bytes that were written.
    pub fn written(&self) -> &[u8]
        ensures { result.now ≡ self.now.written }
    {
        &self.bytes
    }

    /// Counts a call; true where it is to fail.
    fn is_failing(&mut self) -> bool
        ensures fails { IsTrue result ↔ Contains self.old.fails
            (count_with_one_more self.old.calls) }
        ensures after { self.new
            ≡ record self.old { calls = count_with_one_more self.old.calls; finished = false } }
    {
        self.finished = false;
        self.plan.is_failing()
    }

    /// Counts a failure.
    fn fail(&mut self) -> Failed
        ensures after { self.new
            ≡ record self.old { faults = count_with_one_more self.old.faults } }
        ensures rises { self.old.faults ≤ self.new.faults }
    {
        self.faults.add_one();
        Failed
    }
}

impl Sink for MemorySink {
    ghost written = { λ s. Some s.written };

    ghost faults = { λ s. s.faults };

    ghost is_finished = { λ s. s.finished };

    fn write(&mut self, bytes: &[u8]) -> Result<usize, Failed>
        ensures fits { IfOk result (λ n. n ≤ length bytes.now) }
        ensures some { IfOk result (λ n. 0 < length bytes.now → 0 < n) }
        ensures taken { IfOk result (λ n. Appends (Some self.old.written) (take n bytes.now)
            (Some self.new.written)) }
        ensures unfinished { self.new.finished ≡ false }
        ensures steady { OnOk result (self.new.faults ≡ self.old.faults) }
        ensures kept { OnErr result (Keeps (Some self.old.written) (Some self.new.written)) }
        ensures failed { OnErr result (Rose self.old.faults self.new.faults) }
        ensures count { self.old.faults ≤ self.new.faults }

        // A call that was to fail fails; another fails only where its bytes are more than there is
        // room for.
        ensures fails { Contains self.old.fails (count_with_one_more self.old.calls)
            → IsErr result }
        ensures only { OnErr result (Contains self.old.fails (count_with_one_more self.old.calls)
            ⊎ (self.old.room < min self.old.piece (length bytes.now))) }
        ensures most { IfOk result (λ n. n ≡ min self.old.piece (length bytes.now)) }
        ensures after { IfOk result (λ n. self.new
            ≡ record self.old {
              written = self.old.written ++ take n bytes.now;
              room = self.new.room;
              calls = count_with_one_more self.old.calls;
              finished = false;
            }) }
        ensures room { IfOk result (λ n. self.old.room ≤ self.new.room + n) }
        ensures after_failure { OnErr result
            (self.new
            ≡ record self.old {
              room = self.new.room;
              calls = count_with_one_more self.old.calls;
              faults = count_with_one_more self.old.faults;
              finished = false;
            }) }
    {
        if self.is_failing() {
            return Err(self.fail());
        }
        let count = self.piece.min(bytes.len());
        if self.bytes.extend_from_slice(&bytes[..count]).is_err() {
            return Err(self.fail());
        }
        Ok(count)
    }

    fn finish(&mut self) -> Result<(), Failed>
        ensures finished { OnOk result (self.new.finished ≡ true) }
        ensures unfinished { OnErr result (self.new.finished ≡ false) }
        ensures kept { Keeps (Some self.old.written) (Some self.new.written) }
        ensures steady { OnOk result (self.new.faults ≡ self.old.faults) }
        ensures failed { OnErr result (Rose self.old.faults self.new.faults) }
        ensures count { self.old.faults ≤ self.new.faults }

        ensures fails { IsErr result ↔ Contains self.old.fails
            (count_with_one_more self.old.calls) }
        ensures after { OnOk result
            (self.new
            ≡ record self.old { calls = count_with_one_more self.old.calls; finished = true }) }
        ensures after_failure { OnErr result
            (self.new
            ≡ record self.old {
              calls = count_with_one_more self.old.calls;
              faults = count_with_one_more self.old.faults;
              finished = false;
            }) }
    {
        if self.is_failing() {
            return Err(self.fail());
        }
        self.finished = true;
        Ok(())
    }
}
