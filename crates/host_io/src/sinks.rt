ghost use Rattle.std.specs.Prelude.{◌≡◌, ◌<◌, ◌≤◌, ℕ, Bool, true, false, List, Option, length, take, IfOk, OnOk, OnErr};
ghost use Rattle.std.specs.Io.KnownBytes.{Keeps};
ghost use Rattle.host_io.specs.Count.{Rose};
ghost use Rattle.host_io.specs.Sink.{Appends};

use super::failures::Failed;

/// Where bytes go to.
pub trait Sink {
    // The bytes that were written, where the sink tells them.
    ghost written: { Self → Option (List ℕ) };

    // How often the sink has failed.
    ghost faults: { Self → ℕ };

    // Its last call was a `finish` that answered Ok.
    ghost is_finished: { Self → Bool };

    /// Takes bytes from the start of `bytes`, and answers how many.
    fn write(&mut self, bytes: &[u8]) -> Result<usize, Failed>
        ensures fits { IfOk result (λ n. n ≤ length bytes.now) }
        ensures some { IfOk result (λ n. 0 < length bytes.now → 0 < n) }
        ensures taken { IfOk result (λ n. Appends (written self.old) (take n bytes.now)
            (written self.new)) }
        ensures unfinished { is_finished self.new ≡ false }
        ensures steady { OnOk result (faults self.new ≡ faults self.old) }

        // A failure takes nothing and is counted.
        ensures kept { OnErr result (Keeps (written self.old) (written self.new)) }
        ensures failed { OnErr result (Rose (faults self.old) (faults self.new)) }
        ensures count { faults self.old ≤ faults self.new };

    /// Hands on all that was written.
    fn finish(&mut self) -> Result<(), Failed>
        ensures finished { OnOk result (is_finished self.new ≡ true) }
        ensures unfinished { OnErr result (is_finished self.new ≡ false) }
        ensures kept { Keeps (written self.old) (written self.new) }
        ensures steady { OnOk result (faults self.new ≡ faults self.old) }
        ensures failed { OnErr result (Rose (faults self.old) (faults self.new)) }
        ensures count { faults self.old ≤ faults self.new };
}
