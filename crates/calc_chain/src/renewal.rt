//! New labels for entries that stand too close.

ghost use Rattle.std.specs.Prelude.{◌≡◌, ◌≢◌, ◌+◌, ◌*◌, ◌<◌, ◌^◌, ℕ, List, true, false, length, IfSome};
ghost use Rattle.std.specs.List.{IsDistinct};
ghost use Rattle.std.specs.Prelude.{nat_eq};
ghost use Rattle.calc_chain.specs.Chain.{has};
ghost use Rattle.calc_chain.specs.declared.slots.TheConstants.{END};
ghost use Rattle.calc_chain.specs.Linking.{Fits, HasRoomBehind, IsCrowd, IsStep, Keeps, Relabels, after_of, label_of, walk};

use super::linking::WIDE;
use super::slots::{END, Slots};

/// Entries directly behind another that are to get new labels.
#[derive(Clone, Copy)]
pub struct Crowd {
    /// How many they are.
    pub count: u64,
    /// How far apart their new labels are.
    pub step: u64,
}

impl Slots {
    /// Makes room for a label directly behind an entry's. There are so many entries. Those behind it get new labels, evenly
    /// spread, as far as the first place with room for the square of their number; so many inserts come before a label is
    /// renewed again. Where the labels end before, all entries get new ones.
    pub fn make_room_behind(&mut self, y: u32, entries: usize)
        requires { (xs : List ℕ) × Keeps self.old xs × (has xs y ≡ true) × (length xs ≡ entries) }
        ensures kept { (xs : List ℕ) → Keeps self.old xs → Keeps self.new xs }
        ensures room { HasRoomBehind self.new y }
        ensures size { length self.new.slots.items ≡ length self.old.slots.items }
    {
        match self.crowd_behind(y) {
            Some(crowd) => self.spread(y, crowd),
            None => self.renew_all(entries as u64),
        }
    }

    /// The entries behind another that are to get new labels; None where the labels end before there is room.
    fn crowd_behind(&self, y: u32) -> Option<Crowd>
        requires { (xs : List ℕ) × Keeps self.now xs × (has xs y ≡ true) }
        ensures { IfSome result (λ crowd. IsCrowd self.now y crowd.count crowd.step) }
    {
        let low = self.at(y).label;
        let mut count = 0;
        let mut next = self.at(y).after;
        'entries: while next != END {
            let gap = self.at(next).label - low;
            if let Some(step) = step_within(gap, count) {
                return Some(Crowd { count, step });
            }
            count += 1;
            next = self.at(next).after;
        }
        let step = step_within(u64::MAX - low, count)?;
        Some(Crowd { count, step })
    }

    /// Gives the entries of a crowd behind another their new labels.
    fn spread(&mut self, y: u32, crowd: Crowd)
        requires kept { (xs : List ℕ) × Keeps self.old xs × (has xs y ≡ true) }
        requires crowd { IsCrowd self.old y crowd.count crowd.step }
        ensures kept { (xs : List ℕ) → Keeps self.old xs → Keeps self.new xs }
        ensures room { HasRoomBehind self.new y }
        ensures size { length self.new.slots.items ≡ length self.old.slots.items }
    {
        let slot = self.at(y);
        self.relabel(slot.after, crowd.count, slot.label, crowd.step);
    }

    /// Gives all entries, which are so many, new labels.
    fn renew_all(&mut self, count: u64)
        requires { (xs : List ℕ) × Keeps self.old xs × (length xs ≡ count) }
        ensures kept { (xs : List ℕ) → Keeps self.old xs → Keeps self.new xs }
        ensures room { (xs : List ℕ) (y : ℕ) → Keeps self.old xs → has xs y ≡ true
            → HasRoomBehind self.new y }
        ensures size { length self.new.slots.items ≡ length self.old.slots.items }
    {
        let first = self.at(END).after;
        self.relabel(first, count, 0, WIDE);
    }

    /// Gives so many entries from one on labels that lie one step apart each, from a label on.
    fn relabel(&mut self, first: u32, count: u64, low: u64, step: u64)
        requires fits { (q : ℕ) → has (walk (after_of self.old) count first) q ≡ true
            → Fits self.old q }
        requires once { IsDistinct nat_eq (walk (after_of self.old) count first) }
        requires within { low + count * step < 2 ^ 64 }
        ensures { Relabels self.old self.new first count low step }
    {
        let mut next = first;
        let mut label = low;
        let mut done = 0;
        'entries: while done < count {
            label += step;
            self.set_label(next, label);
            next = self.at(next).after;
            done += 1;
        }
    }
}

/// How far apart so many labels and one more can lie within a gap, where that is more than their number.
fn step_within(gap: u64, count: u64) -> Option<u64>
    requires { count + 1 < 2 ^ 64 }
    ensures { IfSome result (IsStep gap count) }
{
    let parts = count + 1;
    let step = gap / parts;
    if step > parts { Some(step) } else { None }
}
