//! Entries that are put in and taken out.

ghost use Rattle.std.specs.Prelude.{◌≡◌, ◌≢◌, ◌<◌, ◌++◌, ◌∷◌, [], ℕ, List, true, false, length};
ghost use Rattle.calc_chain.specs.Chain.{has, without};
ghost use Rattle.calc_chain.specs.declared.slots.TheConstants.{END};
ghost use Rattle.calc_chain.specs.Linking.{Fits, HasRoomBehind, IsBetween, Keeps, after_of, label_of, put_behind};

use super::slots::{END, Slots};

/// How far the label of an entry at the end lies behind that of the one before it.
pub const WIDE: u64 = 1 << 31;

/// How far the label of an entry that is put directly behind another lies behind that other's.
const NARROW: u64 = 1 << 10;

impl Slots {
    /// Takes an entry out.
    pub fn unlink(&mut self, x: u32)
        requires { (xs : List ℕ) × Keeps self.old xs × (has xs x ≡ true) }
        ensures out { (xs : List ℕ) → Keeps self.old xs → has xs x ≡ true
            → Keeps self.new (without xs x) }
        ensures size { length self.new.slots.items ≡ length self.old.slots.items }
    {
        let slot = self.at(x);
        self.join(slot.before, slot.after);
        self.set_label(x, 0);
    }

    /// Puts a new number at the end, for which there is room. There are so many entries.
    pub fn append(&mut self, x: u32, count: usize)
        requires kept { (xs : List ℕ) × Keeps self.old xs × (has xs x ≡ false)
            × (length xs ≡ count) }
        requires room { Fits self.old x }
        requires number { x ≢ END }
        ensures { (xs : List ℕ) → Keeps self.old xs → has xs x ≡ false
            → Keeps self.new (xs ++ x ∷ []) }
    {
        let last = self.at(END).before;
        if last == END {
            self.begin(x);
        } else {
            self.insert(x, last, count);
        }
    }

    /// Makes a number the only entry, where there is none.
    fn begin(&mut self, x: u32)
        requires kept { Keeps self.old [] }
        requires room { Fits self.old x }
        requires number { x ≢ END }
        ensures { Keeps self.new (x ∷ []) }
    {
        self.join(END, x);
        self.join(x, END);
        self.set_label(x, WIDE);
    }

    /// Puts a new number, for which there is room, directly behind an entry. There are so many entries.
    pub fn insert(&mut self, x: u32, y: u32, count: usize)
        requires kept { (xs : List ℕ) × Keeps self.old xs × (has xs x ≡ false)
            × (has xs y ≡ true) × (length xs ≡ count) }
        requires room { Fits self.old x }
        requires number { x ≢ END }
        ensures { (xs : List ℕ) → Keeps self.old xs → has xs x ≡ false → has xs y ≡ true
            → Keeps self.new (put_behind xs y x) }
    {
        self.make_room_behind(y, count);
        let label = self.label_behind(y);
        self.insert_with(x, y, label);
    }

    /// A label between that of an entry and that of what stands behind it, for which there is room.
    fn label_behind(&self, y: u32) -> u64
        requires { HasRoomBehind self.now y }
        ensures { IsBetween self.now y result }
    {
        let low = self.at(y).label;
        let next = self.at(y).after;
        if next == END {
            low + (u64::MAX - low).min(WIDE)
        } else {
            low + ((self.at(next).label - low) / 2).min(NARROW)
        }
    }

    /// Puts a new number with this label directly behind an entry.
    fn insert_with(&mut self, x: u32, y: u32, label: u64)
        requires kept { (xs : List ℕ) × Keeps self.old xs × (has xs x ≡ false)
            × (has xs y ≡ true) }
        requires room { Fits self.old x }
        requires number { x ≢ END }
        requires label { IsBetween self.old y label }
        ensures { (xs : List ℕ) → Keeps self.old xs → has xs x ≡ false → has xs y ≡ true
            → Keeps self.new (put_behind xs y x) }
    {
        let next = self.at(y).after;
        self.join(y, x);
        self.join(x, next);
        self.set_label(x, label);
    }
}
