//! What is kept of each number of an order: its neighbors and its label.

ghost use Rattle.std.specs.Prelude.{◌≡◌, ◌≢◌, ◌<◌, ◌≤◌, ℕ, [], nat_eq, if◌then◌else◌, length, OnOk};
ghost use Rattle.calc_chain.specs.declared.slots.TheConstants.{END};
ghost use Rattle.calc_chain.specs.Linking.{Fits, after_of, before_of, first_slot, label_of, slot_at};

use cell_refs::Memory;
use std::alloc::Global;

/// Stands for both ends of an order: it is before the first entry and behind the last.
pub const END: u32 = u32::MAX;

/// What is kept of an entry, or of the two ends.
#[derive(Clone, Copy)]
pub struct Slot {
    /// The entry before it.
    pub before: u32,
    /// The entry behind it.
    pub after: u32,
    /// Greater than that of each entry before it; 0 where it is no entry.
    pub label: u64,
}

/// What is kept of a number that is no entry.
const FREE: Slot = Slot {
    before: 0,
    after: 0,
    label: 0,
};

/// What is kept of each number, and of the two ends.
#[derive(Drop)]
pub struct Slots {
    pub slots: Vec<Slot>,
    pub ends: Slot,
}

impl Slots {
    /// No number is an entry.
    pub fn new(alloc: Global) -> Slots
        ensures at { (q : ℕ) → slot_at result q ≡ first_slot q }
        ensures empty { result.slots.items ≡ [] }
    {
        Slots {
            slots: Vec::new(alloc),
            ends: Slot {
                before: END,
                after: END,
                label: 0,
            },
        }
    }

    /// What is kept of a number, or of the ends.
    pub fn at(&self, q: u32) -> Slot
        ensures { result ≡ slot_at self.now q }
    {
        if q == END {
            return self.ends;
        }
        let place = q as usize;
        if place < self.slots.len() {
            self.slots[place]
        } else {
            FREE
        }
    }

    /// Makes room for a number.
    pub fn make_room(&mut self, x: u32) -> Result<(), Memory>
        requires { x ≢ END }
        ensures room { OnOk result (Fits self.new x) }
        ensures same { (q : ℕ) → slot_at self.new q ≡ slot_at self.old q }
        ensures size { length self.old.slots.items ≤ END → length self.new.slots.items ≤ END }
    {
        let count = x as usize + 1;
        if self.slots.len() < count {
            self.slots.resize(count, FREE)?;
        }
        Ok(())
    }

    /// Keeps this of a number that has room, or of the ends.
    fn put(&mut self, q: u32, slot: Slot)
        requires { Fits self.old q }
        ensures there { (p : ℕ) → slot_at self.new p
            ≡ (if nat_eq p q then slot else slot_at self.old p) }
        ensures size { length self.new.slots.items ≡ length self.old.slots.items }
    {
        if q == END {
            self.ends = slot;
        } else {
            self.slots[q as usize] = slot;
        }
    }

    /// Links two, so that the second stands directly behind the first.
    pub fn join(&mut self, a: u32, b: u32)
        requires first { Fits self.old a }
        requires second { Fits self.old b }
        ensures after { (p : ℕ) → after_of self.new p
            ≡ (if nat_eq p a then b else after_of self.old p) }
        ensures before { (p : ℕ) → before_of self.new p
            ≡ (if nat_eq p b then a else before_of self.old p) }
        ensures labels { (p : ℕ) → label_of self.new p ≡ label_of self.old p }
        ensures size { length self.new.slots.items ≡ length self.old.slots.items }
    {
        let first = self.at(a);
        self.put(a, Slot { after: b, ..first });
        let second = self.at(b);
        self.put(
            b,
            Slot {
                before: a,
                ..second
            },
        );
    }

    /// Gives a number this label.
    pub fn set_label(&mut self, x: u32, label: u64)
        requires { Fits self.old x }
        ensures after { (p : ℕ) → after_of self.new p ≡ after_of self.old p }
        ensures before { (p : ℕ) → before_of self.new p ≡ before_of self.old p }
        ensures labels { (p : ℕ) → label_of self.new p
            ≡ (if nat_eq p x then label else label_of self.old p) }
        ensures size { length self.new.slots.items ≡ length self.old.slots.items }
    {
        let slot = self.at(x);
        self.put(x, Slot { label, ..slot });
    }
}
