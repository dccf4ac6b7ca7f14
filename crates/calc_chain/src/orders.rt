ghost use Rattle.std.specs.Prelude.{◌≡◌};

use super::slots::{END, Slots};
use cell_refs::Memory;
use std::alloc::Global;
use std::marker::Model;

/// Numbers in an order, each once.
#[derive(Drop)]
pub struct LinkedOrder {
    slots: Slots,
    count: usize,
}

impl Model for LinkedOrder {
    ghost use Rattle.std.specs.Prelude.{List, ℕ};
    ghost use Rattle.calc_chain.specs.Linking.{Keeps, after_of, walk};
    ghost use Rattle.calc_chain.specs.declared.slots.TheConstants.{END};

    ghost Value = { List ℕ };

    ghost view = { λ o. walk (after_of o.slots) o.count (after_of o.slots END) };

    ghost invariant = { λ o. Keeps o.slots
        (walk (after_of o.slots) o.count (after_of o.slots END)) };
}

impl LinkedOrder {
    ghost use Rattle.std.specs.Prelude.{ℕ, ◌≢◌, ◌++◌, ◌∷◌, ◌≤◌, [], true, false, length, nat_lt, OnOk, OnErr, IfOk, if◌then◌else◌};
    ghost use Rattle.std.specs.List.{IsDistinct};
    ghost use Rattle.std.specs.Prelude.{nat_eq};
    ghost use Rattle.calc_chain.specs.Chain.{entries_among, has, is_behind, moved_behind, without};
    ghost use Rattle.calc_chain.specs.declared.slots.TheConstants.{END};

    /// No entry.
    pub fn new(alloc: Global) -> LinkedOrder
        ensures { result ≡ [] }
    {
        LinkedOrder {
            slots: Slots::new(alloc),
            count: 0,
        }
    }

    /// How many entries there are.
    pub fn len(&self) -> usize
        ensures { result ≡ length self.now }
    {
        self.count
    }

    /// Puts a new number at the end. A refusal changes nothing.
    pub fn append(&mut self, x: u32) -> Result<(), Memory>
        requires new { has self.old x ≡ false }
        requires number { x ≢ END }
        ensures ok { OnOk result (self.new ≡ self.old ++ x ∷ []) }
        ensures refused { OnErr result (self.new ≡ self.old) }
    {
        self.slots.make_room(x)?;
        self.slots.append(x, self.count);
        self.count += 1;
        Ok(())
    }

    /// Takes an entry out, where it is one.
    pub fn remove(&mut self, x: u32)
        ensures { self.new ≡ without self.old x }
    {
        if x == END || self.slots.at(x).label == 0 {
            return;
        }
        self.slots.unlink(x);
        self.count -= 1;
    }

    /// Whether an entry stands behind another.
    pub fn behind(&self, x: u32, y: u32) -> bool
        requires apart { x ≢ y }
        requires first { has self.now x ≡ true }
        requires second { has self.now y ≡ true }
        ensures { result ≡ is_behind self.now x y }
    {
        self.slots.at(y).label < self.slots.at(x).label
    }

    /// Takes an entry out and puts it in again directly behind another.
    pub fn move_behind(&mut self, x: u32, y: u32)
        requires apart { x ≢ y }
        requires first { has self.old x ≡ true }
        requires second { has self.old y ≡ true }
        ensures { self.new ≡ moved_behind self.old x y }
    {
        self.slots.unlink(x);
        self.slots.insert(x, y, self.count - 1);
    }

    /// The entries, in order.
    pub fn list(&self, alloc: Global) -> Result<Vec<u32>, Memory>
        ensures entries { IfOk result (λ list. list.items ≡ self.now) }
        ensures once { IsDistinct nat_eq self.now }
    {
        let mut list = Vec::new(alloc);
        let mut next = self.slots.at(END).after;
        let mut done = 0;
        'entries: while done < self.count {
            list.push(next)?;
            next = self.slots.at(next).after;
            done += 1;
        }
        Ok(list)
    }

    /// Puts some entries into the order in which they stand.
    pub fn sort(&self, numbers: &mut [u32])
        requires entries { (x : ℕ) → has numbers.old x ≡ true → has self.now x ≡ true }
        requires once { IsDistinct nat_eq numbers.old }
        ensures { numbers.new ≡ entries_among self.now numbers.old }
    {
        let slots = &self.slots;
        numbers.sort_unstable_by_key(|x| slots.at(*x).label);
    }
}
