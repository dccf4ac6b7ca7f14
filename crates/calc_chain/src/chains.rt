ghost use Rattle.std.specs.Prelude.{◌≡◌};

use super::due::DueList;
use super::orders::LinkedOrder;
use super::slots::END;
use cell_refs::{Memory, Steps};
use std::alloc::Global;
use std::marker::Model;
use std::sync::ledger::Ledger;

/// Numbers in an order, each once, of which some are due.
#[derive(Drop)]
pub struct Chain {
    order: LinkedOrder,
    /// It has room for the whole order, and for a flag of each entry.
    due: DueList,
}

impl Model for Chain {
    ghost use Rattle.std.specs.Prelude.{ℕ, ◌≡◌, ◌<◌, ◌≤◌, true, length, vec_capacity};
    ghost use Rattle.calc_chain.specs.Chain.{IsChain, Order, has};
    ghost use Rattle.calc_chain.specs.Due.{due_of};

    ghost Value = { Order };

    ghost view = { λ c. record { entries = c.order; due = due_of c.due } };

    ghost invariant = { λ c. (length c.order ≤ vec_capacity c.due.numbers)
        × ((x : ℕ) → has c.order x ≡ true → x < length c.due.flags.items)
        × IsChain (record { entries = c.order; due = due_of c.due }) };
}

impl Chain {
    ghost use Rattle.std.specs.Prelude.{ℕ, ◌≢◌, ◌∷◌, ◌++◌, ◌+◌, [], true, false, if◌then◌else◌, nat_eq, IfOk, OnOk, OnErr};
    ghost use Rattle.std.specs.List.{IsDistinct};
    ghost use Rattle.calc_chain.specs.Chain.{IsChain, behind_first, entries_among, first_of, has, is_behind, moved_behind, without};

    /// A chain without entries.
    pub fn new(alloc: Global) -> Chain
        ensures { result ≡ record { entries = []; due = [] } }
    {
        Chain {
            order: LinkedOrder::new(alloc),
            due: DueList::new(alloc),
        }
    }

    /// Puts a new entry at the end, which isn't due. A refusal changes nothing.
    pub fn append(&mut self, x: u32) -> Result<(), Memory>
        requires new { has self.old.entries x ≡ false }
        ensures ok { OnOk result
            (self.new ≡ record self.old { entries = self.old.entries ++ x ∷ [] }) }
        ensures refused { OnErr result (self.new ≡ self.old) }
    {
        if x == END {
            return Err(Memory);
        }
        self.due.make_room(self.order.len() + 1, x)?;
        self.order.append(x)?;
        Ok(())
    }

    /// Takes an entry out; it is neither in the chain nor due. It takes no memory.
    pub fn remove(&mut self, x: u32)
        ensures { self.new ≡ record self.old {
          entries = without self.old.entries x;
          due = without self.old.due x;
        } }
    {
        self.order.remove(x);
        self.due.remove(x);
    }

    /// Makes these entries due, and no others. It takes no memory.
    pub fn rewind(&mut self, due: &[u32])
        requires entries { (x : ℕ) → has due.now x ≡ true → has self.old.entries x ≡ true }
        requires once { IsDistinct nat_eq due.now }
        ensures { self.new ≡ record self.old { due = entries_among self.old.entries due.now } }
    {
        self.due.fill(due, &self.order);
    }

    /// The first entry that is due, which then is due no longer; None exactly where none is. It takes no memory.
    pub fn next<L: Ledger>(&mut self, steps: &mut Steps<L>) -> Option<u32>
        ensures first { result ≡ first_of self.old.due }
        ensures left { self.new ≡ record self.old { due = behind_first self.old.due } }
        ensures tick { steps.new ≡ steps.old + 1 }
    {
        steps.tick();
        self.due.next()
    }

    /// Whether an entry stands behind another.
    pub fn behind(&self, x: u32, y: u32) -> bool
        requires apart { x ≢ y }
        requires first { has self.now.entries x ≡ true }
        requires second { has self.now.entries y ≡ true }
        ensures { result ≡ is_behind self.now.entries x y }
    {
        self.order.behind(x, y)
    }

    /// Moves an entry that isn't due directly behind another, where it doesn't stand behind it. It takes no memory.
    pub fn move_behind(&mut self, x: u32, y: u32)
        requires apart { x ≢ y }
        requires first { has self.old.entries x ≡ true }
        requires second { has self.old.entries y ≡ true }
        requires idle { has self.old.due x ≡ false }
        ensures { self.new ≡ record self.old {
          entries = if is_behind self.old.entries x y then self.old.entries
              else moved_behind self.old.entries x y;
        } }
    {
        if self.order.behind(x, y) {
            return;
        }
        self.order.move_behind(x, y);
    }

    /// The entries, in chain order.
    pub fn list(&self, alloc: Global) -> Result<Vec<u32>, Memory>
        ensures entries { IfOk result (λ list. list.items ≡ self.now.entries) }
        ensures chain { IsChain self.now }
    {
        self.order.list(alloc)
    }
}
