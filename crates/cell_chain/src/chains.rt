ghost use Rattle.std.specs.Prelude.{◌≡◌};

use super::numbering::Numbering;
use calc_chain::Chain;
use cell_refs::{Cell, Memory, Steps};
use std::alloc::Global;
use std::marker::Model;
use std::sync::ledger::Ledger;

/// Cells in an order, each once, of which some are due.
#[derive(Drop)]
pub struct CellChain {
    numbering: Numbering,
    /// The numbers of the cells, in chain order.
    chain: Chain,
    /// Room for the numbers of all cells, so that making cells due takes no memory.
    room: Vec<u32>,
}

impl Model for CellChain {
    ghost use Rattle.std.specs.Prelude.{vec_capacity};
    ghost use Rattle.cell_chain.specs.CellOrder.{CellOrder};
    ghost use Rattle.cell_chain.specs.Numbering.{IsNumbered, cells_in};

    ghost Value = { CellOrder };

    ghost view = { λ c. cells_in c.numbering c.chain };

    ghost invariant = { λ c. IsNumbered c.numbering c.chain (vec_capacity c.room) };
}

impl CellChain {
    ghost use Rattle.std.specs.Prelude.{◌≢◌, ◌∷◌, ◌++◌, ◌+◌, [], true, false, if◌then◌else◌, IfOk, OnOk, OnErr};
    ghost use Rattle.std.specs.List.{IsDistinct};
    ghost use Rattle.cell_refs.specs.declared.grid.Cell.{Cell as OneCell};
    ghost use Rattle.cell_refs.specs.Cell.{is_among, same_cell};
    ghost use Rattle.cell_chain.specs.CellOrder.{IsCellChain, behind_first, entries_among, first_of, is_behind, moved_behind, without};

    /// A chain without cells.
    pub fn new(alloc: Global) -> CellChain
        ensures { result ≡ record { entries = []; due = [] } }
    {
        CellChain {
            numbering: Numbering::new(alloc),
            chain: Chain::new(alloc),
            room: Vec::new(alloc),
        }
    }

    /// Puts a new cell at the end, which isn't due. A refusal changes nothing.
    pub fn append(&mut self, cell: Cell) -> Result<(), Memory>
        requires new { is_among self.old.entries cell ≡ false }
        ensures ok { OnOk result
            (self.new ≡ record self.old { entries = self.old.entries ++ cell ∷ [] }) }
        ensures refused { OnErr result (self.new ≡ self.old) }
        ensures chain { IsCellChain self.new }
    {
        let number = self.numbering.add(cell)?;
        match append_number(&mut self.chain, &mut self.room, number) {
            Ok(()) => Ok(()),
            Err(memory) => {
                self.numbering.remove(cell);
                Err(memory)
            }
        }
    }

    /// Takes a cell out; it is neither in the chain nor due. It takes no memory.
    pub fn remove(&mut self, cell: Cell)
        ensures { self.new ≡ record self.old {
          entries = without self.old.entries cell;
          due = without self.old.due cell;
        } }
    {
        if let Some(number) = self.numbering.remove(cell) {
            self.chain.remove(number);
        }
    }

    /// Whether a cell is in the chain.
    pub fn has(&self, cell: Cell) -> bool
        ensures entry { result ≡ is_among self.now.entries cell }
        ensures chain { IsCellChain self.now }
    {
        self.numbering.number_of(cell).is_some()
    }

    /// Makes these cells due, and no others. It takes no memory.
    pub fn rewind(&mut self, due: &[Cell])
        requires entries { (cell : OneCell) → is_among due.now cell ≡ true
            → is_among self.old.entries cell ≡ true }
        requires once { IsDistinct same_cell due.now }
        ensures due { self.new ≡ record self.old { due = entries_among self.old.entries due.now } }
        ensures chain { IsCellChain self.new }
    {
        self.numbering.fill(&mut self.room, due);
        self.chain.rewind(&self.room);
    }

    /// The first cell that is due, which then is due no longer; None exactly where none is. It takes no memory.
    pub fn next<L: Ledger>(&mut self, steps: &mut Steps<L>) -> Option<Cell>
        ensures first { result ≡ first_of self.old.due }
        ensures left { self.new ≡ record self.old { due = behind_first self.old.due } }
        ensures chain { IsCellChain self.new }
        ensures tick { steps.new ≡ steps.old + 1 }
    {
        let number = self.chain.next(steps)?;
        Some(self.numbering.cell_at(number))
    }

    /// Whether a cell stands behind another.
    pub fn behind(&self, x: Cell, y: Cell) -> bool
        requires apart { x ≢ y }
        requires first { is_among self.now.entries x ≡ true }
        requires second { is_among self.now.entries y ≡ true }
        ensures { result ≡ is_behind self.now.entries x y }
    {
        let first = self.numbering.number_at(x);
        let second = self.numbering.number_at(y);
        self.chain.behind(first, second)
    }

    /// Moves a cell that isn't due directly behind another, where it doesn't stand behind it. It takes no memory.
    pub fn move_behind(&mut self, x: Cell, y: Cell)
        requires apart { x ≢ y }
        requires first { is_among self.old.entries x ≡ true }
        requires second { is_among self.old.entries y ≡ true }
        requires idle { is_among self.old.due x ≡ false }
        ensures moved { self.new ≡ record self.old {
          entries = if is_behind self.old.entries x y then self.old.entries
              else moved_behind self.old.entries x y;
        } }
        ensures chain { IsCellChain self.new }
    {
        let first = self.numbering.number_at(x);
        let second = self.numbering.number_at(y);
        self.chain.move_behind(first, second);
    }

    /// The cells, in chain order.
    pub fn list(&self, alloc: Global) -> Result<Vec<Cell>, Memory>
        ensures entries { IfOk result (λ list. list.items ≡ self.now.entries) }
        ensures chain { IsCellChain self.now }
    {
        let numbers = self.chain.list(alloc)?;
        self.numbering.cells_at(alloc, &numbers)
    }
}

ghost use Rattle.std.specs.Prelude.{◌∷◌, ◌++◌, [], ◌<◌, ◌≤◌, false, OnOk, OnErr, vec_capacity};
ghost use Rattle.calc_chain.specs.Chain.{has};

/// Puts a new number at the end, and makes room for it in the list. A refusal doesn't change the chain.
fn append_number(chain: &mut Chain, room: &mut Vec<u32>, number: u32) -> Result<(), Memory>
    requires { has chain.old.entries number ≡ false }
    ensures ok { OnOk result
        (chain.new ≡ record chain.old { entries = chain.old.entries ++ number ∷ [] }) }
    ensures refused { OnErr result (chain.new ≡ chain.old) }
    ensures room { OnOk result (number < vec_capacity room.new) }
    ensures kept { vec_capacity room.old ≤ vec_capacity room.new }
{
    room.clear();
    room.reserve(number as usize + 1)?;
    chain.append(number)
}
