ghost use Rattle.std.specs.Prelude.{◌≡◌};

use cell_refs::{Cell, Memory};
use slab::Slab;
use std::alloc::Global;
use std::collections::BTreeMap;
use std::marker::Model;

/// Cells that have a number each. A number that is free again is given to the next cell.
#[derive(Drop)]
pub struct Numbering {
    numbers: BTreeMap<Cell, u32>,
    cells: Slab<Cell>,
}

impl Model for Numbering {
    ghost use Rattle.std.specs.Prelude.{List, Option};
    ghost use Rattle.cell_refs.specs.declared.grid.Cell.{Cell as OneCell};
    ghost use Rattle.cell_chain.specs.Numbering.{AreInverse};

    ghost Value = { List (Option OneCell) };

    ghost view = { λ n. n.cells.slots };

    ghost invariant = { λ n. AreInverse n.numbers n.cells.slots };
}

impl Numbering {
    ghost use Rattle.std.specs.Prelude.{ℕ, ◌≢◌, ◌≤◌, [], map, length, true, IfSome, IfNone, IfOk, OnErr, Some, None, vec_capacity};
    ghost use Rattle.cell_refs.specs.declared.grid.Cell.{Cell as OneCell};
    ghost use Rattle.cell_refs.specs.Cell.{is_among};
    ghost use Rattle.calc_chain.specs.Chain.{has};
    ghost use Rattle.cell_chain.specs.Numbering.{IsOneToOne, cell_at, cell_of, is_used};

    /// No cell has a number.
    pub fn new(alloc: Global) -> Numbering
        ensures free { (number : ℕ) → cell_of result number ≡ None }
        ensures once { IsOneToOne result }
    {
        Numbering {
            numbers: BTreeMap::new(alloc),
            cells: Slab::new(alloc),
        }
    }

    /// Gives a cell a number that is free. A refusal changes nothing.
    pub fn add(&mut self, cell: Cell) -> Result<u32, Memory>
        requires new { (number : ℕ) → cell_of self.old number ≢ Some cell }
        ensures free { IfOk result (λ number. cell_of self.old number ≡ None) }
        ensures added { IfOk result (λ number. cell_of self.new number ≡ Some cell) }
        ensures others { IfOk result (λ number. (other : ℕ) → other ≢ number
            → cell_of self.new other ≡ cell_of self.old other) }
        ensures refused { OnErr result (self.new ≡ self.old) }
        ensures once { IsOneToOne self.new }
    {
        self.cells.reserve(1)?;
        let Ok(number) = u32::try_from(self.cells.vacant_key()) else {
            return Err(Memory);
        };
        self.numbers.insert(cell, number)?;
        self.cells.insert_reserved(cell);
        Ok(number)
    }

    /// Takes the number of a cell back, where it has one, and tells it. It takes no memory.
    pub fn remove(&mut self, cell: Cell) -> Option<u32>
        ensures found { IfSome result (λ number. cell_of self.old number ≡ Some cell) }
        ensures free { IfSome result (λ number. cell_of self.new number ≡ None) }
        ensures others { IfSome result (λ number. (other : ℕ) → other ≢ number
            → cell_of self.new other ≡ cell_of self.old other) }
        ensures none { IfNone result ((number : ℕ) → cell_of self.old number ≢ Some cell) }
        ensures unchanged { IfNone result (self.new ≡ self.old) }
        ensures once { IsOneToOne self.new }
    {
        let number = self.numbers.remove(&cell)?;
        self.cells.remove(number as usize);
        Some(number)
    }

    /// The number of a cell, if it has one.
    pub fn number_of(&self, cell: Cell) -> Option<u32>
        ensures found { IfSome result (λ number. cell_of self.now number ≡ Some cell) }
        ensures none { IfNone result ((number : ℕ) → cell_of self.now number ≢ Some cell) }
    {
        self.numbers.get(&cell).copied()
    }

    /// The number of a cell that has one.
    pub fn number_at(&self, cell: Cell) -> u32
        requires { (number : ℕ) × (cell_of self.now number ≡ Some cell) }
        ensures { cell_of self.now result ≡ Some cell }
    {
        match self.number_of(cell) {
            Some(number) => number,
            None => unreachable!(),
        }
    }

    /// The cell that has a number.
    pub fn cell_at(&self, number: u32) -> Cell
        requires { is_used self.now number ≡ true }
        ensures { result ≡ cell_at self.now number }
    {
        self.cells[number as usize]
    }

    /// The cells that have these numbers, in their order.
    pub fn cells_at(&self, alloc: Global, numbers: &[u32]) -> Result<Vec<Cell>, Memory>
        requires { (number : ℕ) → has numbers.now number ≡ true
            → is_used self.now number ≡ true }
        ensures { IfOk result (λ cells. cells.items ≡ map (cell_at self.now) numbers.now) }
    {
        let mut cells = Vec::new(alloc);
        for number in numbers {
            cells.push(self.cell_at(*number))?;
        }
        Ok(cells)
    }

    /// Puts the numbers of some cells into a list that has room for them, in place of what is in it.
    pub fn fill(&self, numbers: &mut Vec<u32>, cells: &[Cell])
        requires numbered { (cell : OneCell) → is_among cells.now cell ≡ true
            → (number : ℕ) × (cell_of self.now number ≡ Some cell) }
        requires room { length cells.now ≤ vec_capacity numbers.old }
        ensures cells { map (cell_at self.now) numbers.new.items ≡ cells.now }
        ensures used { (number : ℕ) → has numbers.new.items number ≡ true
            → is_used self.now number ≡ true }
        ensures room { vec_capacity numbers.old ≤ vec_capacity numbers.new }
    {
        numbers.clear();
        for cell in cells {
            let _ = numbers.push(self.number_at(*cell));
        }
    }
}
