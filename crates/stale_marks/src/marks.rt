ghost use Rattle.std.specs.Prelude.{◌≡◌};

use super::spreading::spread;
use cell_refs::{Cell, Memory};
use dep_table::DepTable;
use std::alloc::Global;
use std::collections::BTreeSet;
use std::marker::Model;

/// The cells that are marked as stale, in cell order.
#[derive(Drop)]
pub struct Marks {
    alloc: Global,
    marks: BTreeSet<Cell>,
}

impl Model for Marks {
    ghost use Rattle.std.specs.Prelude.{List};
    ghost use Rattle.std.specs.BTreeSet.{IsOrdered};
    ghost use Rattle.cell_refs.specs.declared.grid.Cell.{Cell as OneCell};
    ghost use Rattle.cell_refs.specs.Cell.{cell_cmp};

    ghost Value = { List OneCell };

    ghost view = { λ m. m.marks.keys };

    ghost invariant = { λ m. IsOrdered cell_cmp m.marks };
}

impl Marks {
    ghost use Rattle.std.specs.Prelude.{[], ◌⊎◌, true, length, IfOk, OnOk, OnErr};
    ghost use Rattle.std.specs.List.Sorted.{IsStrictlySortedBy};
    ghost use Rattle.std.specs.Set.{remove_key};
    ghost use Rattle.cell_refs.specs.declared.grid.Cell.{Cell as OneCell};
    ghost use Rattle.cell_refs.specs.Cell.{cell_cmp, is_among, same_cell};
    ghost use Rattle.stale_marks.specs.Marks.{IsClosed, IsClosedBut, IsDependent, KeepsMarks, LosesMark};

    /// No marks.
    pub fn new(alloc: Global) -> Marks
        ensures { result ≡ [] }
    {
        Marks {
            alloc,
            marks: BTreeSet::new(alloc),
        }
    }

    /// Marks each reader of the table from which the cell is reached, the cell itself if it is a reader. A cell that
    /// is marked already isn't walked on from. A refusal changes nothing.
    pub fn mark(&mut self, table: &DepTable, cell: Cell) -> Result<(), Memory>
        ensures kept { KeepsMarks self.old self.new }
        ensures only { (q : OneCell) → is_among self.new q ≡ true
            → (is_among self.old q ≡ true) ⊎ IsDependent table.now cell q }

        // Where the readers of marked cells are marked, all from which the cell is reached are marked now.
        ensures all { IsClosedBut cell table.now self.old → OnOk result ((q : OneCell)
            → IsDependent table.now cell q → is_among self.new q ≡ true) }
        ensures closed { IsClosedBut cell table.now self.old → OnOk result
            (IsClosed table.now self.new) }
        ensures refused { OnErr result (self.new ≡ self.old) }
    {
        spread(self.alloc, table, cell, &mut self.marks)
    }

    /// Takes the mark of a cell away, where it has one. It takes no memory.
    pub fn unmark(&mut self, cell: Cell)
        ensures removed { self.new ≡ remove_key (same_cell cell) self.old }
        ensures marks { LosesMark self.old self.new cell }
    {
        let _ = self.marks.remove(&cell);
    }

    /// Whether a cell is marked.
    pub fn is_stale(&self, cell: Cell) -> bool
        ensures { result ≡ is_among self.now cell }
    {
        self.marks.contains(&cell)
    }

    /// How many cells are marked.
    pub fn count(&self) -> usize
        ensures count { result ≡ length self.now }
        ensures ordered { IsStrictlySortedBy cell_cmp self.now }
    {
        self.marks.len()
    }

    /// The marked cells, in cell order, each once.
    pub fn list(&self, alloc: Global) -> Result<Vec<Cell>, Memory>
        ensures cells { IfOk result (λ cells. cells.items ≡ self.now) }
        ensures ordered { IfOk result (λ cells. IsStrictlySortedBy cell_cmp cells.items) }
    {
        let mut cells = Vec::new(alloc);
        for cell in &self.marks {
            cells.push(*cell)?;
        }
        Ok(cells)
    }

    /// Takes all marks away.
    pub fn clear(&mut self)
        ensures { self.new ≡ [] }
    {
        self.marks.clear();
    }
}
