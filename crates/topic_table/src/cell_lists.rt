ghost use Rattle.std.specs.Prelude.{◌≡◌, ◌+◌, ◌<◌, false, [], ◌∷◌, ◌++◌, length, take, position, swap, swap_remove, is_some, IsOk, IfOk, OnOk, OnErr};
ghost use Rattle.std.specs.List.{IsDistinct, slice_index_or};
ghost use Rattle.cell_refs.specs.Cell.{is_among, same_cell};

use cell_refs::Cell;
use cell_values::Memory;
use indexmap::IndexSet;
use std::alloc::Global;
use std::marker::Model;

/// A list of cells, none twice, that tells where a cell stands in it.
#[derive(Drop)]
pub struct CellList {
    cells: Vec<Cell>,
    keys: IndexSet<Cell>,
}

impl Model for CellList {
    ghost use Rattle.std.specs.Prelude.{List, ◌≡◌, ◌+◌, ◌≤◌, vec_capacity};
    ghost use Rattle.indexmap.specs.IndexSet.{index_set_len, spare};
    ghost use Rattle.cell_refs.specs.declared.grid.Cell.{Cell as OneCell};

    ghost Value = { List OneCell };

    ghost view = { λ l. l.cells.items };

    ghost invariant = { λ l. (l.keys.keys ≡ l.cells.items)
        × (1 ≤ index_set_len l.keys + spare l.keys) × (1 ≤ vec_capacity l.cells) };
}

impl CellList {
    /// An empty list, with room for one cell.
    pub fn new(alloc: Global) -> Result<CellList, Memory>
        ensures { IfOk result (λ list. list ≡ []) }
    {
        let cells = Vec::with_capacity(alloc, 1)?;
        let keys = IndexSet::with_capacity(alloc, 1)?;
        Ok(CellList { cells, keys })
    }

    /// The cells.
    pub fn as_slice(&self) -> &[Cell]
        ensures cells { result.now ≡ self.now }
        ensures once { IsDistinct same_cell self.now }
    {
        let _unique = self.keys.len();
        &self.cells
    }

    /// The number of cells.
    pub fn len(&self) -> usize
        ensures { result ≡ length self.now }
    {
        self.cells.len()
    }

    /// Where a cell stands.
    pub fn position(&self, cell: Cell) -> Option<usize>
        ensures place { result ≡ position (same_cell cell) self.now }
        ensures found { is_some result ≡ is_among self.now cell }
        ensures once { IsDistinct same_cell self.now }
    {
        let _unique = self.keys.len();
        self.keys.get_index_of(&cell)
    }

    /// Adds a cell that isn't there. A refusal changes nothing.
    pub fn push(&mut self, cell: Cell) -> Result<(), Memory>
        requires { is_among self.old cell ≡ false }
        ensures ok { OnOk result (self.new ≡ self.old ++ cell ∷ []) }
        ensures refused { OnErr result (self.new ≡ self.old) }
        ensures succeeds { self.old ≡ [] → IsOk result }
    {
        self.cells.reserve(1)?;
        self.keys.insert(cell)?;
        let _ = self.cells.push(cell);
        Ok(())
    }

    /// Exchanges the cells at two places.
    pub fn swap(&mut self, i: usize, j: usize)
        requires first { i < length self.old }
        requires second { j < length self.old }
        ensures cells { self.new ≡ swap self.old i j }
        ensures once { IsDistinct same_cell self.new }
    {
        self.keys.swap_indices(i, j);
        self.cells.swap(i, j);
    }

    /// Takes out the cell at a place, which the last one takes.
    pub fn swap_remove(&mut self, place: usize) -> Cell
        requires { place < length self.old }
        ensures cell { result ≡ slice_index_or self.old place result }
        ensures cells { self.new ≡ swap_remove self.old place result }
        ensures len { length self.new + 1 ≡ length self.old }
        ensures gone { is_among self.new result ≡ false }
    {
        let last = self.cells.len() - 1;
        self.keys.swap_indices(place, last);
        self.keys.truncate(last);
        self.cells.swap_remove(place)
    }

    /// Keeps the first cells.
    pub fn truncate(&mut self, count: usize)
        ensures { self.new ≡ take count self.old }
    {
        self.keys.truncate(count);
        self.cells.truncate(count);
    }
}
