ghost use Rattle.std.specs.Prelude.{◌≡◌, ◌≤◌, [], not, ◌&&◌, ◌||◌, length, drop, IsOk, IfOk, OnOk, OnErr};
ghost use Rattle.std.specs.List.{IsDistinct};
ghost use Rattle.cell_refs.specs.declared.grid.Cell.{Cell as OneCell};
ghost use Rattle.cell_refs.specs.Cell.{is_among, same_cell};
ghost use Rattle.topic_table.specs.Table.{is_no_cell};

use super::cell_lists::CellList;
use cell_refs::Cell;
use cell_values::Memory;
use std::alloc::Global;
use std::marker::Model;

/// The readers of a topic, in one list: first those that are kept and forgotten in the running round, then those that
/// are kept and have read, then those that have read and aren't kept.
#[derive(Drop)]
pub struct Readers {
    cells: CellList,
    /// How many are forgotten in the running round.
    forgotten: usize,
    /// How many are kept.
    kept: usize,
}

impl Model for Readers {
    ghost use Rattle.std.specs.Prelude.{◌≤◌, length, take, drop};
    ghost use Rattle.topic_table.specs.Table.{Readings};

    ghost Value = { Readings };

    ghost view = { λ r. record { kept = take r.kept r.cells; running = drop r.forgotten r.cells } };

    ghost invariant = { λ r. (r.forgotten ≤ r.kept) × (r.kept ≤ length r.cells) };
}

impl Readers {
    /// No readers, and room for the first.
    pub fn new(alloc: Global) -> Result<Readers, Memory>
        ensures { IfOk result (λ readers. readers ≡ record { kept = []; running = [] }) }
    {
        let cells = CellList::new(alloc)?;
        Ok(Readers {
            cells,
            forgotten: 0,
            kept: 0,
        })
    }

    /// The kept readers.
    pub fn kept(&self) -> &[Cell]
        ensures cells { result.now ≡ self.now.kept }
        ensures once { IsDistinct same_cell self.now.kept }
    {
        &self.cells.as_slice()[..self.kept]
    }

    /// Whether no reader is kept.
    pub fn is_unread(&self) -> bool
        ensures { result ≡ is_no_cell self.now.kept }
    {
        self.kept == 0
    }

    /// Whether a cell is a kept reader.
    pub fn is_kept(&self, cell: Cell) -> bool
        ensures { result ≡ is_among self.now.kept cell }
    {
        match self.cells.position(cell) {
            Some(place) => place < self.kept,
            None => false,
        }
    }

    /// Whether there are readers, kept or in the running round.
    pub fn is_any(&self) -> bool
        ensures { result ≡ not (is_no_cell self.now.kept && is_no_cell self.now.running) }
    {
        self.cells.len() > 0
    }

    /// Whether a cell has read in the running round.
    pub fn has_read(&self, cell: Cell) -> bool
        ensures { result ≡ is_among self.now.running cell }
    {
        match self.cells.position(cell) {
            Some(place) => place >= self.forgotten,
            None => false,
        }
    }

    /// Notes that a cell reads in the running round. A refusal changes nothing.
    pub fn read(&mut self, cell: Cell) -> Result<(), Memory>
        ensures running { OnOk result ((c : OneCell) → is_among self.new.running c
            ≡ (same_cell c cell || is_among self.old.running c)) }
        ensures kept { OnOk result ((c : OneCell) → is_among self.new.kept c
            ≡ is_among self.old.kept c) }
        ensures refused { OnErr result (self.new ≡ self.old) }
        ensures first { self.old ≡ record { kept = []; running = [] } → IsOk result }
    {
        match self.cells.position(cell) {
            Some(place) => {
                if place < self.forgotten {
                    self.forgotten -= 1;
                    self.cells.swap(place, self.forgotten);
                }
            }
            None => self.cells.push(cell)?,
        }
        Ok(())
    }

    /// Forgets, for the running round, that a cell has read.
    pub fn forget(&mut self, cell: Cell)
        ensures running { (c : OneCell) → is_among self.new.running c
            ≡ (is_among self.old.running c && not (same_cell c cell)) }
        ensures kept { (c : OneCell) → is_among self.new.kept c ≡ is_among self.old.kept c }
    {
        let Some(place) = self.cells.position(cell) else {
            return;
        };
        if place >= self.kept {
            let _ = self.cells.swap_remove(place);
        } else if place >= self.forgotten {
            self.cells.swap(place, self.forgotten);
            self.forgotten += 1;
        }
    }

    /// The readers of the running round are the kept ones.
    pub fn keep(&mut self)
        ensures kept { (c : OneCell) → is_among self.new.kept c ≡ is_among self.old.running c }
        ensures running { (c : OneCell) → is_among self.new.running c
            ≡ is_among self.old.running c }
    {
        drop_front(&mut self.cells, self.forgotten);
        self.forgotten = 0;
        self.kept = self.cells.len();
    }

    /// The kept readers are those of the running round.
    pub fn restore(&mut self)
        ensures { self.new ≡ record { kept = self.old.kept; running = self.old.kept } }
    {
        self.cells.truncate(self.kept);
        self.forgotten = 0;
    }
}

/// Drops the first cells of a list. Others take their places.
fn drop_front(cells: &mut CellList, count: usize)
    requires { count ≤ length cells.old }
    ensures { (c : OneCell) → is_among cells.new c ≡ is_among (drop count cells.old) c }
{
    let mut left = count;
    while left > 0 {
        left -= 1;
        let _ = cells.swap_remove(left);
    }
}
