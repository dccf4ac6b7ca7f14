//! Brings table and store in step with the changed cells of a book.

ghost use Rattle.std.specs.Prelude.{◌≡◌, [], ◌∷◌, true, OnOk};
ghost use Rattle.book_sync.specs.Following.{TableFollows};
ghost use Rattle.book_sync.specs.Steps.{IsInStep, PutsAmong};
ghost use Rattle.cell_refs.specs.declared.grid.Cell.{Cell as OneCell};
ghost use Rattle.cell_refs.specs.Cell.{is_among};
ghost use Rattle.stale_marks.specs.Marks.{ChangesOnly};

use super::formulas::put_areas;
use super::values::put_content;
use cell_refs::Cell;
use cell_store::CellStore;
use cell_values::Memory;
use dep_table::DepTable;
use std::alloc::Global;
use std::collections::BTreeSet;
use workbook::Book;

/// Brings table and store in step with one cell.
fn follow_cell(
    alloc: Global,
    book: &Book,
    cell: Cell,
    table: &mut DepTable,
    store: &mut CellStore,
) -> Result<(), Memory>
    ensures step { OnOk result (IsInStep book.now.contents table.new store.new cell) }
    ensures table { ChangesOnly table.old table.new cell }
    ensures store { PutsAmong (cell ∷ []) store.old store.new }
{
    put_areas(alloc, book, cell, table)?;
    put_content(book, cell, store)
}

/// Brings table and store in step with each changed cell.
pub fn follow_changed(
    alloc: Global,
    book: &Book,
    changed: &BTreeSet<Cell>,
    table: &mut DepTable,
    store: &mut CellStore,
) -> Result<(), Memory>
    requires follows { TableFollows book.now.contents changed.now.keys table.old }
    ensures follows { TableFollows book.now.contents changed.now.keys table.new }
    ensures store { PutsAmong changed.now.keys store.old store.new }
    ensures all { OnOk result ((q : OneCell) → is_among changed.now.keys q ≡ true
        → IsInStep book.now.contents table.new store.new q) }
{
    for cell in changed {
        follow_cell(alloc, book, *cell, table, store)?;
    }
    Ok(())
}
