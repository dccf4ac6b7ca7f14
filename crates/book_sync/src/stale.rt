//! Marks the stale cells, and takes their values away.

ghost use Rattle.std.specs.Prelude.{◌≡◌, [], true, OnOk};
ghost use Rattle.book_sync.specs.Steps.{AreEmpty, PutsAmong};
ghost use Rattle.cell_refs.specs.declared.grid.Cell.{Cell as OneCell};
ghost use Rattle.cell_refs.specs.Cell.{is_among};
ghost use Rattle.dep_table.specs.Table.{is_reader};
ghost use Rattle.stale_marks.specs.Marks.{AreMarked};

use cell_refs::Cell;
use cell_store::CellStore;
use cell_values::Memory;
use dep_table::DepTable;
use stale_marks::Marks;
use std::alloc::Global;
use std::collections::BTreeSet;

/// Marks the readers from which a changed cell is reached, and no other cell.
pub fn mark_stale(
    table: &DepTable,
    changed: &BTreeSet<Cell>,
    marks: &mut Marks,
) -> Result<(), Memory>
    ensures marked { OnOk result (AreMarked table.now marks.new changed.now.keys) }
    ensures readers { OnOk result ((q : OneCell) → is_among marks.new q ≡ true
        → is_reader table.now q ≡ true) }
{
    marks.clear();
    mark_all(table, changed, marks)
}

/// Marks the readers from which one of the cells is reached, where none is marked before.
fn mark_all(table: &DepTable, cells: &BTreeSet<Cell>, marks: &mut Marks) -> Result<(), Memory>
    requires none { marks.old ≡ [] }
    ensures marked { OnOk result (AreMarked table.now marks.new cells.now.keys) }
    ensures readers { OnOk result ((q : OneCell) → is_among marks.new q ≡ true
        → is_reader table.now q ≡ true) }
{
    for cell in cells {
        let Ok(()) = marks.mark(table, *cell) else {
            return Err(Memory);
        };
    }
    Ok(())
}

/// Makes each marked cell one that has no value yet.
pub fn empty_marked(alloc: Global, marks: &Marks, store: &mut CellStore) -> Result<(), Memory>
    ensures store { PutsAmong marks.now store.old store.new }
    ensures empty { OnOk result (AreEmpty marks.now store.new) }
{
    match marks.list(alloc) {
        Ok(cells) => empty_all(cells.as_slice(), store),
        Err(_) => Err(Memory),
    }
}

/// Makes each of the cells one that has no value yet.
fn empty_all(cells: &[Cell], store: &mut CellStore) -> Result<(), Memory>
    ensures store { PutsAmong cells.now store.old store.new }
    ensures empty { OnOk result (AreEmpty cells.now store.new) }
{
    for cell in cells {
        store.put(*cell, None)?;
    }
    Ok(())
}
