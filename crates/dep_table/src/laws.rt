//! Laws of the table: contracts of functions that only call it.
ghost use Rattle.std.specs.Prelude.{◌≡◌, ◌+◌, ◌≤◌, IfOk, count_by, length};
ghost use Rattle.dep_table.specs.Steps.{areas_on, has_row};
ghost use Rattle.dep_table.specs.Table.{readers_of};

use super::tables::DepTable;
use cell_refs::{Cell, Memory, Steps};
use std::alloc::Global;
use std::sync::ledger::Ledger;

/// Of at most 10,000 areas on a sheet, at most one of which has the cell's row, the readers are found in at most 104
/// steps.
pub fn readers_of_one_row<L: Ledger>(
    table: &DepTable,
    alloc: Global,
    cell: Cell,
    steps: &mut Steps<L>,
) -> Result<Vec<Cell>, Memory>
    requires areas { length (areas_on table.now cell.sheet) ≤ 10000 }
    requires one { count_by (has_row cell.row) (areas_on table.now cell.sheet) ≤ 1 }
    ensures readers { IfOk result (λ readers. readers.items ≡ readers_of table.now cell) }
    ensures steps { steps.new ≤ steps.old + 104 }
{
    table.readers_counted(alloc, cell, steps)
}
