//! The areas that the formula of a changed cell names.

ghost use Rattle.std.specs.Prelude.{◌≡◌, Some, OnOk, option_copied};
ghost use Rattle.std.specs.Map.{lookup};
ghost use Rattle.book_sync.specs.Following.{formula_areas};
ghost use Rattle.book_sync.specs.Steps.{formula_of};
ghost use Rattle.cell_refs.specs.Cell.{same_cell};
ghost use Rattle.formula_parse.specs.Tree.{areas_named};
ghost use Rattle.stale_marks.specs.Marks.{ChangesOnly};
ghost use Rattle.workbook.specs.Book.{content_at};

use cell_refs::Cell;
use cell_values::Memory;
use dep_table::DepTable;
use formula_parse::{Tree, names};
use std::alloc::Global;
use workbook::{Book, Content};

/// Gives the table the areas that the formula of a cell names; a cell without a formula is no reader.
pub fn put_areas(alloc: Global, book: &Book, cell: Cell, table: &mut DepTable) -> Result<(), Memory>
    ensures areas { OnOk result (lookup (same_cell cell) table.new
        ≡ formula_areas book.now.contents cell) }
    ensures others { ChangesOnly table.old table.new cell }
{
    match formula_at(book, cell) {
        Some(tree) => put_named(alloc, cell, tree, table),
        None => {
            table.remove(cell);
            Ok(())
        }
    }
}

/// The formula of a cell.
fn formula_at(book: &Book, cell: Cell) -> Option<&Tree>
    ensures { option_copied result ≡ formula_of (content_at book.now.contents cell) }
{
    match book.get(cell)? {
        Content::Formula(tree) => Some(tree),
        Content::Num(_) | Content::Text(_) | Content::Bool(_) | Content::Error(_) => None,
    }
}

/// Gives the table the areas that a formula names, which stands at the cell.
fn put_named(alloc: Global, cell: Cell, tree: &Tree, table: &mut DepTable) -> Result<(), Memory>
    ensures areas { OnOk result (lookup (same_cell cell) table.new
        ≡ Some (areas_named tree.now cell.sheet)) }
    ensures others { ChangesOnly table.old table.new cell }
{
    let areas = names(alloc, tree, cell.sheet)?;
    let Ok(()) = table.put(cell, areas) else {
        return Err(Memory);
    };
    Ok(())
}
