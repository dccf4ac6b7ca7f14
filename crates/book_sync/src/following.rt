ghost use Rattle.std.specs.Prelude.{◌≡◌, [], ◌⊎◌, None, Some, true, false, OnOk};
ghost use Rattle.book_sync.specs.Following.{FollowsChanged, ShowsWhereClean, TableFollows};
ghost use Rattle.cell_refs.specs.declared.grid.Cell.{Cell as OneCell};
ghost use Rattle.cell_refs.specs.Cell.{is_among};
ghost use Rattle.cell_store.specs.Store.{KeepsShown, is_touched, present_at};
ghost use Rattle.workbook.specs.Stale.{is_stale};

use super::changes::follow_changed;
use super::stale::{empty_marked, mark_stale};
use cell_refs::Cell;
use cell_store::CellStore;
use cell_values::Memory;
use dep_table::DepTable;
use stale_marks::Marks;
use std::alloc::Global;
use std::collections::BTreeSet;
use workbook::Book;

/// Brings table, marks and store in step with the book, of which these cells are changed. What it takes for that goes by
/// the changed and the stale cells. After a refusal the same call can be made again.
pub fn follow(
    alloc: Global,
    book: &Book,
    changed: &BTreeSet<Cell>,
    table: &mut DepTable,
    marks: &mut Marks,
    store: &mut CellStore,
) -> Result<(), Memory>
    requires follows { TableFollows book.now.contents changed.now.keys table.old }

    // Whatever the answer: what the next call stands on, and that changed and stale cells alone lose what they had.
    // So what is present is still shown where no changed cell is reached.
    ensures again { TableFollows book.now.contents changed.now.keys table.new }
    ensures shown { KeepsShown store.old store.new }
    ensures others { (q : OneCell) → is_among changed.now.keys q ≡ false
        → is_stale book.now.contents changed.now.keys q ≡ false
        → present_at store.new q ≡ present_at store.old q }
    ensures kept { (q : OneCell) → is_among changed.now.keys q ≡ false
        → is_stale book.now.contents changed.now.keys q ≡ false
        → is_touched store.new q ≡ is_touched store.old q }
    ensures clean { ShowsWhereClean book.now.contents changed.now.keys store.old
        → ShowsWhereClean book.now.contents changed.now.keys store.new }

    // With Ok the table follows the book everywhere, and so do the marks.
    ensures table { OnOk result (TableFollows book.now.contents [] table.new) }
    ensures marked { OnOk result ((q : OneCell)
        → is_among marks.new q ≡ is_stale book.now.contents changed.now.keys q) }

    // A constant is present with its value, and a stale cell with none.
    ensures changed { OnOk result
        (FollowsChanged book.now.contents changed.now.keys store.new) }
    ensures stale { OnOk result ((q : OneCell)
        → is_stale book.now.contents changed.now.keys q ≡ true
        → present_at store.new q ≡ Some None) }
    ensures touched { OnOk result ((q : OneCell) → (is_among changed.now.keys q ≡ true)
        ⊎ (is_stale book.now.contents changed.now.keys q ≡ true)
        → is_touched store.new q ≡ true) }
{
    follow_changed(alloc, book, changed, table, store)?;
    mark_stale(table, changed, marks)?;
    empty_marked(alloc, marks, store)
}
