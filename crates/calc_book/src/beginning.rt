//! The begin of a recalculation: all that is kept beside a book comes in step with it, and the stale cells are due.

ghost use Rattle.std.specs.Prelude.{◌≡◌, [], ◌⊎◌, true, false, not, ◌||◌, if◌then◌else◌, None, Some, is_some, IsTrue, IfOk, OnOk, OnErr};
ghost use Rattle.std.specs.List.{IsDistinct, filter};
ghost use Rattle.book_sync.specs.Following.{FollowsChanged, ShowsWhereClean, TableFollows};
ghost use Rattle.calc_book.specs.Begun.{AreAllChanged, AreBoth, AreDue, IsIdle, KeepsCalls, names_itself};
ghost use Rattle.calc_round.specs.Rounds.{HasRoom};
ghost use Rattle.cell_refs.specs.declared.grid.Cell.{Cell as OneCell};
ghost use Rattle.cell_refs.specs.Cell.{is_among, same_cell};
ghost use Rattle.cell_store.specs.Store.{KeepsPresent, KeepsShown, KeepsTouched, is_touched, present_at};
ghost use Rattle.dep_table.specs.Table.{is_reader};
ghost use Rattle.workbook.specs.Stale.{is_stale};

use super::noting::widened;
use book_sync::{follow, follow_anew};
use calc_round::OpenWork;
use cell_chain::CellChain;
use cell_refs::Cell;
use cell_store::CellStore;
use cell_values::Memory;
use dep_table::DepTable;
use stale_marks::Marks;
use std::alloc::Global;
use std::collections::BTreeSet;
use workbook::{BeginKind, Book};

/// Brings table, marks and store in step with the book, of which these cells are changed. For the kind Rebuild the table
/// is made anew.
pub fn catch_up(
    kind: BeginKind,
    alloc: Global,
    book: &Book,
    changed: &BTreeSet<Cell>,
    table: &mut DepTable,
    marks: &mut Marks,
    store: &mut CellStore,
) -> Result<(), Memory>
    requires follows { TableFollows book.now.contents changed.now.keys table.old }

    // Whatever the answer: a table that followed still does, and changed and stale cells alone lose what they had.
    ensures again { TableFollows book.now.contents changed.now.keys table.new }
    ensures shown { KeepsShown store.old store.new }
    ensures others { (q : OneCell) → is_among changed.now.keys q ≡ false
        → is_stale book.now.contents changed.now.keys q ≡ false
        → present_at store.new q ≡ present_at store.old q }
    ensures clean { ShowsWhereClean book.now.contents changed.now.keys store.old
        → ShowsWhereClean book.now.contents changed.now.keys store.new }

    // With Ok table and marks follow the book everywhere, and changed and stale cells have what they are to have.
    ensures table { OnOk result (TableFollows book.now.contents [] table.new) }
    ensures marked { OnOk result ((q : OneCell)
        → is_among marks.new q ≡ is_stale book.now.contents changed.now.keys q) }
    ensures changed { OnOk result
        (FollowsChanged book.now.contents changed.now.keys store.new) }
    ensures stale { OnOk result ((q : OneCell)
        → is_stale book.now.contents changed.now.keys q ≡ true
        → present_at store.new q ≡ Some None) }
    ensures touched { OnOk result ((q : OneCell) → (is_among changed.now.keys q ≡ true)
        ⊎ (is_stale book.now.contents changed.now.keys q ≡ true)
        → is_touched store.new q ≡ true) }
{
    match kind {
        BeginKind::Rebuild => follow_anew(alloc, book, changed, table, marks, store),
        BeginKind::Dirty | BeginKind::All => follow(alloc, book, changed, table, marks, store),
    }
}

/// Puts the marked cells down to be looked at, but for those that name themselves, and answers the marked and the changed
/// cells. A refusal leaves those to be looked at as they were.
pub fn make_due(
    alloc: Global,
    table: &DepTable,
    changed: &BTreeSet<Cell>,
    marks: &Marks,
    chain: &mut CellChain,
    work: &mut OpenWork,
) -> Result<Vec<Cell>, Memory>
    requires calls { work.old.calls.calls ≡ [] }
    ensures due { OnOk result (AreDue table.now marks.now work.new.waiting.items) }
    ensures room { OnOk result (HasRoom work.new) }
    ensures chain { OnOk result (IsIdle chain.old chain.new) }
    ensures cells { IfOk result (λ both. AreBoth marks.now changed.now.keys both.items) }
    ensures kept { KeepsCalls work.old work.new }
    ensures same_chain { OnErr result (chain.new ≡ chain.old) }
{
    let both = both_of(alloc, changed, marks)?;
    let due = due_cells(alloc, table, marks)?;
    put_waiting(chain, work, due)?;
    Ok(both)
}

/// Makes all cells of the chain changed and stale, puts them down to be looked at, but for those that name themselves, and
/// answers the changed cells. A refusal changes marks alone, and which cells are touched.
pub fn make_all_due(
    alloc: Global,
    table: &DepTable,
    changed: &mut BTreeSet<Cell>,
    marks: &mut Marks,
    chain: &mut CellChain,
    store: &mut CellStore,
    work: &mut OpenWork,
) -> Result<Vec<Cell>, Memory>
    requires readers { (q : OneCell) → is_reader table.now q ≡ is_among chain.old.entries q }
    requires present { (q : OneCell) → is_among chain.old.entries q ≡ true
        → is_some (present_at store.old q) ≡ true }
    requires calls { work.old.calls.calls ≡ [] }
    ensures shown { KeepsShown store.old store.new }
    ensures ok { OnOk result (AreAllChanged chain.old.entries changed.old.keys changed.new.keys
        marks.new store.old store.new) }
    ensures due { OnOk result (AreDue table.now marks.new work.new.waiting.items) }
    ensures room { OnOk result (HasRoom work.new) }
    ensures chain { OnOk result (IsIdle chain.old chain.new) }
    ensures cells { IfOk result (λ both. AreBoth marks.new changed.new.keys both.items) }
    ensures kept { KeepsCalls work.old work.new }
    ensures same_chain { OnErr result (chain.new ≡ chain.old) }
    ensures same_changed { OnErr result (changed.new.keys ≡ changed.old.keys) }
    ensures same_present { OnErr result (KeepsPresent store.old store.new) }
{
    let Ok(cells) = chain.list(alloc) else {
        return Err(Memory);
    };
    let all = widened(alloc, changed, cells.as_slice())?;
    mark_all(table, cells.as_slice(), marks)?;
    touch_all(cells.as_slice(), store)?;
    let both = both_of(alloc, &all, marks)?;
    let due = due_cells(alloc, table, marks)?;
    put_waiting(chain, work, due)?;

    // Nothing is refused from here on.
    empty_all(cells.as_slice(), store);
    *changed = all;
    Ok(both)
}

/// Puts cells down to be looked at, in place of any others, and takes the room for their calls; none is due before the
/// looks begin. A refusal leaves the others.
fn put_waiting(chain: &mut CellChain, work: &mut OpenWork, due: Vec<Cell>) -> Result<(), Memory>
    requires calls { work.old.calls.calls ≡ [] }
    ensures waiting { OnOk result (work.new.waiting.items ≡ due.items) }
    ensures room { OnOk result (HasRoom work.new) }
    ensures chain { OnOk result (IsIdle chain.old chain.new) }
    ensures kept { KeepsCalls work.old work.new }
    ensures same_chain { OnErr result (chain.new ≡ chain.old) }
{
    work.calls.reserve(due.len())?;
    work.waiting = due;
    chain.rewind(&[]);
    Ok(())
}

/// The marked and the changed cells, each once.
fn both_of(alloc: Global, changed: &BTreeSet<Cell>, marks: &Marks) -> Result<Vec<Cell>, Memory>
    ensures { IfOk result (λ both. AreBoth marks.now changed.now.keys both.items) }
{
    let Ok(mut both) = marks.list(alloc) else {
        return Err(Memory);
    };
    for cell in changed {
        if !marks.is_stale(*cell) {
            both.push(*cell)?;
        }
    }
    Ok(both)
}

/// The marked cells that don't name themselves.
fn due_cells(alloc: Global, table: &DepTable, marks: &Marks) -> Result<Vec<Cell>, Memory>
    ensures cells { IfOk result (λ due. due.items
        ≡ filter (λ q. not (names_itself table.now q)) marks.now) }
    ensures once { IfOk result (λ due. IsDistinct same_cell due.items) }
{
    match marks.list(alloc) {
        Ok(cells) => naming_others(alloc, table, cells.as_slice()),
        Err(_) => Err(Memory),
    }
}

/// Those of some cells that don't name themselves.
fn naming_others(alloc: Global, table: &DepTable, cells: &[Cell]) -> Result<Vec<Cell>, Memory>
    ensures { IfOk result (λ due. due.items
        ≡ filter (λ q. not (names_itself table.now q)) cells.now) }
{
    let mut due = Vec::new(alloc);
    for cell in cells {
        if !names_itself(table, *cell) {
            due.push(*cell)?;
        }
    }
    Ok(due)
}

/// Whether a reader names itself.
fn names_itself(table: &DepTable, cell: Cell) -> bool
    ensures { result ≡ names_itself table.now cell }
{
    table
        .precedents(cell)
        .iter()
        .any(|area| area.contains(cell))
}

/// Marks readers and whatever names marked ones, and no other cell.
fn mark_all(table: &DepTable, cells: &[Cell], marks: &mut Marks) -> Result<(), Memory>
    ensures marked { OnOk result ((q : OneCell) → is_among cells.now q ≡ true
        → is_reader table.now q ≡ true → is_among marks.new q ≡ true) }
    ensures readers { OnOk result ((q : OneCell) → is_among marks.new q ≡ true
        → is_reader table.now q ≡ true) }
{
    marks.clear();
    for cell in cells {
        let Ok(()) = marks.mark(table, *cell) else {
            return Err(Memory);
        };
    }
    Ok(())
}

/// Notes what the sheet shows of cells. Whatever the answer, what is present stays, and what is shown.
fn touch_all(cells: &[Cell], store: &mut CellStore) -> Result<(), Memory>
    ensures present { KeepsPresent store.old store.new }
    ensures shown { KeepsShown store.old store.new }
    ensures touched { OnOk result ((q : OneCell) → is_among cells.now q ≡ true
        → is_touched store.new q ≡ true) }
{
    for cell in cells {
        store.touch(*cell)?;
    }
    Ok(())
}

/// Takes the values of touched cells that are present away. It takes no memory.
fn empty_all(cells: &[Cell], store: &mut CellStore)
    requires present { (q : OneCell) → is_among cells.now q ≡ true
        → is_some (present_at store.old q) ≡ true }
    requires touched { (q : OneCell) → is_among cells.now q ≡ true
        → is_touched store.old q ≡ true }
    ensures present { (q : OneCell) → present_at store.new q
        ≡ (if is_among cells.now q then Some None else present_at store.old q) }
    ensures shown { KeepsShown store.old store.new }
    ensures touched { KeepsTouched store.old store.new }
{
    for cell in cells {
        store.empty(*cell);
    }
}
