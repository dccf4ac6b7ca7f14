ghost use Rattle.std.specs.Prelude.{◌≡◌, ◌+◌, ◌++◌, ◌∷◌, [], ◌⊎◌, List, true, false, OnOk, OnErr, MatchResult, take};
ghost use Rattle.std.specs.BTreeSet.{IsOrdered, IsUnchanged};
ghost use Rattle.cell_refs.specs.declared.areas.Area.{Area as OneArea};
ghost use Rattle.cell_refs.specs.declared.grid.Cell.{Cell as OneCell};
ghost use Rattle.cell_refs.specs.Cell.{cell_cmp, is_among};
ghost use Rattle.cell_refs.specs.Reaching.{Reaches};
ghost use Rattle.dep_table.specs.Table.{IsInOrder, is_reader, precedents_at};
ghost use Rattle.stale_marks.specs.Marks.{IsClosed, IsClosedBut};
ghost use Rattle.stale_marks.specs.Spreading.{AreDependents, AreWalked, HasBegun, HasSpread, HasSpreadInPart};
ghost use Rattle.stale_marks.specs.Marks.{IsDependent, KeepsMarks};

use cell_refs::{Cell, Memory};
use dep_table::DepTable;
use std::alloc::Global;
use std::collections::BTreeSet;

/// Marks each reader from which a cell is reached; a refusal changes nothing.
pub fn spread(
    alloc: Global,
    table: &DepTable,
    origin: Cell,
    marks: &mut BTreeSet<Cell>,
) -> Result<(), Memory>
    requires { IsOrdered cell_cmp marks.old }
    ensures ordered { IsOrdered cell_cmp marks.new }
    ensures kept { KeepsMarks marks.old.keys marks.new.keys }
    ensures only { (q : OneCell) → is_among marks.new.keys q ≡ true
        → (is_among marks.old.keys q ≡ true) ⊎ IsDependent table.now origin q }
    ensures all { IsClosedBut origin table.now marks.old.keys
        → OnOk result ((q : OneCell) → IsDependent table.now origin q
        → is_among marks.new.keys q ≡ true) }
    ensures closed { IsClosedBut origin table.now marks.old.keys
        → OnOk result (IsClosed table.now marks.new.keys) }
    ensures refused { OnErr result (marks.new.keys ≡ marks.old.keys) }
{
    if marks.contains(&origin) {
        return Ok(());
    }
    let mut added = Vec::new(alloc);
    match walk(alloc, table, origin, marks, &mut added) {
        Ok(()) => Ok(()),
        Err(memory) => {
            take_back(marks, added.as_slice());
            Err(memory)
        }
    }
}

/// Marks each reader from which an unmarked cell is reached, and lists those that weren't marked.
fn walk(
    alloc: Global,
    table: &DepTable,
    origin: Cell,
    marks: &mut BTreeSet<Cell>,
    added: &mut Vec<Cell>,
) -> Result<(), Memory>
    requires ordered { IsOrdered cell_cmp marks.old }
    requires absent { is_among marks.old.keys origin ≡ false }
    requires empty { added.old.items ≡ [] }
    ensures ordered { IsOrdered cell_cmp marks.new }
    ensures spread { MatchResult result
        (λ _. HasSpread table.now origin marks.old.keys marks.new.keys added.new.items)
        (λ _. HasSpreadInPart marks.old.keys marks.new.keys added.new.items) }
    ensures begun { OnOk result (HasBegun table.now origin marks.new.keys added.new.items) }
    ensures walked { OnOk result (AreWalked table.now marks.new.keys added.new.items) }
{
    begin(alloc, table, origin, marks, added)?;
    let mut next = 0;
    while next < added.len() {
        walk_on(alloc, table, origin, added[next], marks, added)?;
        next += 1;
    }
    Ok(())
}

/// Marks the origin, if it is a reader, else its readers.
fn begin(
    alloc: Global,
    table: &DepTable,
    origin: Cell,
    marks: &mut BTreeSet<Cell>,
    added: &mut Vec<Cell>,
) -> Result<(), Memory>
    requires ordered { IsOrdered cell_cmp marks.old }
    requires absent { is_among marks.old.keys origin ≡ false }
    requires empty { added.old.items ≡ [] }
    ensures ordered { IsOrdered cell_cmp marks.new }
    ensures spread { MatchResult result
        (λ _. HasSpread table.now origin marks.old.keys marks.new.keys added.new.items)
        (λ _. HasSpreadInPart marks.old.keys marks.new.keys added.new.items) }
    ensures begun { OnOk result (HasBegun table.now origin marks.new.keys added.new.items) }
{
    if table.has(origin) {
        add(marks, origin, added)
    } else {
        walk_on(alloc, table, origin, origin, marks, added)
    }
}

/// Marks the readers of a cell, which is the origin or one from which it is reached.
fn walk_on(
    alloc: Global,
    table: &DepTable,
    origin: Cell,
    cell: Cell,
    marks: &mut BTreeSet<Cell>,
    added: &mut Vec<Cell>,
) -> Result<(), Memory>
    requires ordered { IsOrdered cell_cmp marks.old }
    requires from { Reaches (precedents_at table.now) (origin ∷ []) cell }
    ensures ordered { IsOrdered cell_cmp marks.new }
    ensures spread { (old : List OneCell)
        → HasSpread table.now origin old marks.old.keys added.old.items
        → MatchResult result
        (λ _. HasSpread table.now origin old marks.new.keys added.new.items)
        (λ _. HasSpreadInPart old marks.new.keys added.new.items) }
    ensures walked { OnOk result (AreWalked table.now marks.new.keys (cell ∷ [])) }
    ensures kept { KeepsMarks marks.old.keys marks.new.keys }
    ensures behind { (more : List OneCell) × (added.new.items ≡ added.old.items ++ more) }
{
    let readers = match table.readers(alloc, cell) {
        Ok(readers) => readers,
        Err(memory) => return Err(memory),
    };
    add_all(marks, readers.as_slice(), added)
}

/// Marks cells, and lists those that weren't marked.
fn add_all(marks: &mut BTreeSet<Cell>, cells: &[Cell], added: &mut Vec<Cell>) -> Result<(), Memory>
    requires ordered { IsOrdered cell_cmp marks.old }
    ensures ordered { IsOrdered cell_cmp marks.new }
    ensures spread { (table : List (OneCell × List OneArea)) (origin : OneCell) (old : List OneCell)
        → HasSpread table origin old marks.old.keys added.old.items
        → AreDependents table origin cells.now
        → MatchResult result
        (λ _. HasSpread table origin old marks.new.keys added.new.items)
        (λ _. HasSpreadInPart old marks.new.keys added.new.items) }
    ensures all { OnOk result ((q : OneCell) → is_among cells.now q ≡ true
        → is_among marks.new.keys q ≡ true) }
    ensures kept { KeepsMarks marks.old.keys marks.new.keys }
    ensures behind { (more : List OneCell) × (added.new.items ≡ added.old.items ++ more) }
{
    for cell in cells {
        add(marks, *cell, added)?;
    }
    Ok(())
}

/// Marks a cell, and lists it if it wasn't marked.
fn add(marks: &mut BTreeSet<Cell>, cell: Cell, added: &mut Vec<Cell>) -> Result<(), Memory>
    requires ordered { IsOrdered cell_cmp marks.old }
    ensures ordered { IsOrdered cell_cmp marks.new }
    ensures spread { (table : List (OneCell × List OneArea)) (origin : OneCell) (old : List OneCell)
        → HasSpread table origin old marks.old.keys added.old.items
        → IsDependent table origin cell
        → MatchResult result
        (λ _. HasSpread table origin old marks.new.keys added.new.items)
        (λ _. HasSpreadInPart old marks.new.keys added.new.items) }
    ensures here { OnOk result (is_among marks.new.keys cell ≡ true) }
    ensures kept { KeepsMarks marks.old.keys marks.new.keys }
    ensures behind { (more : List OneCell) × (added.new.items ≡ added.old.items ++ more) }
{
    if marks.contains(&cell) {
        return Ok(());
    }
    added.push(cell)?;
    marks.insert(cell)?;
    Ok(())
}

/// Takes the marks of the cells that were added back.
fn take_back(marks: &mut BTreeSet<Cell>, added: &[Cell])
    requires ordered { IsOrdered cell_cmp marks.old }
    ensures ordered { IsOrdered cell_cmp marks.new }
    ensures left { (q : OneCell) → is_among marks.new.keys q ≡ true
        → (is_among marks.old.keys q ≡ true) × (is_among added.now q ≡ false) }
    ensures kept { (q : OneCell) → is_among marks.old.keys q ≡ true
        → is_among added.now q ≡ false → is_among marks.new.keys q ≡ true }
{
    for cell in added {
        let _ = marks.remove(cell);
    }
}
