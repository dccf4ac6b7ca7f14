//! Sets of changed cells, to which cells are added.

ghost use Rattle.std.specs.Prelude.{◌≡◌, false, not, ◌&&◌, ◌||◌, IfOk, OnOk, OnErr};
ghost use Rattle.std.specs.List.{filter};
ghost use Rattle.calc_round.specs.Rounds.{HasSameCells};
ghost use Rattle.cell_refs.specs.declared.grid.Cell.{Cell as OneCell};
ghost use Rattle.cell_refs.specs.Cell.{is_among};

use cell_refs::Cell;
use cell_values::Memory;
use std::alloc::Global;
use std::collections::BTreeSet;

/// Notes all these cells as changed. A refusal takes back what it noted.
pub fn note_all(alloc: Global, changed: &mut BTreeSet<Cell>, cells: &[Cell]) -> Result<(), Memory>
    ensures ok { OnOk result ((q : OneCell)
        → is_among changed.new.keys q ≡ (is_among cells.now q || is_among changed.old.keys q)) }
    ensures refused { OnErr result (HasSameCells changed.old.keys changed.new.keys) }
{
    let new = not_noted(alloc, changed, cells)?;
    let fresh = new.as_slice();
    match insert_all(changed, fresh) {
        Ok(()) => Ok(()),
        Err(memory) => {
            remove_all(changed, fresh);
            Err(memory)
        }
    }
}

/// Those of some cells that aren't noted as changed.
fn not_noted(alloc: Global, changed: &BTreeSet<Cell>, cells: &[Cell]) -> Result<Vec<Cell>, Memory>
    ensures { IfOk result (λ new. new.items
        ≡ filter (λ q. not (is_among changed.now.keys q)) cells.now) }
{
    let mut new = Vec::new(alloc);
    for cell in cells {
        if !is_noted(changed, *cell) {
            new.push(*cell)?;
        }
    }
    Ok(new)
}

/// Whether a cell is noted as changed.
fn is_noted(changed: &BTreeSet<Cell>, cell: Cell) -> bool
    ensures { result ≡ is_among changed.now.keys cell }
{
    changed.contains(&cell)
}

/// A set of the changed cells and of these.
pub fn widened(
    alloc: Global,
    changed: &BTreeSet<Cell>,
    cells: &[Cell],
) -> Result<BTreeSet<Cell>, Memory>
    ensures { IfOk result (λ all. (q : OneCell)
        → is_among all.keys q ≡ (is_among changed.now.keys q || is_among cells.now q)) }
{
    let mut all = copied(alloc, changed)?;
    insert_all(&mut all, cells)?;
    Ok(all)
}

/// Another set of the same cells.
fn copied(alloc: Global, cells: &BTreeSet<Cell>) -> Result<BTreeSet<Cell>, Memory>
    ensures { IfOk result (λ all. (q : OneCell)
        → is_among all.keys q ≡ is_among cells.now.keys q) }
{
    let mut all = BTreeSet::new(alloc);
    for cell in cells {
        all.insert(*cell)?;
    }
    Ok(all)
}

/// Puts cells into a set. Whatever the answer, a cell is in the set only if it was there or is one of these.
fn insert_all(all: &mut BTreeSet<Cell>, cells: &[Cell]) -> Result<(), Memory>
    ensures ok { OnOk result ((q : OneCell)
        → is_among all.new.keys q ≡ (is_among all.old.keys q || is_among cells.now q)) }
    ensures others { (q : OneCell) → is_among cells.now q ≡ false
        → is_among all.new.keys q ≡ is_among all.old.keys q }
{
    for cell in cells {
        all.insert(*cell)?;
    }
    Ok(())
}

/// Takes cells out of a set. It takes no memory.
fn remove_all(all: &mut BTreeSet<Cell>, cells: &[Cell])
    ensures { (q : OneCell)
        → is_among all.new.keys q ≡ (is_among all.old.keys q && not (is_among cells.now q)) }
{
    for cell in cells {
        let _ = all.remove(cell);
    }
}
