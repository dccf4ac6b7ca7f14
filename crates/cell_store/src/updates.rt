//! Puts values into the two maps of a store: what is present, and what was shown before of each touched cell.

ghost use Rattle.std.specs.Prelude.{◌≡◌, Bool, true, false, ◌||◌, Option, None, Some, is_some, IsSome, OnOk, OnErr, unwrap_or, if◌then◌else◌, IfOk};
ghost use Rattle.std.specs.BTreeMap.{IsOrdered, IsUnchanged};
ghost use Rattle.cell_refs.specs.declared.grid.Cell.{Cell as OneCell};
ghost use Rattle.cell_refs.specs.Cell.{cell_cmp, same_cell};
ghost use Rattle.cell_store.specs.Store.{AreInOrder, GainsTouched, KeepsShown, KeepsTouched, PutsPresent, StoreState, entry_at, is_touched, present_at, shown_at};

use cell_refs::Cell;
use cell_values::{Memory, Value};
use std::collections::BTreeMap;

/// Writes a value over that of a key that is there. It takes no memory.
pub fn replace<V: Drop>(map: &mut BTreeMap<Cell, V>, cell: Cell, value: V)
    requires { IsSome (entry_at map.old.entries cell) }
    ensures written { (q : OneCell) → entry_at map.new.entries q
        ≡ (if same_cell cell q then Some value else entry_at map.old.entries q) }
    ensures ordered { AreInOrder map.new.entries }
{
    if let Some(place) = map.get_mut(&cell) {
        *place = value;
    }
}

/// A copy of what is present at a cell.
fn copied(
    present: &BTreeMap<Cell, Option<Value>>,
    cell: Cell,
) -> Result<Option<Option<Value>>, Memory>
    ensures { IfOk result (λ copy. copy ≡ entry_at present.now.entries cell) }
{
    match present.get(&cell) {
        None => Ok(None),
        Some(None) => Ok(Some(None)),
        Some(Some(value)) => Ok(Some(Some(value.copy()?))),
    }
}

/// Notes what is present at a cell as what was shown before, where the cell isn't touched yet.
pub fn touch(
    present: &BTreeMap<Cell, Option<Value>>,
    before: &mut BTreeMap<Cell, Option<Option<Value>>>,
    cell: Cell,
) -> Result<(), Memory>
    requires { AreInOrder before.old.entries }
    ensures ordered { AreInOrder before.new.entries }
    ensures touched { OnOk result ((q : OneCell) → is_some (entry_at before.new.entries q)
        ≡ (same_cell cell q || is_some (entry_at before.old.entries q))) }
    ensures shown { (q : OneCell)
        → unwrap_or (entry_at before.new.entries q) (entry_at present.now.entries q)
        ≡ unwrap_or (entry_at before.old.entries q) (entry_at present.now.entries q) }
    ensures refused { OnErr result (before.new.entries ≡ before.old.entries) }
{
    if before.contains_key(&cell) {
        return Ok(());
    }
    let shown = copied(present, cell)?;
    before.insert(cell, shown)?;
    Ok(())
}

/// Makes a value the present one of a cell.
pub fn put(
    present: &mut BTreeMap<Cell, Option<Value>>,
    before: &mut BTreeMap<Cell, Option<Option<Value>>>,
    cell: Cell,
    value: Option<Value>,
) -> Result<(), Memory>
    requires present { AreInOrder present.old.entries }
    requires before { AreInOrder before.old.entries }
    ensures ordered { AreInOrder present.new.entries × AreInOrder before.new.entries }
    ensures present { OnOk result ((q : OneCell) → entry_at present.new.entries q
        ≡ (if same_cell cell q then Some value else entry_at present.old.entries q)) }
    ensures touched { OnOk result ((q : OneCell) → is_some (entry_at before.new.entries q)
        ≡ (same_cell cell q || is_some (entry_at before.old.entries q))) }
    ensures shown { (q : OneCell)
        → unwrap_or (entry_at before.new.entries q) (entry_at present.new.entries q)
        ≡ unwrap_or (entry_at before.old.entries q) (entry_at present.old.entries q) }
    ensures refused { OnErr result ((present.new.entries ≡ present.old.entries)
        × (before.new.entries ≡ before.old.entries)) }
{
    if before.contains_key(&cell) {
        present.insert(cell, value)?;
        return Ok(());
    }
    before.insert(cell, None)?;
    match present.insert(cell, value) {
        Ok(shown) => {
            replace(before, cell, shown);
            Ok(())
        }
        Err(_) => {
            let _ = before.remove(&cell);
            Err(Memory)
        }
    }
}

/// Takes the present value of a cell away.
pub fn remove(
    present: &mut BTreeMap<Cell, Option<Value>>,
    before: &mut BTreeMap<Cell, Option<Option<Value>>>,
    cell: Cell,
) -> Result<(), Memory>
    requires present { AreInOrder present.old.entries }
    requires before { AreInOrder before.old.entries }
    ensures ordered { AreInOrder present.new.entries × AreInOrder before.new.entries }
    ensures present { OnOk result ((q : OneCell) → entry_at present.new.entries q
        ≡ (if same_cell cell q then None else entry_at present.old.entries q)) }
    ensures touched { OnOk result ((q : OneCell) → is_some (entry_at before.new.entries q)
        ≡ (same_cell cell q || is_some (entry_at before.old.entries q))) }
    ensures shown { (q : OneCell)
        → unwrap_or (entry_at before.new.entries q) (entry_at present.new.entries q)
        ≡ unwrap_or (entry_at before.old.entries q) (entry_at present.old.entries q) }
    ensures refused { OnErr result ((present.new.entries ≡ present.old.entries)
        × (before.new.entries ≡ before.old.entries)) }
{
    if before.contains_key(&cell) {
        let _ = present.remove(&cell);
        return Ok(());
    }
    before.insert(cell, None)?;
    let shown = present.remove(&cell);
    replace(before, cell, shown);
    Ok(())
}
