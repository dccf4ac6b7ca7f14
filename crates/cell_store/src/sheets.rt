//! Lists what the sheet shows, in cell order.

ghost use Rattle.std.specs.Prelude.{◌≡◌, ◌++◌, ◌∷◌, [], ◌<◌, ◌^◌, Option, None, Some, length, IfOk, OnOk};
ghost use Rattle.std.specs.Map.Iter.{ShowsInOrder, deref_pair};
ghost use Rattle.cell_refs.specs.declared.grid.Cell.{Cell as OneCell};
ghost use Rattle.cell_values.specs.declared.values.Value.{Value as OneValue};
ghost use Rattle.cell_store.specs.Listing.{IsAhead, bound_of, entries_between, sheet_from, shown_entry};
ghost use Rattle.cell_store.specs.Store.{AreInOrder};

use cell_refs::Cell;
use cell_values::{Memory, Value};
use std::alloc::Global;
use std::collections::BTreeMap;
use std::collections::btree_map::Range;
use std::ops::Bound;

/// The entries of the sheet: of a touched cell what was shown before, of the others what is present.
pub fn sheet(
    alloc: Global,
    present: &BTreeMap<Cell, Option<Value>>,
    before: &BTreeMap<Cell, Option<Option<Value>>>,
) -> Result<Vec<(Cell, Option<Value>)>, Memory>
    requires { AreInOrder before.now.entries }
    ensures { IfOk result (λ sheet. sheet.items
        ≡ sheet_from present.now.entries None before.now.entries) }
{
    let mut sheet = Vec::new(alloc);
    let mut last = None;
    for (cell, shown) in before {
        push_between(&mut sheet, present, last, Some(*cell))?;
        push_shown(&mut sheet, *cell, shown)?;
        last = Some(*cell);
    }
    push_between(&mut sheet, present, last, None)?;
    Ok(sheet)
}

/// Adds copies of the entries between two cells; without the first one, of all up to the second, and so on.
fn push_between(
    sheet: &mut Vec<(Cell, Option<Value>)>,
    present: &BTreeMap<Cell, Option<Value>>,
    after: Option<Cell>,
    end: Option<Cell>,
) -> Result<(), Memory>
    requires { IsAhead after end }
    ensures { OnOk result (sheet.new.items
        ≡ sheet.old.items ++ entries_between after end present.now.entries) }
{
    for (cell, value) in between(present, after, end) {
        push_copy(sheet, *cell, value)?;
    }
    Ok(())
}

/// The entries between two cells.
fn between(
    present: &BTreeMap<Cell, Option<Value>>,
    after: Option<Cell>,
    end: Option<Cell>,
) -> Range<'_, Cell, Option<Value>>
    requires { IsAhead after end }
    ensures entries { result ≡ entries_between after end present.now.entries }
    ensures runs { ShowsInOrder (deref_pair {K = OneCell} {X = Option OneValue}) }
    ensures fits { length result < 2 ^ 63 }
{
    present.range((excluded(after), excluded(end)))
}

/// The bound at which a cell stands outside.
fn excluded(cell: Option<Cell>) -> Bound<Cell>
    ensures { result ≡ bound_of cell }
{
    match cell {
        None => Bound::Unbounded,
        Some(cell) => Bound::Excluded(cell),
    }
}

/// Adds what was shown of a cell, where it was shown.
fn push_shown(
    sheet: &mut Vec<(Cell, Option<Value>)>,
    cell: Cell,
    shown: &Option<Option<Value>>,
) -> Result<(), Memory>
    ensures { OnOk result (sheet.new.items ≡ sheet.old.items ++ shown_entry cell shown.now) }
{
    match shown {
        None => Ok(()),
        Some(value) => push_copy(sheet, cell, value),
    }
}

/// Adds a cell with a copy of its value.
fn push_copy(
    sheet: &mut Vec<(Cell, Option<Value>)>,
    cell: Cell,
    value: &Option<Value>,
) -> Result<(), Memory>
    ensures { OnOk result (sheet.new.items ≡ sheet.old.items ++ (cell, value.now) ∷ []) }
{
    let copy = match value {
        None => None,
        Some(value) => Some(value.copy()?),
    };
    sheet.push((cell, copy))?;
    Ok(())
}
