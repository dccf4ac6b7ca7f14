//! Gathers the values of the cells of areas.

ghost use Rattle.std.specs.Prelude.{◌≡◌, ◌++◌, ◌∷◌, [], IfOk, OnOk, MatchOption};
ghost use Rattle.cell_store.specs.Gathering.{AreGathered, HasUnknown};
ghost use Rattle.cell_store.specs.Store.{AreInOrder, entry_at};
ghost use Rattle.cell_store.specs.Walking.{IsGatherStep};

use super::scanning::{first_in, lies_in, next_in};
use cell_refs::{Area, Cell};
use cell_values::{Memory, Value};
use std::alloc::Global;
use std::collections::BTreeMap;
use std::ops::Bound;

/// What a walk through entries comes to.
enum Step {
    /// All that stands before this cell is gathered; without one, all that there is.
    On(Option<Cell>),
    /// A cell of the areas has no value.
    Unknown,
}

/// The values of the entries in the areas, each once and in cell order; None where one has no value. It goes over the
/// entries and not over the grid.
pub fn gather(
    alloc: Global,
    present: &BTreeMap<Cell, Option<Value>>,
    areas: &[Area],
) -> Result<Option<Vec<(Cell, Value)>>, Memory>
    requires { AreInOrder present.now.entries }
    ensures { IfOk result (λ all.
        MatchOption all (HasUnknown (entry_at present.now.entries) areas.now)
        (λ entries. AreGathered (entry_at present.now.entries) areas.now entries.items)) }
{
    let mut entries = Vec::new(alloc);
    let mut from = first_in(areas);
    while let Some(seek) = from {
        match gather_on(present, areas, seek, &mut entries)? {
            Step::On(next) => from = next,
            Step::Unknown => return Ok(None),
        }
    }
    Ok(Some(entries))
}

/// Gathers the values of the entries from a cell on, as far as they lie in the areas.
fn gather_on(
    present: &BTreeMap<Cell, Option<Value>>,
    areas: &[Area],
    seek: Cell,
    entries: &mut Vec<(Cell, Value)>,
) -> Result<Step, Memory>
    requires { AreInOrder present.now.entries }
    ensures { IfOk result (IsGatherStep present.now.entries areas.now entries.old.items
        entries.new.items seek) }
{
    for (cell, value) in present.range((Bound::Included(seek), Bound::Unbounded)) {
        if !lies_in(areas, *cell) {
            return Ok(Step::On(next_in(areas, *cell)));
        }
        let Some(value) = value else {
            return Ok(Step::Unknown);
        };
        push_copy(entries, *cell, value)?;
    }
    Ok(Step::On(None))
}

/// Adds a cell with a copy of its value.
fn push_copy(entries: &mut Vec<(Cell, Value)>, cell: Cell, value: &Value) -> Result<(), Memory>
    ensures { OnOk result (entries.new.items ≡ entries.old.items ++ (cell, value.now) ∷ []) }
{
    let copy = value.copy()?;
    entries.push((cell, copy))?;
    Ok(())
}
