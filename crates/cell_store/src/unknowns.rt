//! Finds the cells of areas that are present with no value.

ghost use Rattle.cell_store.specs.Gathering.{IsLeast, is_sought};
ghost use Rattle.cell_store.specs.Store.{AreInOrder, entry_at};
ghost use Rattle.cell_store.specs.Walking.{IsWalk};

use super::scanning::{first_behind, lies_in, next_in};
use cell_refs::{Area, Cell};
use cell_values::Value;
use std::collections::BTreeMap;
use std::ops::Bound;

/// What a walk through entries comes to.
enum Walk {
    /// None before this cell; without one, none at all.
    Past(Option<Cell>),
    /// The first cell without a value.
    Found(Cell),
}

/// The least cell of the areas behind another, where one is given, that is present with no value.
pub fn next_unknown(
    present: &BTreeMap<Cell, Option<Value>>,
    areas: &[Area],
    after: Option<Cell>,
) -> Option<Cell>
    requires { AreInOrder present.now.entries }
    ensures { IsLeast (is_sought (entry_at present.now.entries) areas.now after) result }
{
    let mut from = first_behind(areas, after);
    while let Some(seek) = from {
        match unknown_on(present, areas, seek) {
            Walk::Past(next) => from = next,
            Walk::Found(cell) => return Some(cell),
        }
    }
    None
}

/// Looks for a cell without a value from a cell on, as far as the entries lie in the areas.
fn unknown_on(present: &BTreeMap<Cell, Option<Value>>, areas: &[Area], seek: Cell) -> Walk
    requires { AreInOrder present.now.entries }
    ensures { IsWalk present.now.entries areas.now seek result }
{
    for (cell, value) in present.range((Bound::Included(seek), Bound::Unbounded)) {
        if !lies_in(areas, *cell) {
            return Walk::Past(next_in(areas, *cell));
        }
        if value.is_none() {
            return Walk::Found(*cell);
        }
    }
    Walk::Past(None)
}
