//! Where a cell that was looked at goes in the chain: behind the last cell that it names.

ghost use Rattle.std.specs.Prelude.{◌≡◌, true, false, Some};
ghost use Rattle.cell_refs.specs.Cell.{is_among};
ghost use Rattle.calc_round.specs.Looks.{IsOther, IsReordered};

use cell_chain::CellChain;
use cell_refs::{Area, Cell};
use cell_store::CellStore;
use cell_values::Value;

/// Moves a cell behind the last in the chain of the cells that have these values.
pub fn place_behind_named(chain: &mut CellChain, cell: Cell, entries: &[(Cell, Value)])
    requires entry { is_among chain.old.entries cell ≡ true }
    requires idle { is_among chain.old.due cell ≡ false }
    ensures { IsReordered chain.old chain.new }
{
    let mut last = None;
    for (named, _) in entries {
        last = later(chain, cell, last, *named);
    }
    place_behind(chain, cell, last);
}

/// Moves a cell behind the last in the chain of the unfinished cells of the areas.
pub fn place_behind_unfinished(chain: &mut CellChain, store: &CellStore, cell: Cell, areas: &[Area])
    requires entry { is_among chain.old.entries cell ≡ true }
    requires idle { is_among chain.old.due cell ≡ false }
    ensures { IsReordered chain.old chain.new }
{
    let mut last = None;
    let mut after = None;
    'unknowns: while let Some(named) = store.next_unknown(areas, after) {
        last = later(chain, cell, last, named);
        after = Some(named);
    }
    place_behind(chain, cell, last);
}

/// The later in the chain of a cell that was found and one that is named, where that is another and stands in the chain.
fn later(chain: &CellChain, cell: Cell, last: Option<Cell>, named: Cell) -> Option<Cell>
    requires { IsOther chain.now.entries cell last }
    ensures { IsOther chain.now.entries cell result }
{
    if named == cell || !chain.has(named) {
        return last;
    }
    match last {
        Some(other) if other == named || chain.behind(other, named) => last,
        _ => Some(named),
    }
}

/// Moves a cell behind another, if there is one.
fn place_behind(chain: &mut CellChain, cell: Cell, last: Option<Cell>)
    requires other { IsOther chain.old.entries cell last }
    requires entry { is_among chain.old.entries cell ≡ true }
    requires idle { is_among chain.old.due cell ≡ false }
    ensures { IsReordered chain.old chain.new }
{
    if let Some(other) = last {
        chain.move_behind(cell, other);
    }
}
