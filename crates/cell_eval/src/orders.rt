ghost use Rattle.std.specs.Prelude.{◌≡◌, true};
ghost use Rattle.std.specs.List.Sorted.{IsStrictlySortedBy};
ghost use Rattle.std.specs.Map.{keys_of};
ghost use Rattle.cell_refs.specs.Cell.{cell_cmp};
ghost use Rattle.cell_eval.specs.Inputs.{ascends_from};

use cell_refs::Cell;
use cell_values::Value;

/// Whether entries stand in the order of cells, each cell once.
pub fn is_in_order(entries: &[(Cell, Value)]) -> bool
    ensures ordered { result ≡ true → IsStrictlySortedBy cell_cmp (keys_of entries.now) }
    ensures found { IsStrictlySortedBy cell_cmp (keys_of entries.now) → result ≡ true }
{
    match entries.split_first() {
        None => true,
        Some((first, others)) => do_ascend(first.0, others),
    }
}

/// Whether the cells of entries ascend from a cell on.
fn do_ascend(last: Cell, entries: &[(Cell, Value)]) -> bool
    ensures { result ≡ ascends_from last entries.now }
{
    let mut last = last;
    for entry in entries {
        if last < entry.0 {
            last = entry.0;
        } else {
            return false;
        }
    }
    true
}
