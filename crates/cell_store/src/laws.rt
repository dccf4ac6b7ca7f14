//! Laws over the definitions, as contracts of functions that do nothing.

ghost use Rattle.std.specs.Prelude.{◌≡◌, List, Option, false};
ghost use Rattle.cell_refs.specs.declared.grid.Cell.{Cell as OneCell};
ghost use Rattle.cell_values.specs.declared.values.Value.{Value as OneValue};
ghost use Rattle.cell_store.specs.Store.{AreInOrder, StoreState, entry_at, is_touched, present_at, shown_at};

/// Entries in cell order, in which every cell looks up alike, are equal: those of sheets, and those of gathered values.
pub fn entries_that_look_up_alike_are_equal()
    ensures sheets { (a b : List (OneCell × Option OneValue)) → AreInOrder a → AreInOrder b
        → ((q : OneCell) → entry_at a q ≡ entry_at b q) → a ≡ b }
    ensures values { (a b : List (OneCell × OneValue)) → AreInOrder a → AreInOrder b
        → ((q : OneCell) → entry_at a q ≡ entry_at b q) → a ≡ b }
{}

/// The sheet shows what is present of each cell that wasn't touched since the last completion.
pub fn an_untouched_cell_shows_what_is_present()
    ensures { (store : StoreState) (q : OneCell) → is_touched store q ≡ false
        → shown_at store q ≡ present_at store q }
{}
