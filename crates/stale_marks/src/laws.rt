//! Laws over the definitions, as contracts of functions that do nothing.

ghost use Rattle.std.specs.Prelude.{◌≡◌, ◌⊎◌, ◌∷◌, List, true, false};
ghost use Rattle.cell_refs.specs.declared.areas.Area.{Area as OneArea};
ghost use Rattle.cell_refs.specs.declared.grid.Cell.{Cell as OneCell};
ghost use Rattle.cell_refs.specs.Cell.{is_among};
ghost use Rattle.dep_table.specs.Table.{is_reader};
ghost use Rattle.stale_marks.specs.Marks.{AreMarked, ChangesOnly, IsClosed, IsClosedBut, IsDependent, KeepsMarks, LosesMark};

/// Where one reader's areas are new or gone, the readers of marked cells are marked, but for that one. So `mark` of
/// it marks all from which it is reached.
pub fn an_edit_leaves_marks_closed_but_for_one()
    ensures { (before now : List (OneCell × List OneArea)) (cell : OneCell) (marks : List OneCell)
        → ChangesOnly before now cell → IsClosed before marks → IsClosedBut cell now marks }
{}

/// With one mark for each changed cell the readers that are marked are those from which a changed cell is reached: an
/// edit and its mark keep that, also where the edit cut a path.
pub fn a_mark_follows_an_edit()
    ensures { (before now : List (OneCell × List OneArea)) (cell : OneCell)
        (old new changed : List OneCell)
        → ChangesOnly before now cell → AreMarked before old changed → KeepsMarks old new
        → ((q : OneCell) → is_among new q ≡ true
        → (is_among old q ≡ true) ⊎ IsDependent now cell q)
        → ((q : OneCell) → IsDependent now cell q → is_among new q ≡ true)
        → IsClosed now new → AreMarked now new (cell ∷ changed) }
{}

/// The mark of a cell that is no reader can be taken away.
pub fn a_constant_needs_no_mark()
    ensures { (table : List (OneCell × List OneArea)) (cell : OneCell)
        (old new changed : List OneCell)
        → is_reader table cell ≡ false → AreMarked table old changed → LosesMark old new cell
        → AreMarked table new changed }
{}
