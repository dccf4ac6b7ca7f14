//! Laws over the definitions, as contracts of functions that do nothing.

ghost use Rattle.std.specs.Prelude.{◌≡◌, List, true, false};
ghost use Rattle.book_sync.specs.Following.{ShowsWhereClean, TableFollows};
ghost use Rattle.cell_refs.specs.declared.areas.Area.{Area as OneArea};
ghost use Rattle.cell_refs.specs.declared.grid.Cell.{Cell as OneCell};
ghost use Rattle.cell_refs.specs.Cell.{is_among};
ghost use Rattle.cell_store.specs.Store.{StoreState};
ghost use Rattle.workbook.specs.declared.contents.Content.{Content as OneContent};
ghost use Rattle.workbook.specs.Book.{content_at};

/// Where a book is edited at changed cells alone, and what was changed stays so, a table that follows the book still
/// does, and what is present is still shown where no changed cell is reached: so an edit has nothing to do but to note
/// its cell.
pub fn what_follows_a_book_still_does_after_an_edit()
    ensures table { (before now : List (OneCell × OneContent)) (changed later : List OneCell)
        (table : List (OneCell × List OneArea))
        → ((q : OneCell) → is_among later q ≡ false → content_at before q ≡ content_at now q)
        → ((q : OneCell) → is_among changed q ≡ true → is_among later q ≡ true)
        → TableFollows before changed table → TableFollows now later table }
    ensures shows { (before now : List (OneCell × OneContent)) (changed later : List OneCell)
        (store : StoreState)
        → ((q : OneCell) → is_among later q ≡ false → content_at before q ≡ content_at now q)
        → ((q : OneCell) → is_among changed q ≡ true → is_among later q ≡ true)
        → ShowsWhereClean before changed store → ShowsWhereClean now later store }
{}
