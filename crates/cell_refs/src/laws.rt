//! Laws over the definitions, each the contract of a function without a body.

ghost use Rattle.std.specs.Prelude.{◌≡◌, ℕ, ◌≤◌, ◌↔◌, ◌++◌, List, Some, length, slice_index, true, false, Contains, AllPairs, IsAscii};
ghost use Rattle.std.specs.Char.{is_ascii_digit};
ghost use Rattle.std.specs.declared.cmp.Ordering.TheVariants.{Less};
ghost use Rattle.cell_refs.specs.declared.areas.Area.{Area};
ghost use Rattle.cell_refs.specs.declared.grid.Cell.{Cell};
ghost use Rattle.cell_refs.specs.declared.handles.Handle.{Handle};
ghost use Rattle.cell_refs.specs.declared.references.RefText.{RefText};
ghost use Rattle.cell_refs.specs.Area.{IsArea, IsInside, area_has, cells_of, size_of};
ghost use Rattle.cell_refs.specs.Cell.{IsCell, cell_cmp};
ghost use Rattle.cell_refs.specs.Handle.{IsHandle, handle_in, handle_text};
ghost use Rattle.cell_refs.specs.RefText.{IsReference, cell_at};
ghost use Rattle.cell_refs.specs.Written.{StandsAt, cell_text, plain_reference, reference_at, reference_text};

/// Reading gives exactly the reference that stands at the front, so at most one does.
pub fn reading_gives_what_stands()
    ensures stands { (text : List ℕ) (r : RefText) (n : ℕ) → reference_at text ≡ Some (r, n)
        → StandsAt text r n }
    ensures read { (text : List ℕ) (r : RefText) (n : ℕ) → StandsAt text r n
        → reference_at text ≡ Some (r, n) }
{}

/// What is written reads back, whatever follows it but a digit.
pub fn written_text_reads_back()
    ensures reference { (r : RefText) (rest : List ℕ) → IsReference r
        → is_ascii_digit (slice_index rest 0) ≡ false
        → reference_at (reference_text r ++ rest) ≡ Some (r, length (reference_text r)) }
    ensures cell { (cell : Cell) (rest : List ℕ) → IsCell cell
        → is_ascii_digit (slice_index rest 0) ≡ false
        → reference_at (cell_text cell ++ rest)
        ≡ Some (plain_reference cell, length (cell_text cell)) }
    ensures means { (cell : Cell) → cell_at (plain_reference cell) 1 ≡ cell }
{}

/// Cells and references are written in ASCII, and no two cells alike.
pub fn each_cell_has_its_text()
    ensures reference { (r : RefText) → IsReference r → IsAscii (reference_text r) }
    ensures cell { (cell : Cell) → IsCell cell → IsAscii (cell_text cell) }
    ensures one { (a b : Cell) → IsCell a → IsCell b → cell_text a ≡ cell_text b → a ≡ b }
{}

/// A handle that is written reads back, whatever is read is a handle with this text, and no two are written alike.
pub fn each_handle_has_its_text()
    ensures back { (h : Handle) → IsHandle h → handle_in (handle_text h) ≡ Some h }
    ensures read { (text : List ℕ) (h : Handle) → handle_in text ≡ Some h
        → (text ≡ handle_text h) × IsHandle h }
    ensures one { (a b : Handle) → IsHandle a → IsHandle b → handle_text a ≡ handle_text b → a ≡ b }
{}

/// An area's list has exactly the cells between its corners, in the order of cells and so each once.
pub fn an_area_lists_its_cells()
    ensures member { (area : Area) (cell : Cell)
        → Contains (cells_of area) cell ↔ IsInside area cell }
    ensures ordered { (area : Area) → AllPairs (λ a b. cell_cmp a b ≡ Less) (cells_of area) }
    ensures count { (area : Area) → length (cells_of area) ≡ size_of area }
    ensures grid { (area : Area) (cell : Cell) → IsArea area → IsInside area cell → IsCell cell }
    ensures test { (area : Area) (cell : Cell) → (area_has area cell ≡ true) ↔ IsInside area cell }
{}
