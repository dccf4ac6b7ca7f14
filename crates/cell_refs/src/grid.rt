ghost use Rattle.std.specs.Prelude.{◌≡◌, ◌↔◌, IsSome, IfSome, Some, refl};
ghost use Rattle.std.specs.Cmp.{eq_by_cmp_equiv, partial_equiv_from_equiv, partial_order_from_total};
ghost use Rattle.cell_refs.specs.Cell.{cell_cmp, cells_total, same_cell};
ghost use Rattle.cell_refs.specs.CellInput.{cell_input, same_cell_input};

use std::cmp::Ordering;
use std::hash::{Hash, Hasher};

/// A cell of the grid: its sheet from 1 to 64, its row from 1 to 1,048,576 and its column from 1 to 16,384.
/// It takes 8 bytes, for which its fields stand in another order than they are compared in.
#[derive(Clone, Copy, Debug)]
pub struct Cell {
    pub sheet: u8,
    pub col: u16,
    pub row: u32,
}

/// The number of sheets.
pub const SHEETS: u8 = 64;
/// The number of rows of a sheet.
pub const ROWS: u32 = 1_048_576;
/// The number of columns of a sheet.
pub const COLUMNS: u16 = 16_384;

const _: () = prove!(size_of::<Cell>() <= 8);

// An edit of a number is refused here, since clauses name the constants.
const _: () = prove!(SHEETS == 64);

const _: () = prove!(ROWS == 1_048_576);

const _: () = prove!(COLUMNS == 16_384);

impl PartialEq for Cell {
    ghost eq = { same_cell };

    ghost laws = { partial_equiv_from_equiv (eq_by_cmp_equiv cells_total) };

    fn eq(&self, other: &Cell) -> bool {
        self.cmp(other).is_eq()
    }
}

impl Eq for Cell {
    ghost laws = { eq_by_cmp_equiv cells_total };
}

/// So that a cell can be the key of a map.
impl Hash for Cell {
    ghost hash_input = { cell_input };

    ghost respects_eq = { same_cell_input };

    fn hash<H: Hasher>(&self, state: &mut H) {
        self.sheet.hash(state);
        self.row.hash(state);
        self.col.hash(state);
    }
}

impl PartialOrd for Cell {
    ghost partial_cmp = { λ a b. Some (cell_cmp a b) };

    ghost laws = { partial_order_from_total cells_total };

    fn partial_cmp(&self, other: &Cell) -> Option<Ordering> {
        Some(self.cmp(other))
    }
}

/// Cells are ordered by sheet, then by row, then by column.
impl Ord for Cell {
    ghost cmp = { cell_cmp };

    ghost total = { cells_total };

    ghost matches_partial_cmp = { λ a b. refl };

    ghost matches_eq = { λ a b. refl };

    fn cmp(&self, other: &Cell) -> Ordering {
        self.sheet
            .cmp(&other.sheet)
            .then(self.row.cmp(&other.row))
            .then(self.col.cmp(&other.col))
    }
}

impl Cell {
    ghost use Rattle.cell_refs.specs.Cell.{IsCell};

    /// The cell at this place; None exactly outside the grid.
    pub fn new(sheet: u8, row: u32, col: u16) -> Option<Cell>
        ensures inside { IsSome result ↔ IsCell (record { sheet = sheet; row = row; col = col }) }
        ensures cell { IfSome result (λ cell. cell
            ≡ record { sheet = sheet; row = row; col = col }) }
    {
        let inside = 1 <= sheet
            && sheet <= SHEETS
            && 1 <= row
            && row <= ROWS
            && 1 <= col
            && col <= COLUMNS;
        if inside {
            Some(Cell { sheet, row, col })
        } else {
            None
        }
    }
}
