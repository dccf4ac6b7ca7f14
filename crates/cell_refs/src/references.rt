ghost use Rattle.std.specs.Prelude.{◌≡◌, ◌≤◌};

use super::grid::Cell;

/// A reference as it is written: its sheet where one is written, its row and its column, and which of
/// the two are marked as absolute by `$`.
#[derive(Clone, Copy, Debug, PartialEq, Eq)]
pub struct RefText {
    pub sheet: Option<u8>,
    pub row: u32,
    pub col: u16,
    pub row_fixed: bool,
    pub col_fixed: bool,
}

impl RefText {
    ghost use Rattle.cell_refs.specs.Cell.{IsCell, IsSheet};
    ghost use Rattle.cell_refs.specs.RefText.{IsReference, cell_at};

    /// The cell that the reference means in a formula on the sheet `home`.
    pub fn at(&self, home: u8) -> Cell
        ensures exact { result ≡ cell_at self.now home }
        ensures inside { IsReference self.now → IsSheet home → IsCell result }
    {
        Cell {
            sheet: self.sheet.unwrap_or(home),
            row: self.row,
            col: self.col,
        }
    }
}
