ghost use Rattle.std.specs.Prelude.{◌≡◌, ◌↔◌, ◌≤◌, IsTrue, length};

use super::grid::Cell;
use super::references::RefText;
use std::marker::Model;

/// A rectangle of cells on one sheet, from its top left cell to its bottom right one.
#[derive(Clone, Copy, Debug, PartialEq, Eq)]
pub struct Area {
    pub sheet: u8,
    pub top: u32,
    pub left: u16,
    pub bottom: u32,
    pub right: u16,
}

impl Area {
    ghost use Rattle.cell_refs.specs.Area.{IsArea, IsInside, area_has, area_of, cells_of, size_of};
    ghost use Rattle.cell_refs.specs.Cell.{IsSheet};
    ghost use Rattle.cell_refs.specs.RefText.{IsReference};

    /// The area between two references in a formula on the sheet `home`, whichever corners they are. The sheet
    /// of the second one isn't used.
    pub fn of(a: &RefText, b: &RefText, home: u8) -> Area
        ensures exact { result ≡ area_of a.now b.now home }
        ensures inside { IsReference a.now → IsReference b.now → IsSheet home
            → IsArea result }
    {
        Area {
            sheet: a.sheet.unwrap_or(home),
            top: a.row.min(b.row),
            left: a.col.min(b.col),
            bottom: a.row.max(b.row),
            right: a.col.max(b.col),
        }
    }

    /// Whether a cell lies between the corners.
    pub fn contains(&self, cell: Cell) -> bool
        ensures inside { IsTrue result ↔ IsInside self.now cell }
        ensures exact { result ≡ area_has self.now cell }
    {
        cell.sheet == self.sheet
            && self.top <= cell.row
            && cell.row <= self.bottom
            && self.left <= cell.col
            && cell.col <= self.right
    }

    /// The number of its cells.
    pub fn size(&self) -> u64
        ensures product { result ≡ size_of self.now }
        ensures cells { result ≡ length (cells_of self.now) }
    {
        let rows = (u64::from(self.bottom) + 1).saturating_sub(u64::from(self.top));
        let columns = (u64::from(self.right) + 1).saturating_sub(u64::from(self.left));
        rows * columns
    }

    /// Its cells, by rows and then by columns.
    pub fn cells(&self) -> Cells
        ensures { result ≡ cells_of self.now }
    {
        Cells {
            sheet: self.sheet,
            left: self.left,
            right: self.right,
            bottom: self.bottom,
            row: self.top,
            col: self.left,
            ended: self.size() == 0,
        }
    }
}

/// The cells of an area that are still to come, by rows and then by columns.
#[derive(Drop)]
pub struct Cells {
    sheet: u8,
    left: u16,
    right: u16,
    bottom: u32,
    /// The place of the next cell.
    row: u32,
    col: u16,
    /// Whether the last cell was given.
    ended: bool,
}

impl Model for Cells {
    ghost use Rattle.std.specs.Prelude.{◌≡◌, ◌≤◌, List, [], false, if◌then◌else◌};
    ghost use Rattle.cell_refs.specs.declared.grid.Cell.{Cell};
    ghost use Rattle.cell_refs.specs.AreaWalk.{area_cells_from};

    ghost Value = { List Cell };

    ghost view = { λ c. if c.ended then []
        else area_cells_from c.sheet c.left c.right c.bottom c.row c.col };

    ghost invariant = { λ c. c.ended ≡ false → (c.row ≤ c.bottom) × (c.col ≤ c.right)
        × (c.left ≤ c.right) };
}

impl Iterator for Cells {
    type Item = Cell;

    ghost use Rattle.std.specs.Iterator.{YieldsFirst, item_count};

    ghost next_gives = { YieldsFirst (λ c. c) };

    ghost remaining = { item_count (λ c. c) };

    fn next(&mut self) -> Option<Cell> {
        if self.ended {
            return None;
        }
        let cell = Cell {
            sheet: self.sheet,
            row: self.row,
            col: self.col,
        };
        if self.col < self.right {
            self.col += 1;
        } else if self.row < self.bottom {
            self.row += 1;
            self.col = self.left;
        } else {
            self.ended = true;
        }
        Some(cell)
    }
}
