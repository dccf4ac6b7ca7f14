//! The cells of areas, taken as one, in cell order.

ghost use Rattle.std.specs.Prelude.{◌≡◌, [], ◌∷◌};
ghost use Rattle.cell_refs.specs.Area.{lies_in};
ghost use Rattle.cell_store.specs.Scanning.{IsFirst, IsFirstBehind, IsNext, corner, lesser};

use cell_refs::{Area, Cell};

/// Whether a cell lies in one of the areas.
pub fn lies_in(areas: &[Area], cell: Cell) -> bool
    ensures { result ≡ lies_in areas.now cell }
{
    areas.iter().any(|area| area.contains(cell))
}

/// The lesser of two cells, where there are two.
fn lesser(a: Option<Cell>, b: Cell) -> Cell
    ensures { result ≡ lesser a b }
{
    match a {
        Some(a) if a < b => a,
        _ => b,
    }
}

/// The first cell of an area.
fn corner(area: &Area) -> Cell
    ensures { result ≡ corner area.now }
{
    Cell {
        sheet: area.sheet,
        row: area.top,
        col: area.left,
    }
}

/// The least cell of an area that stands behind a cell.
fn next_of(area: &Area, cell: Cell) -> Option<Cell>
    ensures { IsNext (area.now ∷ []) cell result }
{
    if cell < corner(area) {
        return Some(corner(area));
    }
    if cell.sheet > area.sheet || cell.row > area.bottom {
        return None;
    }
    if cell.col < area.left {
        return Some(Cell {
            col: area.left,
            ..cell
        });
    }
    if cell.col < area.right {
        return Some(Cell {
            col: cell.col + 1,
            ..cell
        });
    }
    if cell.row < area.bottom {
        return Some(Cell {
            row: cell.row + 1,
            col: area.left,
            ..cell
        });
    }
    None
}

/// The least cell of the areas.
pub fn first_in(areas: &[Area]) -> Option<Cell>
    ensures { IsFirst areas.now result }
{
    let mut first = None;
    for area in areas {
        first = Some(lesser(first, corner(area)));
    }
    first
}

/// The least cell of the areas that stands behind a cell.
pub fn next_in(areas: &[Area], cell: Cell) -> Option<Cell>
    ensures { IsNext areas.now cell result }
{
    let mut next = None;
    for area in areas {
        if let Some(other) = next_of(area, cell) {
            next = Some(lesser(next, other));
        }
    }
    next
}

/// The least cell of the areas that stands behind a cell, where one is given.
pub fn first_behind(areas: &[Area], after: Option<Cell>) -> Option<Cell>
    ensures { IsFirstBehind areas.now after result }
{
    match after {
        None => first_in(areas),
        Some(cell) => next_in(areas, cell),
    }
}
