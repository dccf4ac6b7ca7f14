ghost use Rattle.std.specs.Prelude.{◌≡◌};
ghost use Rattle.area_index.specs.Pairs.{pair_cmp};

use cell_refs::{Area, Cell};
use std::cmp::Ordering;

/// An area, and a cell that names it.
#[derive(Clone, Copy, Debug)]
pub struct Pair {
    pub area: Area,
    pub reader: Cell,
}

impl Pair {
    /// How it stands to another: by top row, then left, bottom, right and reader, and last by sheet.
    pub fn order(&self, other: &Pair) -> Ordering
        ensures { result ≡ pair_cmp self.now other.now }
    {
        self.area
            .top
            .cmp(&other.area.top)
            .then(self.area.left.cmp(&other.area.left))
            .then(self.area.bottom.cmp(&other.area.bottom))
            .then(self.area.right.cmp(&other.area.right))
            .then(self.reader.cmp(&other.reader))
            .then(self.area.sheet.cmp(&other.area.sheet))
    }
}
