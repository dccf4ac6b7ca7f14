ghost use Rattle.std.specs.Prelude.{◌≡◌};

use cell_refs::Area;
use std::marker::Model;

/// The areas that a formula names, in the order in which they are written.
#[derive(Drop)]
pub struct AreaList {
    areas: Vec<Area>,
}

impl Model for AreaList {
    ghost use Rattle.std.specs.Prelude.{List};
    ghost use Rattle.cell_refs.specs.declared.areas.Area.{Area as OneArea};

    ghost Value = { List OneArea };

    ghost view = { λ a. a.areas.items };
}

impl AreaList {
    /// These areas. It takes no memory.
    pub fn from_vec(areas: Vec<Area>) -> AreaList
        ensures { result ≡ areas.items }
    {
        AreaList { areas }
    }

    /// The areas given back.
    pub fn into_vec(self) -> Vec<Area>
        ensures { result.items ≡ self }
    {
        self.areas
    }

    /// The areas.
    pub fn as_slice(&self) -> &[Area]
        ensures { result.now ≡ self.now }
    {
        self.areas.as_slice()
    }
}
