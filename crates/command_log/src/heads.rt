use cell_refs::Cell;
use cell_values::Memory;
use indexmap::IndexMap;
use std::alloc::Global;
use std::marker::Model;

/// For each cell with accepted values, the place behind that of the entry with its newest one.
#[derive(Drop)]
pub struct Heads {
    places: IndexMap<Cell, usize>,
}

impl Model for Heads {
    ghost use Rattle.indexmap.specs.IndexMap.{spare};
    ghost use Rattle.command_log.specs.Log.{HeadsState};

    ghost Value = { HeadsState };

    ghost view = { λ h. record { places = h.places.entries; spare = spare h.places } };
}

impl Heads {
    ghost use Rattle.std.specs.Prelude.{◌≡◌, [], ◌≤◌, ◌<◌, ◌+◌, None, Some, if◌then◌else◌, OnOk};
    ghost use Rattle.std.specs.Map.{lookup};
    ghost use Rattle.cell_refs.specs.declared.grid.Cell.{Cell as OneCell};
    ghost use Rattle.cell_refs.specs.Cell.{is_among, same_cell};
    ghost use Rattle.command_log.specs.Log.{HasSamePlaces, head_of};

    /// No cell has accepted values.
    pub fn new(alloc: Global) -> Heads
        ensures { result.places ≡ [] }
    {
        Heads {
            places: IndexMap::new(alloc),
        }
    }

    /// Takes the room for so many more cells. What is there stays.
    pub fn reserve(&mut self, n: usize) -> Result<(), Memory>
        ensures same { HasSamePlaces self.old self.new }
        ensures room { OnOk result (n ≤ self.new.spare) }
    {
        self.places.reserve(n)?;
        Ok(())
    }

    /// The place behind that of the newest accepted value of a cell; 0 where it has none.
    pub fn get(&self, cell: Cell) -> usize
        ensures { result ≡ head_of self.now.places cell }
    {
        match self.places.get(&cell) {
            Some(place) => *place,
            None => 0,
        }
    }

    /// Sets that place, where there is room. It takes no memory.
    pub fn set(&mut self, cell: Cell, place: usize)
        requires { 0 < self.old.spare }
        ensures place { (q : OneCell) → lookup (same_cell q) self.new.places
            ≡ (if same_cell cell q then Some place else lookup (same_cell q) self.old.places) }
        ensures room { self.old.spare ≤ self.new.spare + 1 }
    {
        let Ok(_) = self.places.insert(cell, place) else {
            unreachable!()
        };
    }

    /// Takes a cell out. It takes no memory.
    pub fn remove(&mut self, cell: Cell)
        ensures { (q : OneCell) → lookup (same_cell q) self.new.places
            ≡ (if same_cell cell q then None else lookup (same_cell q) self.old.places) }
    {
        let _ = self.places.swap_remove(&cell);
    }

    /// Takes these cells out. It takes no memory.
    pub fn remove_all(&mut self, cells: &[Cell])
        ensures { (q : OneCell) → lookup (same_cell q) self.new.places
            ≡ (if is_among cells.now q then None else lookup (same_cell q) self.old.places) }
    {
        for cell in cells {
            self.remove(*cell);
        }
    }
}
