ghost use Rattle.std.specs.Prelude.{◌≡◌, ℕ, [], ◌∷◌, ◌++◌, ◌&&◌, ◌||◌, not, nat_eq, filter, OnOk, OnErr, IfOk};
ghost use Rattle.std.specs.List.{list_any};
ghost use Rattle.cell_refs.specs.declared.grid.Cell.{Cell as OneCell};
ghost use Rattle.cell_refs.specs.Cell.{same_cell};
ghost use Rattle.topic_table.specs.Linking.{has_link, links_at};
ghost use Rattle.topic_table.specs.Table.{has_reader};

use super::rows::Rows;
use cell_refs::Cell;
use cell_values::Memory;
use indexmap::IndexMap;
use std::alloc::{AllocError, Global};
use std::marker::Model;

/// Ids that are noted for a cell.
#[derive(Drop)]
pub struct Ids {
    ids: Vec<u64>,
}

impl Model for Ids {
    ghost use Rattle.std.specs.Prelude.{List, ℕ};

    ghost Value = { List ℕ };

    ghost view = { λ i. i.ids.items };
}

impl Ids {
    /// One id.
    fn one(alloc: Global, id: u64) -> Result<Ids, AllocError>
        ensures { IfOk result (λ ids. ids ≡ id ∷ []) }
    {
        let mut ids = Vec::new(alloc);
        ids.push(id)?;
        Ok(Ids { ids })
    }

    /// Adds an id, unless it is there.
    fn add(&mut self, id: u64) -> Result<(), AllocError>
        ensures ok { OnOk result ((q : ℕ) → list_any (nat_eq q) self.new
            ≡ (nat_eq q id || list_any (nat_eq q) self.old)) }
        ensures err { OnErr result (self.new ≡ self.old) }
    {
        if self.ids.contains(&id) {
            return Ok(());
        }
        self.ids.push(id)?;
        Ok(())
    }

    /// Keeps the ids of topics that have a cell as a kept reader.
    fn retain_read(&mut self, cell: Cell, rows: &Rows)
        ensures { self.new ≡ filter (λ id. has_reader rows.now id cell) self.old }
    {
        self.ids.retain(|id| rows.is_reader(*id, cell));
    }
}

/// The ids of the topics that each cell has read.
#[derive(Drop)]
pub struct Links {
    alloc: Global,
    links: IndexMap<Cell, Ids>,
}

impl Model for Links {
    ghost use Rattle.std.specs.Prelude.{List, ℕ};
    ghost use Rattle.cell_refs.specs.declared.grid.Cell.{Cell as OneCell};

    ghost Value = { List (OneCell × List ℕ) };

    ghost view = { λ l. l.links.entries };
}

impl Links {
    /// Nothing is noted.
    pub fn new(alloc: Global) -> Links
        ensures { result ≡ [] }
    {
        Links {
            alloc,
            links: IndexMap::new(alloc),
        }
    }

    /// Takes the room for one more cell. What is noted stays.
    pub fn reserve(&mut self) -> Result<(), Memory>
        ensures { self.new ≡ self.old }
    {
        self.links.reserve(1)?;
        Ok(())
    }

    /// The ids that are noted for a cell.
    pub fn ids(&self, cell: Cell) -> &[u64]
        ensures { result.now ≡ links_at self.now cell }
    {
        match self.links.get(&cell) {
            Some(ids) => &ids.ids,
            None => &[],
        }
    }

    /// Notes an id for a cell. A refusal changes nothing.
    pub fn note(&mut self, cell: Cell, id: u64) -> Result<(), Memory>
        ensures noted { OnOk result ((c : OneCell) (q : ℕ) → has_link self.new c q
            ≡ ((same_cell c cell && nat_eq q id) || has_link self.old c q)) }
        ensures refused { OnErr result ((c : OneCell) (q : ℕ) → has_link self.new c q
            ≡ has_link self.old c q) }
    {
        if let Some(ids) = self.links.get_mut(&cell) {
            ids.add(id)?;
            return Ok(());
        }
        let ids = Ids::one(self.alloc, id)?;
        self.links.insert(cell, ids)?;
        Ok(())
    }

    /// Keeps, of a cell, the ids of topics that have it as a kept reader.
    pub fn clean(&mut self, cell: Cell, rows: &Rows)
        ensures { (c : OneCell) (q : ℕ) → has_link self.new c q
            ≡ (has_link self.old c q && (not (same_cell c cell) || has_reader rows.now q cell)) }
    {
        let Some(ids) = self.links.get_mut(&cell) else {
            return;
        };
        ids.retain_read(cell, rows);
    }
}
