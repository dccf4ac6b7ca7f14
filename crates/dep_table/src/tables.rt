ghost use Rattle.std.specs.Prelude.{◌≡◌, ◌<◌, [], OnOk, IfOk, IfErr, length};
ghost use Rattle.std.specs.BTreeMap.{insert_entry};
ghost use Rattle.std.specs.Map.{remove_entry};
ghost use Rattle.cell_refs.specs.Cell.{cell_cmp, same_cell};
ghost use Rattle.area_index.specs.Forests.{HasInstead, IsReady, pairs_of};
ghost use Rattle.dep_table.specs.Steps.{IsFewSteps};
ghost use Rattle.dep_table.specs.Table.{IsInOrder, areas_at, is_reader, readers_of};

use super::area_lists::AreaList;
use area_index::{AreaIndex, Node};
use cell_refs::{Area, Cell, Memory, Steps};
use std::alloc::Global;
use std::collections::BTreeMap;
use std::marker::{Brand, Model};
use std::sync::ledger::{Blank, Ledger};

/// The formula cells that are readers, each with the areas that its formula names, and the index of these areas.
#[derive(Drop)]
pub struct DepTable {
    alloc: Global,
    entries: BTreeMap<Cell, AreaList>,
    index: AreaIndex,
}

impl Model for DepTable {
    ghost use Rattle.std.specs.Prelude.{List};
    ghost use Rattle.cell_refs.specs.declared.areas.Area.{Area as OneArea};
    ghost use Rattle.cell_refs.specs.declared.grid.Cell.{Cell as OneCell};
    ghost use Rattle.dep_table.specs.Indexed.{IsIndexed};

    ghost Value = { List (OneCell × List OneArea) };

    ghost view = { λ t. t.entries.entries };

    ghost invariant = { λ t. IsIndexed t.index t.entries.entries };
}

impl DepTable {
    /// A table without readers.
    pub fn new(alloc: Global) -> DepTable
        ensures { result ≡ [] }
    {
        DepTable {
            alloc,
            entries: BTreeMap::new(alloc),
            index: AreaIndex::new(alloc),
        }
    }

    /// Gives a reader these areas in place of any that it has. A refusal gives the areas back and changes nothing.
    pub fn put(&mut self, reader: Cell, areas: Vec<Area>) -> Result<(), Vec<Area>>
        ensures ok { OnOk result (self.new ≡ insert_entry cell_cmp self.old reader areas.items) }
        ensures refused { IfErr result (λ back. (back.items ≡ areas.items)
            × (self.new ≡ self.old)) }
        ensures ordered { IsInOrder self.old × IsInOrder self.new }
    {
        match self.index.prepare(self.alloc, reader, areas.as_slice()) {
            Ok(nodes) => put_in(&mut self.entries, &mut self.index, reader, areas, nodes),
            Err(_) => Err(areas),
        }
    }

    /// Takes a reader out of the table, where it is there. It takes no memory.
    pub fn remove(&mut self, reader: Cell)
        ensures removed { self.new ≡ remove_entry (same_cell reader) self.old }
        ensures ordered { IsInOrder self.old × IsInOrder self.new }
    {
        if let Some(old) = self.entries.remove(&reader) {
            self.index.remove_all(reader, old.as_slice());
        }
    }

    /// The readers that name a cell, in cell order, each once.
    pub fn readers(&self, alloc: Global, cell: Cell) -> Result<Vec<Cell>, Memory>
        ensures readers { IfOk result (λ readers. readers.items ≡ readers_of self.now cell) }
        ensures ordered { IsInOrder self.now }
    {
        readers_uncounted::<Brand>(self, alloc, cell, Blank::new(1))
    }

    /// The same, with the steps counted: a step is one node of the cell's sheet looked at.
    pub fn readers_counted<L: Ledger>(
        &self,
        alloc: Global,
        cell: Cell,
        steps: &mut Steps<L>,
    ) -> Result<Vec<Cell>, Memory>
        ensures readers { IfOk result (λ readers. readers.items ≡ readers_of self.now cell) }
        ensures ordered { IsInOrder self.now }
        ensures steps { IsFewSteps self.now cell steps.old steps.new }
    {
        self.index.readers(alloc, cell, steps)
    }

    /// The areas that a reader names, in the order in which they are written; none of a cell that is no reader.
    pub fn precedents(&self, reader: Cell) -> &[Area]
        ensures areas { result.now ≡ areas_at self.now reader }
        ensures ordered { IsInOrder self.now }
    {
        match self.entries.get(&reader) {
            Some(areas) => areas.as_slice(),
            None => &[],
        }
    }

    /// Whether a cell is a reader, also one whose formula names no cell.
    pub fn has(&self, reader: Cell) -> bool
        ensures reader { result ≡ is_reader self.now reader }
        ensures ordered { IsInOrder self.now }
    {
        self.entries.contains_key(&reader)
    }
}

/// Gives a reader these areas in the map and the index, with a node for each.
fn put_in(
    entries: &mut BTreeMap<Cell, AreaList>,
    index: &mut AreaIndex,
    reader: Cell,
    areas: Vec<Area>,
    nodes: Vec<Node>,
) -> Result<(), Vec<Area>>
    requires ready { IsReady index.old (length nodes.items) }
    ensures entries { OnOk result (entries.new.entries
        ≡ insert_entry cell_cmp entries.old.entries reader areas.items) }
    ensures index { OnOk result (HasInstead index.old index.new reader
        (areas_at entries.old.entries reader) (pairs_of nodes.items)) }
    ensures refused { IfErr result (λ back. (back.items ≡ areas.items)
        × (entries.new.entries ≡ entries.old.entries) × (index.new ≡ index.old)) }
    ensures ordered { IsInOrder entries.old.entries × IsInOrder entries.new.entries }
{
    match entries.insert(reader, AreaList::from_vec(areas)) {
        Ok(Some(old)) => {
            index.exchange(reader, old.as_slice(), nodes);
            Ok(())
        }
        Ok(None) => {
            index.exchange(reader, &[], nodes);
            Ok(())
        }
        Err(refused) => {
            let (_, areas) = refused.value;
            Err(areas.into_vec())
        }
    }
}

/// The readers that name a cell, with steps that nobody reads.
fn readers_uncounted<L: Ledger>(
    table: &DepTable,
    alloc: Global,
    cell: Cell,
    blank: Blank,
) -> Result<Vec<Cell>, Memory>
    requires name { blank.name ≡ L.name }
    requires parts { blank.parts ≡ L.parts }
    requires some { 0 < blank.parts }
    ensures readers { IfOk result (λ readers. readers.items ≡ readers_of table.now cell) }
    ensures ordered { IsInOrder table.now }
{
    let mut steps = Steps::<L>::new(blank);
    table.readers_counted(alloc, cell, &mut steps)
}
