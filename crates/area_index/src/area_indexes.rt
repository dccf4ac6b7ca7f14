ghost use Rattle.std.specs.Prelude.{◌≡◌, ◌+◌, ◌<◌, ◌≤◌, max, IfOk, length, map};

use super::indexes::{find_in, make_free, new_nodes, open_sheets, put_in_order};
use super::nodes::{LEVELS, Node};
use super::pairs::Pair;
use super::stores::{Store, insert_into, new_store, remove_from};
use cell_refs::{Area, Cell, Memory, Steps};
use std::alloc::Global;
use std::marker::Model;
use std::sync::ledger::Ledger;

/// The pairs of an area and a cell that names it: a tree for each sheet.
#[derive(Drop)]
pub struct AreaIndex {
    store: Store,
    links: u64,
}

impl Model for AreaIndex {
    ghost use Rattle.area_index.specs.Forests.{Forest, IsForest, forest_with};
    ghost use Rattle.area_index.specs.contracts.nodes.Node as node;
    ghost use Rattle.std.specs.Coded.{codes};

    ghost Value = { Forest };

    ghost coded = { Prim.hlevel (codes, node.the_row.coded) };

    ghost view = { λ a. forest_with a.store a.links };

    ghost invariant = { λ a. IsForest (forest_with a.store a.links) };
}

impl AreaIndex {
    ghost use Rattle.area_index.specs.Forests.{AreReadersAt, IsBoundedWalk, HasAlso, HasAlsoAll, HasInstead, HasLess, HasNoMore, HasNone, IsReady, SamePairs, free_in, pair_at, pair_count, pairs_of, pairs_on};
    ghost use Rattle.area_index.specs.Walk.{readers_at};

    /// An index without pairs.
    pub fn new(alloc: Global) -> AreaIndex
        ensures { HasNone result }
    {
        AreaIndex {
            store: new_store(alloc),
            links: 0,
        }
    }

    /// Puts a pair in. It takes no memory.
    fn insert(&mut self, pair: Pair)
        requires ready { IsReady self.old 1 }
        ensures pairs { HasAlso self.old self.new pair }
        ensures links { self.new.links ≡ self.old.links + 1 }
        ensures sheets { length self.new.trees ≡ length self.old.trees }
        ensures free { free_in self.old ≤ free_in self.new + 1 }
        ensures size { length self.new.nodes ≡ length self.old.nodes }
    {
        insert_into(&mut self.store, pair);
        self.links += 1;
    }

    /// Takes a pair out, where it is there. It takes no memory.
    fn remove(&mut self, pair: Pair)
        ensures pairs { HasLess self.old self.new pair }
        ensures links { self.new.links ≡ self.old.links }
        ensures sheets { length self.new.trees ≡ length self.old.trees }
        ensures free { free_in self.old ≤ free_in self.new }
        ensures size { length self.new.nodes ≡ length self.old.nodes }
    {
        remove_from(&mut self.store, pair);
    }

    /// Takes the pairs of a reader and these areas out. It takes no memory.
    pub fn remove_all(&mut self, reader: Cell, areas: &[Area])
        ensures pairs { HasNoMore self.old self.new reader areas.now }
        ensures links { self.new.links ≡ self.old.links }
        ensures sheets { length self.new.trees ≡ length self.old.trees }
        ensures free { free_in self.old ≤ free_in self.new }
        ensures size { length self.new.nodes ≡ length self.old.nodes }
    {
        for area in areas {
            let area = *area;
            self.remove(Pair { area, reader });
        }
    }

    /// Puts the pairs of these nodes in. It takes no memory.
    fn insert_all(&mut self, mut nodes: Vec<Node>)
        requires ready { IsReady self.old (length nodes.items) }
        ensures pairs { HasAlsoAll self.old self.new (pairs_of nodes.items) }
        ensures size { length self.new.nodes ≡ length self.old.nodes }
    {
        while let Some(node) = nodes.pop() {
            self.insert(node.pair);
        }
    }

    /// Puts the pairs of these nodes in, and takes those of a reader and its old areas out. It takes no memory.
    pub fn exchange(&mut self, reader: Cell, areas: &[Area], nodes: Vec<Node>)
        requires ready { IsReady self.old (length nodes.items) }
        ensures pairs { HasInstead self.old self.new reader areas.now (pairs_of nodes.items) }
        ensures size { length self.new.nodes ≡ length self.old.nodes }
    {
        self.remove_all(reader, areas);
        self.insert_all(nodes);
    }

    /// Nodes for the pairs of a reader and these areas, and room for them. The pairs stay.
    pub fn prepare(
        &mut self,
        alloc: Global,
        reader: Cell,
        areas: &[Area],
    ) -> Result<Vec<Node>, Memory>
        ensures pairs { SamePairs self.old self.new }
        ensures ready { IfOk result (λ nodes. IsReady self.new (length nodes.items)) }
        ensures nodes { IfOk result (λ nodes.
            pairs_of nodes.items ≡ map (pair_at reader) areas.now) }
        ensures size { length self.new.nodes
            ≤ max (length self.old.nodes) (pair_count self.old + length areas.now) }
    {
        open_sheets(&mut self.store)?;
        let nodes = new_nodes(alloc, reader, areas)?;
        if LEVELS - self.links <= nodes.len() as u64 {
            return Err(Memory);
        }
        make_free(&mut self.store, nodes.as_slice())?;
        Ok(nodes)
    }

    /// The readers of the pairs whose area has a cell, as the walk finds them.
    fn find<L: Ledger>(
        &self,
        alloc: Global,
        cell: Cell,
        steps: &mut Steps<L>,
    ) -> Result<Vec<Cell>, Memory>
        ensures found { IfOk result (λ readers. readers.items
            ≡ readers_at (pairs_on self.now cell.sheet) cell) }
        ensures steps { IsBoundedWalk self.now cell steps.old steps.new }
    {
        find_in(&self.store, alloc, cell, steps)
    }

    /// The readers of the pairs whose area has a cell, in cell order, each once. A step is one node looked at.
    pub fn readers<L: Ledger>(
        &self,
        alloc: Global,
        cell: Cell,
        steps: &mut Steps<L>,
    ) -> Result<Vec<Cell>, Memory>
        ensures readers { IfOk result (λ readers. AreReadersAt self.now cell readers.items) }
        ensures steps { IsBoundedWalk self.now cell steps.old steps.new }
    {
        let mut readers = self.find(alloc, cell, steps)?;
        put_in_order(&mut readers);
        Ok(readers)
    }
}
