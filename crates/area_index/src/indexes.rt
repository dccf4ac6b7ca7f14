ghost use Rattle.std.specs.Prelude.{◌≡◌, ◌+◌, ◌≤◌, max, IfOk, OnOk, length, map};
ghost use Rattle.std.specs.List.Sorted.{IsStrictlySortedBy};
ghost use Rattle.cell_refs.specs.declared.grid.Cell.{Cell as OneCell};
ghost use Rattle.cell_refs.specs.Cell.{cell_cmp, is_among};
ghost use Rattle.area_index.specs.Forests.{HasAsManyUsed, HasSameTrees, IsKept, forest_of, free_in, pair_at, pairs_of, tree_in};
ghost use Rattle.area_index.specs.Walk.{found, visits};

use super::nodes::{NONE, Node};
use super::pairs::Pair;
use super::stores::{Store, add_one_of};
use super::trees::visit;
use cell_refs::{Area, Cell, Memory, Steps};
use std::alloc::Global;
use std::sync::ledger::Ledger;

/// Makes a tree for each sheet.
pub fn open_sheets(store: &mut Store) -> Result<(), Memory>
    ensures same { HasSameTrees (forest_of store.old) (forest_of store.new) }
    ensures sheets { OnOk result (256 ≤ length store.new.trees.items) }
    ensures nodes { store.new.nodes ≡ store.old.nodes }
    ensures free { store.new.free ≡ store.old.free }
{
    while store.trees.len() < 256 {
        store.trees.push(NONE)?;
    }
    Ok(())
}

/// Makes a free node for each of these.
pub fn make_free(store: &mut Store, nodes: &[Node]) -> Result<(), Memory>
    ensures same { HasSameTrees (forest_of store.old) (forest_of store.new) }
    ensures sheets { store.new.trees.items ≡ store.old.trees.items }
    ensures free { OnOk result (IsKept (forest_of store.old)
        → length nodes.now ≤ free_in (forest_of store.new)) }
    ensures most { IsKept (forest_of store.old)
        → free_in (forest_of store.new)
        ≤ max (free_in (forest_of store.old)) (length nodes.now) }
    ensures used { IsKept (forest_of store.old)
        → HasAsManyUsed (forest_of store.old) (forest_of store.new) }
{
    for node in nodes {
        add_one_of(store, *node, nodes.len() as u64)?;
    }
    Ok(())
}

/// Nodes for the pairs of a reader and these areas.
pub fn new_nodes(alloc: Global, reader: Cell, areas: &[Area]) -> Result<Vec<Node>, Memory>
    ensures { IfOk result (λ nodes. pairs_of nodes.items ≡ map (pair_at reader) areas.now) }
{
    let mut nodes = Vec::new(alloc);
    for area in areas {
        let area = *area;
        nodes.push(Node::new(Pair { area, reader }))?;
    }
    Ok(nodes)
}

/// Puts cells into cell order, each once. It takes no memory.
pub fn put_in_order(cells: &mut Vec<Cell>)
    ensures sorted { IsStrictlySortedBy cell_cmp cells.new.items }
    ensures same { (q : OneCell) → is_among cells.new.items q ≡ is_among cells.old.items q }
{
    cells.sort_unstable();
    cells.dedup();
}

/// The readers of the pairs whose area has a cell, as the walk through its sheet's tree finds them.
pub fn find_in<L: Ledger>(
    store: &Store,
    alloc: Global,
    cell: Cell,
    steps: &mut Steps<L>,
) -> Result<Vec<Cell>, Memory>
    ensures found { IsKept (forest_of store.now) → IfOk result (λ readers. readers.items
        ≡ found (tree_in (forest_of store.now) cell.sheet) cell) }
    ensures steps { IsKept (forest_of store.now)
        → steps.new ≤ steps.old + visits (tree_in (forest_of store.now) cell.sheet) cell.row }
{
    let mut readers = Vec::new(alloc);
    let sheet = usize::from(cell.sheet);
    if store.trees.len() <= sheet {
        return Ok(readers);
    }
    let levels = store.nodes.count();
    visit(
        &store.nodes,
        store.trees[sheet],
        levels,
        cell,
        steps,
        &mut readers,
    )?;
    Ok(readers)
}
