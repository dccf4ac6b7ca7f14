//! Trees of nodes, one for each sheet, and the nodes that are free.

ghost use Rattle.std.specs.Prelude.{◌≡◌, ◌+◌, ◌<◌, ◌≤◌, ◌∷◌, List, [], max, min, OnOk, length};
ghost use Rattle.area_index.specs.declared.nodes.Entry.{Entry as OneEntry};
ghost use Rattle.area_index.specs.Forests.{ChangesAt, HasAsManyUsed, HasSameTrees, IsKept, forest_of, free_in, tree_in};
ghost use Rattle.area_index.specs.Shapes.{inserted, removed};
ghost use Rattle.area_index.specs.Standing.{AreParts, Part, alone, rooted, row_of};

use super::nodes::{Entry, NONE, Node, Nodes};
use super::pairs::Pair;
use super::trees::{insert, remove};
use cell_refs::Memory;
use std::alloc::Global;

/// Nodes, the number of the first free one and those of the trees' roots. Left of each free node stands the next.
#[derive(Drop)]
pub struct Store {
    pub nodes: Nodes,
    pub free: u32,
    pub trees: Vec<u32>,
}

/// A store without nodes and trees.
pub fn new_store(alloc: Global) -> Store
    ensures nodes { result.nodes.items.items ≡ [] }
    ensures free { result.free ≡ NONE }
    ensures trees { result.trees.items ≡ [] }
{
    Store {
        nodes: Nodes::new(alloc),
        free: NONE,
        trees: Vec::new(alloc),
    }
}

/// Takes the first free node.
fn take(nodes: &mut Nodes, free: &mut u32) -> u32
    ensures number { result ≡ free.old }
    ensures same { nodes.new ≡ nodes.old }
    ensures taken { (e : OneEntry) (es : List OneEntry) (rest : List Part)
        → AreParts nodes.old.items.items (rooted free.old (row_of (e ∷ es)) ∷ rest)
        → AreParts nodes.old.items.items (alone free.old ∷ rooted free.new (row_of es) ∷ rest) }
{
    let number = *free;
    if let Some(node) = nodes.node(number) {
        *free = node.left;
    }
    number
}

/// Makes a node free.
fn give_back(nodes: &mut Nodes, free: &mut u32, entry: Entry)
    ensures count { length nodes.new.items.items ≡ length nodes.old.items.items }
    ensures parts { (es : List OneEntry) (rest : List Part)
        → AreParts nodes.old.items.items (rooted free.old (row_of es) ∷ alone entry.at ∷ rest)
        → AreParts nodes.new.items.items (rooted free.new (row_of (entry ∷ es)) ∷ rest) }
{
    *free = nodes.link(entry, *free, NONE);
}

/// Puts a pair into the tree of its sheet.
pub fn insert_into(store: &mut Store, pair: Pair)
    requires { 256 ≤ length store.old.trees.items }
    ensures { IsKept (forest_of store.old) → 0 < free_in (forest_of store.old)
        → ChangesAt (forest_of store.old) (forest_of store.new) pair.area.sheet
        (inserted (tree_in (forest_of store.old) pair.area.sheet)
        (record { at = store.old.free; pair = pair }))
        × (free_in (forest_of store.old) ≤ free_in (forest_of store.new) + 1) }
{
    let sheet = usize::from(pair.area.sheet);
    let levels = store.nodes.count();
    let at = take(&mut store.nodes, &mut store.free);
    let entry = Entry { at, pair };
    let inserted = insert(&mut store.nodes, store.trees[sheet], levels, entry);
    store.trees[sheet] = inserted.root;
    if !inserted.is_used {
        give_back(&mut store.nodes, &mut store.free, entry);
    }
}

/// Takes a pair out of the tree of its sheet.
pub fn remove_from(store: &mut Store, pair: Pair)
    ensures { IsKept (forest_of store.old)
        → ChangesAt (forest_of store.old) (forest_of store.new) pair.area.sheet
        (removed (tree_in (forest_of store.old) pair.area.sheet) pair)
        × (free_in (forest_of store.old) ≤ free_in (forest_of store.new)) }
{
    let sheet = usize::from(pair.area.sheet);
    if sheet < store.trees.len() {
        let levels = store.nodes.count();
        let removed = remove(&mut store.nodes, store.trees[sheet], levels, pair);
        store.trees[sheet] = removed.root;
        if let Some(at) = removed.taken {
            give_back(&mut store.nodes, &mut store.free, Entry { at, pair });
        }
    }
}

/// Puts one more free node in.
pub fn add_free(store: &mut Store, node: Node) -> Result<(), Memory>
    ensures trees { store.new.trees.items ≡ store.old.trees.items }
    ensures same { HasSameTrees (forest_of store.old) (forest_of store.new) }
    ensures free { OnOk result (IsKept (forest_of store.old)
        → free_in (forest_of store.new) ≡ free_in (forest_of store.old) + 1) }
    ensures most { IsKept (forest_of store.old)
        → free_in (forest_of store.new) ≤ free_in (forest_of store.old) + 1 }
    ensures used { IsKept (forest_of store.old)
        → HasAsManyUsed (forest_of store.old) (forest_of store.new) }
{
    let at = store.nodes.add(node)?;
    give_back(
        &mut store.nodes,
        &mut store.free,
        Entry {
            at,
            pair: node.pair,
        },
    );
    Ok(())
}

/// Puts one more free node in, where there are fewer than so many.
pub fn add_one_of(store: &mut Store, node: Node, count: u64) -> Result<(), Memory>
    ensures trees { store.new.trees.items ≡ store.old.trees.items }
    ensures same { HasSameTrees (forest_of store.old) (forest_of store.new) }
    ensures free { OnOk result (IsKept (forest_of store.old)
        → min (free_in (forest_of store.old) + 1) count ≤ free_in (forest_of store.new)) }
    ensures most { IsKept (forest_of store.old)
        → free_in (forest_of store.new) ≤ max (free_in (forest_of store.old)) count }
    ensures used { IsKept (forest_of store.old)
        → HasAsManyUsed (forest_of store.old) (forest_of store.new) }
{
    if store.nodes.height(store.free) < count {
        add_free(store, node)?;
    }
    Ok(())
}
