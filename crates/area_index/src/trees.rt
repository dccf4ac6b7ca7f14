//! What is done to trees of nodes that are named by their numbers.

ghost use Rattle.std.specs.Prelude.{◌≡◌, ◌+◌, ◌++◌, ◌∷◌, [], ◌≤◌, List, OnOk, length};
ghost use Rattle.area_index.specs.Shapes.{Shape, balanced, depth_of, first_of, inserted, joined, lean_left, lean_right, raised, removed, rest_of};
ghost use Rattle.area_index.specs.Standing.{AreParts, IsStanding, Part, Turns, alone, left_over, number_of, rooted, taken_out};
ghost use Rattle.area_index.specs.Walk.{found, visits};

use super::nodes::{Entry, NONE, Nodes, one_higher};
use super::pairs::Pair;
use cell_refs::{Cell, Memory, Steps};
use std::cmp::Ordering;
use std::sync::ledger::Ledger;

/// The root after a node was to be put in, and whether the node was used.
#[derive(Clone, Copy)]
pub struct Inserted {
    pub root: u32,
    pub is_used: bool,
}

/// The root after a pair was to be taken out, and the number of its node.
#[derive(Clone, Copy)]
pub struct Removed {
    pub root: u32,
    pub taken: Option<u32>,
}

/// The first node of a tree, and the root of the rest.
#[derive(Clone, Copy)]
pub struct First {
    pub entry: Entry,
    pub rest: u32,
}

/// The tree with an entry's pair, unless the pair is there. It has that many levels at most.
pub fn insert(nodes: &mut Nodes, root: u32, levels: u64, entry: Entry) -> Inserted
    ensures count { length nodes.new.items.items ≡ length nodes.old.items.items }
    ensures turns { (t : Shape) → depth_of t ≤ levels
        → Turns nodes.old.items.items nodes.new.items.items
        (alone entry.at ∷ rooted root t ∷ [])
        (rooted result.root (inserted t entry) ∷ left_over result.is_used entry.at) }
{
    match nodes.node(root) {
        Some(top) if 0 < levels => {
            let here = Entry {
                at: root,
                pair: top.pair,
            };
            match entry.pair.order(&top.pair) {
                Ordering::Less => {
                    let left = insert(nodes, top.left, levels - 1, entry);
                    Inserted {
                        root: balance(nodes, here, left.root, top.right),
                        is_used: left.is_used,
                    }
                }
                Ordering::Equal => Inserted {
                    root: nodes.link(here, top.left, top.right),
                    is_used: false,
                },
                Ordering::Greater => {
                    let right = insert(nodes, top.right, levels - 1, entry);
                    Inserted {
                        root: balance(nodes, here, top.left, right.root),
                        is_used: right.is_used,
                    }
                }
            }
        }
        _ => Inserted {
            root: nodes.link(entry, NONE, NONE),
            is_used: true,
        },
    }
}

/// The tree without a pair. It has that many levels at most.
pub fn remove(nodes: &mut Nodes, root: u32, levels: u64, pair: Pair) -> Removed
    ensures count { length nodes.new.items.items ≡ length nodes.old.items.items }
    ensures turns { (t : Shape) → depth_of t ≤ levels
        → Turns nodes.old.items.items nodes.new.items.items
        (rooted root t ∷ [])
        (rooted result.root (removed t pair) ∷ taken_out result.taken) }
{
    match nodes.node(root) {
        Some(top) if 0 < levels => {
            let here = Entry {
                at: root,
                pair: top.pair,
            };
            match pair.order(&top.pair) {
                Ordering::Less => {
                    let left = remove(nodes, top.left, levels - 1, pair);
                    Removed {
                        root: balance(nodes, here, left.root, top.right),
                        taken: left.taken,
                    }
                }
                Ordering::Equal => Removed {
                    root: join(nodes, top.left, top.right, levels - 1),
                    taken: Some(root),
                },
                Ordering::Greater => {
                    let right = remove(nodes, top.right, levels - 1, pair);
                    Removed {
                        root: balance(nodes, here, top.left, right.root),
                        taken: right.taken,
                    }
                }
            }
        }
        _ => Removed { root, taken: None },
    }
}

/// Appends the readers whose area has a cell. A step is one node looked at. The tree has that many levels at most.
pub fn visit<L: Ledger>(
    nodes: &Nodes,
    root: u32,
    levels: u64,
    cell: Cell,
    steps: &mut Steps<L>,
    readers: &mut Vec<Cell>,
) -> Result<(), Memory>
    ensures found { OnOk result ((t : Shape) → depth_of t ≤ levels → root ≡ number_of t
        → length nodes.now.items.items ≤ NONE → IsStanding nodes.now.items.items t
        → readers.new.items ≡ readers.old.items ++ found t cell) }
    ensures steps { (t : Shape) → depth_of t ≤ levels → root ≡ number_of t
        → IsStanding nodes.now.items.items t
        → steps.new ≤ steps.old + visits t cell.row }
{
    if root == NONE || levels == 0 {
        return Ok(());
    }
    let Some(node) = nodes.look(root, steps) else {
        return Ok(());
    };
    if node.bottom < cell.row {
        return Ok(());
    }
    visit(nodes, node.left, levels - 1, cell, steps, readers)?;
    if node.pair.area.contains(cell) {
        readers.push(node.pair.reader)?;
    }
    if cell.row < node.pair.area.top {
        return Ok(());
    }
    visit(nodes, node.right, levels - 1, cell, steps, readers)
}

/// An entry between two sides, whose heights differ by at most two, turned where one is too high.
fn balance(nodes: &mut Nodes, entry: Entry, left: u32, right: u32) -> u32
    ensures count { length nodes.new.items.items ≡ length nodes.old.items.items }
    ensures turns { (l r : Shape) → Turns nodes.old.items.items nodes.new.items.items
        (alone entry.at ∷ rooted left l ∷ rooted right r ∷ [])
        (rooted result (balanced l entry r) ∷ []) }
{
    let (left_height, right_height) = (nodes.height(left), nodes.height(right));
    if one_higher(right_height) < left_height {
        lean_to_left(nodes, entry, left, right)
    } else if one_higher(left_height) < right_height {
        lean_to_right(nodes, entry, left, right)
    } else {
        nodes.link(entry, left, right)
    }
}

/// An entry between two sides, of which the left one is too high.
fn lean_to_left(nodes: &mut Nodes, entry: Entry, left: u32, right: u32) -> u32
    ensures count { length nodes.new.items.items ≡ length nodes.old.items.items }
    ensures turns { (l r : Shape) → Turns nodes.old.items.items nodes.new.items.items
        (alone entry.at ∷ rooted left l ∷ rooted right r ∷ [])
        (rooted result (lean_left l entry r) ∷ []) }
{
    match nodes.node(left) {
        None => nodes.link(entry, left, right),
        Some(top) => {
            let here = Entry {
                at: left,
                pair: top.pair,
            };
            if nodes.height(top.right) <= nodes.height(top.left) {
                let right = nodes.link(entry, top.right, right);
                nodes.link(here, top.left, right)
            } else {
                raise(nodes, here, top.left, top.right, entry, right)
            }
        }
    }
}

/// An entry between two sides, of which the right one is too high.
fn lean_to_right(nodes: &mut Nodes, entry: Entry, left: u32, right: u32) -> u32
    ensures count { length nodes.new.items.items ≡ length nodes.old.items.items }
    ensures turns { (l r : Shape) → Turns nodes.old.items.items nodes.new.items.items
        (alone entry.at ∷ rooted left l ∷ rooted right r ∷ [])
        (rooted result (lean_right l entry r) ∷ []) }
{
    match nodes.node(right) {
        None => nodes.link(entry, left, right),
        Some(top) => {
            let here = Entry {
                at: right,
                pair: top.pair,
            };
            if nodes.height(top.left) <= nodes.height(top.right) {
                let left = nodes.link(entry, left, top.left);
                nodes.link(here, left, top.right)
            } else {
                raise(nodes, entry, left, top.left, here, top.right)
            }
        }
    }
}

/// Two entries with the tree between them, whose root is raised above both.
fn raise(nodes: &mut Nodes, low: Entry, left: u32, inner: u32, high: Entry, right: u32) -> u32
    ensures count { length nodes.new.items.items ≡ length nodes.old.items.items }
    ensures turns { (l m r : Shape) → Turns nodes.old.items.items nodes.new.items.items
        (alone low.at ∷ rooted left l ∷ rooted inner m ∷ alone high.at ∷ rooted right r ∷ [])
        (rooted result (raised l low m high r) ∷ []) }
{
    match nodes.node(inner) {
        None => {
            let left = nodes.link(low, left, inner);
            nodes.link(high, left, right)
        }
        Some(top) => {
            let here = Entry {
                at: inner,
                pair: top.pair,
            };
            let left = nodes.link(low, left, top.left);
            let right = nodes.link(high, top.right, right);
            nodes.link(here, left, right)
        }
    }
}

/// Two trees as one. The right one has that many levels at most.
fn join(nodes: &mut Nodes, left: u32, right: u32, levels: u64) -> u32
    ensures count { length nodes.new.items.items ≡ length nodes.old.items.items }
    ensures turns { (l r : Shape) → depth_of r ≤ levels
        → Turns nodes.old.items.items nodes.new.items.items
        (rooted left l ∷ rooted right r ∷ [])
        (rooted result (joined l r) ∷ []) }
{
    match nodes.node(right) {
        None => left,
        Some(top) => {
            let here = Entry {
                at: right,
                pair: top.pair,
            };
            let first = take_first(nodes, here, top.left, top.right, levels);
            balance(nodes, first.entry, left, first.rest)
        }
    }
}

/// The first entry of the tree that an entry has with these sides, and what is left. It has that many levels at most.
fn take_first(nodes: &mut Nodes, entry: Entry, left: u32, right: u32, levels: u64) -> First
    ensures count { length nodes.new.items.items ≡ length nodes.old.items.items }
    ensures first { (l : Shape) (rest : List Part) → depth_of l ≤ levels
        → AreParts nodes.old.items.items (rooted left l ∷ rest)
        → first_of l entry ≡ result.entry }
    ensures rest { (l r : Shape) → depth_of l ≤ levels
        → Turns nodes.old.items.items nodes.new.items.items
        (alone entry.at ∷ rooted left l ∷ rooted right r ∷ [])
        (alone result.entry.at ∷ rooted result.rest (rest_of l entry r) ∷ []) }
{
    match nodes.node(left) {
        Some(top) if 0 < levels => {
            let lower = Entry {
                at: left,
                pair: top.pair,
            };
            let first = take_first(nodes, lower, top.left, top.right, levels - 1);
            First {
                entry: first.entry,
                rest: balance(nodes, entry, first.rest, right),
            }
        }
        _ => First { entry, rest: right },
    }
}
