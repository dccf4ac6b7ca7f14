ghost use Rattle.std.specs.Prelude.{◌≡◌, ◌+◌, ◌++◌, ◌∷◌, [], ◌<◌, IfOk, OnOk, OnErr, length, slice_get, slice_set};
ghost use Rattle.std.specs.Option.{option_copied};
ghost use Rattle.area_index.specs.Shapes.{Shape, higher, node_of};
ghost use Rattle.area_index.specs.Slots.{bottom_at, height_at, node_between};
ghost use Rattle.area_index.specs.Standing.{Turns, alone, rooted};

use super::pairs::Pair;
use cell_refs::{Memory, Steps};
use std::alloc::Global;
use std::sync::ledger::Ledger;

/// A pair, the tree's height at it and the greatest bottom row of its tree, and the numbers of the nodes on either side.
/// The widest field stands first, so that none of its 48 bytes is wasted between fields.
#[derive(Clone, Copy, Debug)]
pub struct Node {
    pub height: u64,
    pub bottom: u32,
    pub left: u32,
    pub right: u32,
    pub pair: Pair,
}

const _: () = prove!(size_of::<Node>() == 48);

/// A pair and the number of its node.
#[derive(Clone, Copy, Debug)]
pub struct Entry {
    pub at: u32,
    pub pair: Pair,
}

/// Nodes, each named by its number. Whoever only reads has one call for it, `look`, and that counts.
#[derive(Drop)]
pub struct Nodes {
    items: Vec<Node>,
}

/// The number that stands for no node.
pub const NONE: u32 = 0xFFFF_FFFF;
/// The greatest height that stands with a node.
pub const LEVELS: u64 = 0x4000_0000_0000_0000;

impl Node {
    /// A node for a pair, with nothing below it.
    pub fn new(pair: Pair) -> Node
        ensures { result.pair ≡ pair }
    {
        Node {
            pair,
            height: 1,
            bottom: pair.area.bottom,
            left: NONE,
            right: NONE,
        }
    }
}

impl Nodes {
    /// No nodes.
    pub fn new(alloc: Global) -> Nodes
        ensures { result.items.items ≡ [] }
    {
        Nodes {
            items: Vec::new(alloc),
        }
    }

    /// How many nodes there are. No tree has more levels.
    pub fn count(&self) -> u64
        ensures { result ≡ length self.now.items.items }
    {
        self.items.len() as u64
    }

    /// The node at a number. Each look is a step.
    pub fn look<L: Ledger>(&self, number: u32, steps: &mut Steps<L>) -> Option<&Node>
        ensures node { option_copied result ≡ slice_get self.now.items.items number }
        ensures tick { steps.new ≡ steps.old + 1 }
    {
        steps.tick();
        self.items.get(number as usize)
    }

    /// The node at a number, for one who may change the nodes.
    pub fn node(&mut self, number: u32) -> Option<Node>
        ensures node { result ≡ slice_get self.old.items.items number }
        ensures same { self.new ≡ self.old }
    {
        match self.items.get(number as usize) {
            Some(node) => Some(*node),
            None => None,
        }
    }

    /// The height at a number, 0 where no node stands.
    pub fn height(&mut self, number: u32) -> u64
        ensures height { result ≡ height_at self.old.items.items number }
        ensures same { self.new ≡ self.old }
    {
        match self.node(number) {
            Some(node) => node.height,
            None => 0,
        }
    }

    /// The greatest bottom row at a number, 0 where no node stands.
    fn bottom(&mut self, number: u32) -> u32
        ensures bottom { result ≡ bottom_at self.old.items.items number }
        ensures same { self.new ≡ self.old }
    {
        match self.node(number) {
            Some(node) => node.bottom,
            None => 0,
        }
    }

    /// Puts a node at a number where one stands.
    fn set(&mut self, number: u32, node: Node)
        ensures { self.new.items.items ≡ slice_set self.old.items.items number node }
    {
        let place = number as usize;
        if place < self.items.len() {
            self.items[place] = node;
        }
    }

    /// Puts an entry's pair between two sides, at the entry's number.
    fn put(&mut self, entry: Entry, left: u32, right: u32)
        ensures { self.new.items.items ≡ slice_set self.old.items.items entry.at
            (node_between self.old.items.items entry.pair left right) }
    {
        let below = self.height(left).max(self.height(right));
        let bottom = self.bottom(left).max(self.bottom(right));
        let node = Node {
            pair: entry.pair,
            height: one_higher(below),
            bottom: entry.pair.area.bottom.max(bottom),
            left,
            right,
        };
        self.set(entry.at, node);
    }

    /// The tree that has an entry between two sides.
    pub fn link(&mut self, entry: Entry, left: u32, right: u32) -> u32
        ensures count { length self.new.items.items ≡ length self.old.items.items }
        ensures turns { (l r : Shape) → Turns self.old.items.items self.new.items.items
            (alone entry.at ∷ rooted left l ∷ rooted right r ∷ [])
            (rooted result (node_of l entry r) ∷ []) }
    {
        self.put(entry, left, right);
        entry.at
    }

    /// Puts one more node behind the others, and gives its number.
    pub fn add(&mut self, node: Node) -> Result<u32, Memory>
        ensures added { OnOk result
            (self.new.items.items ≡ self.old.items.items ++ node ∷ []) }
        ensures number { IfOk result (λ n. (n ≡ length self.old.items.items) × (n < NONE)) }
        ensures refused { OnErr result (self.new.items.items ≡ self.old.items.items) }
    {
        let number = self.items.len();
        if NONE as usize <= number {
            return Err(Memory);
        }
        self.items.push(node)?;
        Ok(number as u32)
    }
}

/// One level more, up to the greatest height.
#[tactic(auto, unfolding(crate::specs::Shapes::higher))]
pub fn one_higher(height: u64) -> u64
    ensures { result ≡ higher height }
{
    if height < LEVELS { height + 1 } else { height }
}
