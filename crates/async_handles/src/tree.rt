ghost use Rattle.std.specs.Prelude.{◌≡◌, [], ◌∷◌, ◌++◌, map, None, is_some, IfNone, IfSome, OnOk};
ghost use Rattle.std.specs.Option.{option_copied, option_map};
ghost use Rattle.async_handles.specs.OpenCalls.{IsInCellOrder, call_at, calls_after_serving, calls_without, cell_of, first_call, first_unserved, with_call};

use super::open_calls::OpenCall;
use addin_types::Call;
use cell_refs::Cell;
use cell_values::Memory;
use std::alloc::Global;
use std::cmp::Ordering;
use std::marker::Model;
use std::mem;

/// Open calls in cell order. It is a search tree whose shape follows from mixed numbers of the cells, so that it is
/// flat in whichever order the calls came.
#[cycle(tree)]
#[derive(Drop)]
pub struct Tree {
    node: Node,
}

#[cycle(tree)]
#[derive(Drop)]
enum Node {
    Leaf,
    // A call, whether a call of this node wasn't served, and the calls on both sides.
    Fork(OpenCall, bool, Sides),
}

/// The two sides of a call. Their place is made before the call comes.
pub type Sides = Box<(Tree, Tree)>;

impl Model for Tree {
    ghost use Rattle.std.specs.Prelude.{List, length};
    ghost use Rattle.async_handles.specs.declared.open_calls.OpenCall.{OpenCall as OneCall};

    ghost Value = { List OneCall };

    ghost use Rattle.async_handles.specs.Tree.{HasRightMark, calls_of};

    ghost view = { λ t. calls_of t.node };

    ghost invariant = { λ t. HasRightMark t.node };

    ghost size = { length };

    ghost use Rattle.std.proofs.Common.{arith, length-append};

    ghost size_decreases = { λ t h. Prim.grind (arith, length-append) };
}

/// The topmost call of a tree with its sides' place, and the calls before it and behind it.
#[derive(Drop)]
struct Top {
    left: Tree,
    entry: OpenCall,
    sides: Sides,
    right: Tree,
}

/// What a tree is split into at a cell: the calls before it, that of it with its sides, and the calls behind it.
#[derive(Drop)]
struct Parts {
    less: Tree,
    found: Option<(OpenCall, Sides)>,
    greater: Tree,
}

impl Tree {
    ghost use Rattle.async_handles.specs.Tree.{IsSplitAt, any_unserved};

    /// No calls.
    pub fn new() -> Tree
        ensures { result ≡ [] }
    {
        Tree { node: Node::Leaf }
    }

    /// Whether a call wasn't served.
    fn waits(&self) -> bool
        ensures { result ≡ any_unserved self.now }
    {
        match &self.node {
            Node::Leaf => false,
            Node::Fork(_, waits, _) => *waits,
        }
    }

    /// The number by which this tree's top stands above those of smaller numbers.
    fn rank(&self) -> u64 {
        match &self.node {
            Node::Leaf => 0,
            Node::Fork(entry, _, _) => mixed(entry.call.handle.cell),
        }
    }

    /// The call of a cell.
    pub fn get(&self, cell: Cell) -> Option<&OpenCall>
        requires order { IsInCellOrder self.now }
        ensures { option_copied result ≡ call_at self.now cell }
    {
        match &self.node {
            Node::Leaf => None,
            Node::Fork(entry, _, sides) => match cell.cmp(&entry.call.handle.cell) {
                Ordering::Less => sides.0.get(cell),
                Ordering::Equal => Some(entry),
                Ordering::Greater => sides.1.get(cell),
            },
        }
    }

    /// The call of the least cell.
    pub fn first(&self) -> Option<&OpenCall>
        ensures { option_copied result ≡ first_call self.now }
    {
        match &self.node {
            Node::Leaf => None,
            Node::Fork(entry, _, sides) => match sides.0.first() {
                None => Some(entry),
                found => found,
            },
        }
    }

    /// The call of the least cell that wasn't served.
    pub fn first_unserved(&self) -> Option<&OpenCall>
        ensures { option_copied result ≡ first_unserved self.now }
    {
        match &self.node {
            Node::Leaf => None,
            Node::Fork(entry, waits, sides) => {
                if !*waits {
                    None
                } else if sides.0.waits() {
                    sides.0.first_unserved()
                } else if !entry.is_served {
                    Some(entry)
                } else {
                    sides.1.first_unserved()
                }
            }
        }
    }

    /// Appends equal calls to a list, in order.
    pub fn append_to(&self, alloc: Global, list: &mut Vec<Call>) -> Result<(), Memory>
        ensures { OnOk result
            (list.new.items ≡ list.old.items ++ map (λ entry. entry.call) self.now) }
    {
        match &self.node {
            Node::Leaf => Ok(()),
            Node::Fork(entry, _, sides) => {
                sides.0.append_to(alloc, list)?;
                let call = entry.call.copy(alloc)?;
                list.push(call)?;
                sides.1.append_to(alloc, list)
            }
        }
    }

    /// The topmost call with the calls before it and behind it; None exactly where there are no calls.
    fn open(self) -> Option<Top>
        ensures some { IfSome result (λ top. self ≡ top.left ++ top.entry ∷ top.right) }
        ensures none { IfNone result (self ≡ []) }
    {
        match self.node {
            Node::Leaf => None,
            Node::Fork(entry, _, mut sides) => {
                let (left, right) = mem::replace(&mut *sides, (Tree::new(), Tree::new()));
                Some(Top {
                    left,
                    entry,
                    sides,
                    right,
                })
            }
        }
    }

    /// The calls before a cell, that of it, and the calls behind it.
    fn split(self, cell: Cell) -> Parts
        requires order { IsInCellOrder self }
        ensures { IsSplitAt cell self result.less (option_map (λ found. found.0) result.found)
            result.greater }
    {
        let Some(top) = self.open() else {
            return Parts {
                less: Tree::new(),
                found: None,
                greater: Tree::new(),
            };
        };
        match cell.cmp(&top.entry.call.handle.cell) {
            Ordering::Less => {
                let parts = top.left.split(cell);
                Parts {
                    less: parts.less,
                    found: parts.found,
                    greater: fork(parts.greater, top.entry, top.sides, top.right),
                }
            }
            Ordering::Equal => Parts {
                less: top.left,
                found: Some((top.entry, top.sides)),
                greater: top.right,
            },
            Ordering::Greater => {
                let parts = top.right.split(cell);
                Parts {
                    less: fork(top.left, top.entry, top.sides, parts.less),
                    found: parts.found,
                    greater: parts.greater,
                }
            }
        }
    }

    /// These calls, and then others.
    fn join(self, other: Tree) -> Tree
        ensures { result ≡ self ++ other }
    {
        if self.rank() >= other.rank() {
            let Some(top) = self.open() else {
                return other;
            };
            let right = top.right.join(other);
            fork(top.left, top.entry, top.sides, right)
        } else {
            let Some(top) = other.open() else {
                return self;
            };
            let left = self.join(top.left);
            fork(left, top.entry, top.sides, top.right)
        }
    }

    /// These calls with one more, of a cell that has none.
    pub fn with(self, entry: OpenCall, sides: Sides) -> Tree
        requires order { IsInCellOrder self }
        requires free { call_at self (cell_of entry) ≡ None }
        ensures { result ≡ with_call self entry }
    {
        let Parts { less, greater, .. } = self.split(entry.call.handle.cell);
        let one = fork(Tree::new(), entry, sides, Tree::new());
        less.join(one).join(greater)
    }

    /// These calls without that of a cell, and the place of its sides.
    pub fn without(self, cell: Cell) -> (Tree, Option<Sides>)
        requires order { IsInCellOrder self }
        ensures calls { result.0 ≡ calls_without self cell }
        ensures found { is_some result.1 ≡ is_some (call_at self cell) }
    {
        let Parts {
            less,
            found,
            greater,
        } = self.split(cell);
        (less.join(greater), found.map(|(_, sides)| sides))
    }

    /// These calls, of which the first that wasn't served is served now.
    pub fn after_serving(self) -> Tree
        ensures { result ≡ calls_after_serving self }
    {
        let Some(top) = self.open() else {
            return Tree::new();
        };
        if top.left.waits() {
            fork(top.left.after_serving(), top.entry, top.sides, top.right)
        } else if !top.entry.is_served {
            fork(top.left, top.entry.served(), top.sides, top.right)
        } else {
            fork(top.left, top.entry, top.sides, top.right.after_serving())
        }
    }
}

/// The calls of the left side, then this call, then those of the right side.
fn fork(left: Tree, entry: OpenCall, mut sides: Sides, right: Tree) -> Tree
    ensures { result ≡ left ++ entry ∷ right }
{
    let waits = left.waits() || !entry.is_served || right.waits();
    *sides = (left, right);
    Tree {
        node: Node::Fork(entry, waits, sides),
    }
}

/// A number of a cell. Numbers stand in another order than their cells.
fn mixed(cell: Cell) -> u64 {
    let number = u64::from(cell.sheet).wrapping_mul(0x2545_F491_4F6C_DD1D)
        ^ u64::from(cell.row).wrapping_mul(0x9E37_79B9_7F4A_7C15)
        ^ u64::from(cell.col).wrapping_mul(0xD6E8_FEB8_6659_FD93);
    let number = (number ^ (number >> 32)).wrapping_mul(0x9E37_79B9_7F4A_7C15);
    number ^ (number >> 29)
}
