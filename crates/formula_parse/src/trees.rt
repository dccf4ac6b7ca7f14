ghost use Rattle.std.specs.Prelude.{◌≡◌, IfOk};

use super::nodes::Node;
use cell_values::Memory;
use std::alloc::{AllocError, Global};
use std::marker::Model;
use std::sync::Arc;

/// A formula as a tree.
#[derive(Debug, Drop)]
pub struct Tree {
    root: Arc<Node, Global>,
}

impl Model for Tree {
    ghost use Rattle.formula_parse.specs.declared.nodes.Node.{Node};
    ghost use Rattle.formula_parse.specs.contracts.nodes.Node as e;
    ghost use Rattle.std.specs.Arc.{arc_value};
    ghost use Rattle.std.specs.Coded.{codes};

    ghost Value = { Node };

    ghost coded = { Prim.hlevel (codes, e.the_row.coded) };

    ghost use Rattle.formula_parse.specs.Tree.{IsTree};

    ghost view = { λ t. arc_value t.root };

    ghost invariant = { λ t. IsTree (arc_value t.root) };
}

impl Tree {
    ghost use Rattle.formula_parse.specs.Tree.{IsTree};

    pub(crate) fn new(alloc: Global, root: Node) -> Result<Tree, AllocError>
        requires { IsTree root }
        ensures { IfOk result (λ tree. tree ≡ root) }
    {
        Ok(Tree {
            root: Arc::new(alloc, root)?,
        })
    }

    /// The whole formula's node.
    pub fn root(&self) -> &Node
        ensures value { result.now ≡ self.now }
        ensures tree { IsTree self.now }
    {
        &self.root
    }

    /// A second hold on the same tree.
    pub fn copy(&self) -> Result<Tree, Memory>
        ensures { IfOk result (λ copy. copy ≡ self.now) }
    {
        Ok(Tree {
            root: Arc::try_clone(&self.root)?,
        })
    }
}
