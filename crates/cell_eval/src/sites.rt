ghost use Rattle.std.specs.Prelude.{◌≡◌, ◌+◌, ◌≤◌};
ghost use Rattle.formula_parse.specs.Tree.{site_count};
ghost use Rattle.workbook.specs.Evaluation.{own_site};
ghost use Rattle.cell_eval.specs.Steps.{sites_among};

use formula_parse::{Callee, Node};

/// Counts the sites of a part that isn't evaluated.
#[cycle(pass)]
pub fn pass(node: &Node, sites: &mut u16)
    requires { sites.old + site_count node.now ≤ u16.MAX }
    ensures { sites.new ≡ sites.old + site_count node.now }
{
    match node {
        Node::Number(_)
        | Node::Text(_)
        | Node::Error(_)
        | Node::Boolean(_)
        | Node::Reference(_)
        | Node::Area(_, _) => {}
        Node::Call { callee, arguments } => {
            *sites += own_site(callee);
            pass_all(arguments.get().as_slice(), sites);
        }
        Node::Parentheses(inner) => pass(inner.get(), sites),
        Node::Negation { operand, .. } => pass(operand.get(), sites),
        Node::Chain { operands, .. } => pass_all(operands.get().as_slice(), sites),
    }
}

/// Counts the sites of parts that aren't evaluated.
#[cycle(pass)]
pub fn pass_all(nodes: &[Node], sites: &mut u16)
    requires { sites.old + sites_among nodes.now ≤ u16.MAX }
    ensures { sites.new ≡ sites.old + sites_among nodes.now }
{
    for node in nodes {
        pass(node, sites);
    }
}

/// How many sites a call is itself: one where it is that of an added function.
fn own_site(callee: &Callee) -> u16
    ensures { result ≡ own_site callee.now }
{
    match callee {
        Callee::BuiltIn(_) | Callee::Rtd => 0,
        Callee::Added(_) => 1,
    }
}
