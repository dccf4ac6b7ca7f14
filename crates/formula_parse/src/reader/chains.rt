ghost use Rattle.std.specs.Prelude.{◌≡◌, [], ◌++◌, ◌∷◌, IfOk, OnOk};
ghost use Rattle.formula_parse.specs.Grammar.{place_of};
ghost use Rattle.formula_parse.specs.ReaderMachine.{place_of_chain, chain_node, operand_in_chains, tree_of_chains, is_tighter, chains_behind, chains_with, signed_node};

use super::super::growing::Growing;
use super::super::nodes::Node;
use super::super::operators::Operator;
use super::super::stack::Stack;
use super::OpenChain;
use sqlite_items::Boxed;
use std::alloc::{AllocError, Global};

/// An operand behind signs of which so many are `-`.
pub(super) fn negated(alloc: Global, count: u32, operand: Node) -> Result<Node, AllocError>
    ensures { IfOk result (λ node. node ≡ signed_node count operand) }
{
    if count == 0 {
        return Ok(operand);
    }
    Ok(Node::Negation {
        count,
        operand: Boxed::new(alloc, operand)?,
    })
}

impl OpenChain {
    /// A chain that begins with an operand and the operator behind it.
    fn new(alloc: Global, operand: Node, operator: Operator) -> Result<OpenChain, AllocError>
        ensures { IfOk result (λ chain. (chain.operands ≡ operand ∷ [])
            × (chain.operators ≡ operator ∷ [])) }
    {
        let mut chain = OpenChain {
            operands: Growing::new(alloc),
            operators: Growing::new(alloc),
        };
        chain.operands.push(operand)?;
        chain.operators.push(operator)?;
        Ok(chain)
    }

    /// The place of its operators in the grammar.
    fn place(&self) -> usize
        ensures { result ≡ place_of_chain self.now }
    {
        match self.operators.first() {
            Some(operator) => operator.place(),
            None => 0,
        }
    }

    /// The chain with its last operand.
    fn closed(self, alloc: Global, last: Node) -> Result<Node, AllocError>
        ensures { IfOk result (λ node. node ≡ chain_node self last) }
    {
        let OpenChain {
            mut operands,
            operators,
        } = self;
        operands.push(last)?;
        Ok(Node::Chain {
            operands: operands.whole(alloc)?,
            operators: operators.whole(alloc)?,
        })
    }
}

/// Takes off the chains that are tighter than the place; the operand with these closed round it.
fn bound(
    alloc: Global,
    place: usize,
    operand: Node,
    chains: &mut Stack<OpenChain>,
) -> Result<Node, AllocError>
    ensures { IfOk result (λ node. (node, chains.new)
        ≡ operand_in_chains place operand chains.old) }
{
    let mut operand = operand;
    while is_tighter(chains, place) {
        let Some(chain) = chains.pop() else {
            return Ok(operand);
        };
        operand = chain.closed(alloc, operand)?;
    }
    Ok(operand)
}

/// Whether the tightest chain is tighter than a place.
fn is_tighter(chains: &Stack<OpenChain>, place: usize) -> bool
    ensures { result ≡ is_tighter place chains.now }
{
    match chains.top() {
        Some(chain) => place < chain.place(),
        None => false,
    }
}

/// The operand with all chains closed round it.
pub(super) fn finished(
    alloc: Global,
    operand: Node,
    chains: Stack<OpenChain>,
) -> Result<Node, AllocError>
    ensures { IfOk result (λ node. node ≡ tree_of_chains operand chains) }
{
    let mut operand = operand;
    let mut chains = chains;
    while let Some(chain) = chains.pop() {
        operand = chain.closed(alloc, operand)?;
    }
    Ok(operand)
}

/// Adds an operand and the operator behind it to the chains.
pub(super) fn join(
    alloc: Global,
    operand: Node,
    operator: Operator,
    chains: &mut Stack<OpenChain>,
) -> Result<(), AllocError>
    ensures { OnOk result (chains.new ≡ chains_behind operand operator chains.old) }
{
    let operand = bound(alloc, operator.place(), operand, chains)?;
    link(alloc, operand, operator, chains)
}

/// Adds an operand and an operator to the chains, none of which is tighter than the operator.
fn link(
    alloc: Global,
    operand: Node,
    operator: Operator,
    chains: &mut Stack<OpenChain>,
) -> Result<(), AllocError>
    ensures { OnOk result (chains.new ≡ chains_with operator (operand, chains.old)) }
{
    let Some(mut chain) = chains.pop() else {
        return chains.push(OpenChain::new(alloc, operand, operator)?);
    };
    if chain.place() == operator.place() {
        chain.operands.push(operand)?;
        chain.operators.push(operator)?;
        return chains.push(chain);
    }
    chains.push(chain)?;
    chains.push(OpenChain::new(alloc, operand, operator)?)
}
