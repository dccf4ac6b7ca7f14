ghost use Rattle.std.specs.Prelude.{◌≡◌, [], ◌∷◌, ◌++◌, length, map, replicate, take, vec_len, unsigned_abs, decimal, Some, OnOk, OnErr};
ghost use Rattle.std.specs.List.{flat_map};
ghost use Rattle.cell_refs.specs.Written.{reference_text};
ghost use Rattle.formula_parse.specs.declared.operators.Operator.TheVariants as operators;
ghost use Rattle.formula_parse.specs.Printing.{canonical_text, token_text, tokens_of, argument_tokens, chain_tokens};
ghost use Rattle.formula_parse.specs.Parsing.{formula_of};
ghost use Rattle.formula_parse.specs.Tokens.{operator_text};

use super::nodes::Node;
use super::operators::Operator;
use super::trees::Tree;
use cell_refs::{RefText, write_ref};
use cell_values::{CompareOp, Memory, Value, print_value};
use itoa::Buffer;

/// Writes the canonical text of a formula at the end of the bytes.
pub fn print(t: &Tree, out: &mut Vec<u8>) -> Result<(), Memory>
    ensures ok { OnOk result (out.new.items ≡ out.old.items ++ canonical_text t.now) }
    ensures err { OnErr result (out.new.items ≡ out.old.items) }

    // What is written reads back as the same tree.
    ensures again { formula_of (canonical_text t.now) ≡ Some t.now }
{
    let before = out.len();
    let written = push_formula(t.root(), out);
    if written.is_err() {
        out.truncate(before);
    }
    written
}

/// Writes a formula; a refusal may leave a part of it there.
#[tactic(auto, unfolding(crate::specs::Printing::canonical_text))]
fn push_formula(root: &Node, out: &mut Vec<u8>) -> Result<(), Memory>
    ensures ok { OnOk result (out.new.items ≡ out.old.items ++ canonical_text root.now) }
    ensures kept { take (vec_len out.old) out.new.items ≡ out.old.items }
{
    push_bytes(b"=", out)?;
    push_node(root, out)
}

/// Writes a part of a formula; a refusal may leave a part of it there.
#[cycle(push_node)]
fn push_node(node: &Node, out: &mut Vec<u8>) -> Result<(), Memory>
    ensures ok { OnOk result (out.new.items ≡ out.old.items
        ++ flat_map token_text (tokens_of node.now)) }
    ensures kept { take (vec_len out.old) out.new.items ≡ out.old.items }
{
    match node {
        Node::Number(n) => push_number(n.unsigned_abs(), out),
        Node::Text(text) => print_value(&Value::Text(text.copy()?), out),
        Node::Error(kind) => print_value(&Value::Error(*kind), out),
        Node::Boolean(b) => print_value(&Value::Bool(*b), out),
        Node::Reference(reference) => push_reference(reference, out),
        Node::Area(first, second) => push_corners(first, second, out),
        Node::Call { callee, arguments } => {
            push_bytes(callee.text().as_bytes(), out)?;
            push_bytes(b"(", out)?;
            push_arguments(arguments.get().as_slice(), out)?;
            push_bytes(b")", out)
        }
        Node::Parentheses(inner) => {
            push_bytes(b"(", out)?;
            push_node(inner.get(), out)?;
            push_bytes(b")", out)
        }
        Node::Negation { count, operand } => {
            push_minuses(*count, out)?;
            push_node(operand.get(), out)
        }
        Node::Chain {
            operands,
            operators,
        } => push_chain(operands.get().as_slice(), operators.get().as_slice(), out),
    }
}

/// Writes arguments with a `,` between each two; a refusal may leave a part of them there.
#[cycle(push_node)]
fn push_arguments(nodes: &[Node], out: &mut Vec<u8>) -> Result<(), Memory>
    ensures ok { OnOk result (out.new.items ≡ out.old.items
        ++ flat_map token_text (argument_tokens (map tokens_of nodes.now))) }
    ensures kept { take (vec_len out.old) out.new.items ≡ out.old.items }
{
    let [first, rest @ ..] = nodes else {
        return Ok(());
    };
    push_node(first, out)?;
    for node in rest {
        push_bytes(b",", out)?;
        push_node(node, out)?;
    }
    Ok(())
}

/// Writes operands with their operators between them; a refusal may leave a part of them there.
#[cycle(push_node)]
fn push_chain(nodes: &[Node], operators: &[Operator], out: &mut Vec<u8>) -> Result<(), Memory>
    ensures ok { OnOk result (out.new.items ≡ out.old.items
        ++ flat_map token_text (chain_tokens (map tokens_of nodes.now) operators.now)) }
    ensures kept { take (vec_len out.old) out.new.items ≡ out.old.items }
{
    for i in 0..nodes.len() {
        push_node(&nodes[i], out)?;
        match operators.get(i) {
            None => return Ok(()),
            Some(operator) => push_bytes(word_of(*operator).as_bytes(), out)?,
        }
    }
    Ok(())
}

/// Writes so many `-`; a refusal may leave some of them there.
fn push_minuses(count: u32, out: &mut Vec<u8>) -> Result<(), Memory>
    ensures ok { OnOk result (out.new.items ≡ out.old.items ++ replicate count 45) }
    ensures kept { take (vec_len out.old) out.new.items ≡ out.old.items }
{
    for _ in 0..count {
        push_bytes(b"-", out)?;
    }
    Ok(())
}

/// Writes an area by its corners; a refusal may leave a part of it there.
fn push_corners(first: &RefText, second: &RefText, out: &mut Vec<u8>) -> Result<(), Memory>
    ensures ok { OnOk result (out.new.items ≡ out.old.items
        ++ (reference_text first.now ++ 58 ∷ reference_text second.now)) }
    ensures kept { take (vec_len out.old) out.new.items ≡ out.old.items }
{
    push_reference(first, out)?;
    push_bytes(b":", out)?;
    push_reference(second, out)
}

/// Writes a reference.
fn push_reference(reference: &RefText, out: &mut Vec<u8>) -> Result<(), Memory>
    ensures ok { OnOk result (out.new.items ≡ out.old.items ++ reference_text reference.now) }
    ensures err { OnErr result (out.new.items ≡ out.old.items) }
{
    match write_ref(reference, out) {
        Ok(()) => Ok(()),
        Err(_) => Err(Memory),
    }
}

/// Writes a number in decimal digits.
fn push_number(n: u64, out: &mut Vec<u8>) -> Result<(), Memory>
    ensures ok { OnOk result (out.new.items ≡ out.old.items ++ decimal n) }
    ensures err { OnErr result (out.new.items ≡ out.old.items) }
{
    push_bytes(Buffer::new().format(n).as_bytes(), out)
}

/// Writes bytes.
fn push_bytes(bytes: &[u8], out: &mut Vec<u8>) -> Result<(), Memory>
    ensures ok { OnOk result (out.new.items ≡ out.old.items ++ bytes.now) }
    ensures err { OnErr result (out.new.items ≡ out.old.items) }
{
    out.extend_from_slice(bytes)?;
    Ok(())
}

/// An operator as it is written.
fn word_of(operator: Operator) -> &'static str
    ensures { result.now ≡ operator_text operator }
{
    match operator {
        Operator::Compare(CompareOp::Eq) => "=",
        Operator::Compare(CompareOp::Ne) => "<>",
        Operator::Compare(CompareOp::Lt) => "<",
        Operator::Compare(CompareOp::Gt) => ">",
        Operator::Compare(CompareOp::Le) => "<=",
        Operator::Compare(CompareOp::Ge) => ">=",
        Operator::Join => "&",
        Operator::Add => "+",
        Operator::Subtract => "-",
        Operator::Multiply => "*",
        Operator::Divide => "/",
    }
}
