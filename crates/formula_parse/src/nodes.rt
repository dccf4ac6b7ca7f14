use super::callees::Callee;
use super::operators::Operator;
use cell_refs::RefText;
use cell_values::{ErrorKind, Text};
use sqlite_items::{Boxed, Items};

/// A part of a formula.
#[derive(Debug, Drop)]
pub enum Node {
    Number(i64),
    Text(Text),
    Error(ErrorKind),
    Boolean(bool),
    Reference(RefText),
    Area(RefText, RefText),
    Call {
        callee: Callee,
        arguments: Boxed<Items<Node>>,
    },
    Parentheses(Boxed<Node>),
    Negation {
        count: u32,
        operand: Boxed<Node>,
    },
    Chain {
        operands: Boxed<Items<Node>>,
        operators: Boxed<Items<Operator>>,
    },
}
