use super::callees::Callee;
use super::operators::Operator;
use cell_refs::RefText;
use cell_values::{ErrorKind, Text};

/// A token of a formula.
#[derive(Debug, Drop)]
pub enum Token {
    Number(i64),
    Text(Text),
    Error(ErrorKind),
    Boolean(bool),
    Reference(RefText),
    Area(RefText, RefText),
    /// A name directly followed by `(`.
    Call(Callee),
    Open,
    Close,
    Comma,
    Operator(Operator),
}
