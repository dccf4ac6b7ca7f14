ghost use Rattle.std.specs.Prelude.{◌≡◌, IfOk, Some};

use cell_values::{ErrorKind, Memory, Text};
use formula_parse::Tree;

/// The content of a cell: a constant or a formula.
#[derive(Drop)]
pub enum Content {
    /// A number of magnitude at most 999,999,999,999,999.
    Num(i64),
    Text(Text),
    Bool(bool),
    Error(ErrorKind),
    Formula(Tree),
}

impl Content {
    ghost use Rattle.workbook.specs.Book.{has_formula, formula_weight};

    /// Whether it is a formula.
    pub fn is_formula(&self) -> bool
        ensures { result ≡ has_formula (Some self.now) }
    {
        match self {
            Content::Formula(_) => true,
            Content::Num(_) | Content::Text(_) | Content::Bool(_) | Content::Error(_) => false,
        }
    }

    /// An equal content, which shares its text or tree.
    pub fn copy(&self) -> Result<Content, Memory>
        ensures { IfOk result (λ copy. copy ≡ self.now) }
    {
        match self {
            Content::Num(number) => Ok(Content::Num(*number)),
            Content::Text(text) => Ok(Content::Text(text.copy()?)),
            Content::Bool(truth) => Ok(Content::Bool(*truth)),
            Content::Error(kind) => Ok(Content::Error(*kind)),
            Content::Formula(tree) => Ok(Content::Formula(tree.copy()?)),
        }
    }

    /// 1 for a formula, else 0.
    pub(crate) fn formula_weight(&self) -> usize
        ensures { result ≡ formula_weight self.now }
    {
        if self.is_formula() { 1 } else { 0 }
    }
}
