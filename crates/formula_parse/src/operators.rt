ghost use Rattle.std.specs.Prelude.{◌≡◌};
ghost use Rattle.formula_parse.specs.Grammar.{place_of};

use cell_values::CompareOp;

/// An operator between two operands.
#[derive(Clone, Copy, Debug, PartialEq, Eq)]
pub enum Operator {
    Compare(CompareOp),
    Join,
    Add,
    Subtract,
    Multiply,
    Divide,
}

impl Operator {
    /// Its place in the grammar, from 0, the loosest, to 3: comparisons, `&`, sums, products.
    pub(crate) fn place(self) -> usize
        ensures { result ≡ place_of self }
    {
        match self {
            Operator::Compare(_) => 0,
            Operator::Join => 1,
            Operator::Add | Operator::Subtract => 2,
            Operator::Multiply | Operator::Divide => 3,
        }
    }
}
