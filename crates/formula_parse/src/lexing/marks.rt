ghost use Rattle.std.specs.Prelude.{◌≡◌, ◌==◌, ◌≤◌, ◌<◌};
ghost use Rattle.formula_parse.specs.Lexing.{mark_at, operator_at, less_at, greater_at, operator_len, passes_at};

use super::super::operators::Operator;
use super::super::tokens::Token;
use super::Found;
use cell_values::CompareOp;

/// The token that begins with a mark, before this rest of the text.
pub(super) fn mark(mark: u8, rest: &[u8]) -> Found
    ensures { result ≡ mark_at mark rest.now }
{
    match mark {
        b'(' => Some((Token::Open, 1)),
        b')' => Some((Token::Close, 1)),
        b',' => Some((Token::Comma, 1)),
        _ => operator(mark, rest).map(|operator| (Token::Operator(operator), len(operator))),
    }
}

fn operator(mark: u8, rest: &[u8]) -> Option<Operator>
    ensures { result ≡ operator_at mark rest.now }
{
    match mark {
        b'=' => Some(Operator::Compare(CompareOp::Eq)),
        b'<' => Some(less(rest)),
        b'>' => Some(greater(rest)),
        b'&' => Some(Operator::Join),
        b'+' => Some(Operator::Add),
        b'-' => Some(Operator::Subtract),
        b'*' => Some(Operator::Multiply),
        b'/' => Some(Operator::Divide),
        _ => None,
    }
}

/// The operator of `<` and what stands behind it.
fn less(rest: &[u8]) -> Operator
    ensures { result ≡ less_at rest.now }
{
    match rest.first() {
        Some(b'=') => Operator::Compare(CompareOp::Le),
        Some(b'>') => Operator::Compare(CompareOp::Ne),
        _ => Operator::Compare(CompareOp::Lt),
    }
}

/// The operator of `>` and what stands behind it.
fn greater(rest: &[u8]) -> Operator
    ensures { result ≡ greater_at rest.now }
{
    match rest.first() {
        Some(b'=') => Operator::Compare(CompareOp::Ge),
        _ => Operator::Compare(CompareOp::Gt),
    }
}

fn len(operator: Operator) -> usize
    ensures { result ≡ operator_len operator }
{
    match operator {
        Operator::Compare(CompareOp::Ne) | Operator::Compare(CompareOp::Le) => 2,
        Operator::Compare(CompareOp::Ge) => 2,
        _ => 1,
    }
}
