ghost use Rattle.std.specs.Prelude.{◌≡◌};
ghost use Rattle.cell_values.specs.Comparison.{comparison_of, holds, order_of, rank, text_cmp};

use super::values::Value;
use std::cmp::Ordering;

/// A comparison of two values.
#[derive(Clone, Copy, Debug, PartialEq, Eq)]
pub enum CompareOp {
    Eq,
    Ne,
    Lt,
    Gt,
    Le,
    Ge,
}

/// Whether a comparison holds of two values, or the first error.
pub fn compare(op: CompareOp, a: &Value, b: &Value) -> Value
    ensures { result ≡ comparison_of op a.now b.now }
{
    match (a, b) {
        (Value::Error(kind), _) => Value::Error(*kind),
        (_, Value::Error(kind)) => Value::Error(*kind),
        _ => Value::Bool(is_met(op, order(a, b))),
    }
}

/// Whether a comparison holds of values in this order.
fn is_met(op: CompareOp, order: Ordering) -> bool
    ensures { result ≡ holds op order }
{
    match op {
        CompareOp::Eq => order.is_eq(),
        CompareOp::Ne => order.is_ne(),
        CompareOp::Lt => order.is_lt(),
        CompareOp::Gt => order.is_gt(),
        CompareOp::Le => order.is_le(),
        CompareOp::Ge => order.is_ge(),
    }
}

/// The order of two values that are no errors.
fn order(a: &Value, b: &Value) -> Ordering
    ensures { result ≡ order_of a.now b.now }
{
    match (a, b) {
        (Value::Num(m), Value::Num(n)) => m.cmp(n),
        (Value::Num(m), Value::Blank) => m.cmp(&0),
        (Value::Blank, Value::Num(n)) => 0.cmp(n),
        (Value::Text(s), Value::Text(t)) => order_texts(
            s.as_str().as_bytes(),
            t.as_str().as_bytes(),
        ),
        (Value::Text(s), Value::Blank) => order_texts(s.as_str().as_bytes(), b""),
        (Value::Blank, Value::Text(t)) => order_texts(b"", t.as_str().as_bytes()),
        (Value::Bool(b), Value::Bool(c)) => b.cmp(c),
        (Value::Bool(b), Value::Blank) => b.cmp(&false),
        (Value::Blank, Value::Bool(c)) => false.cmp(c),
        _ => rank_of(a).cmp(&rank_of(b)),
    }
}

/// Where the kind of a value stands among the kinds.
fn rank_of(v: &Value) -> u8
    ensures { result ≡ rank v.now }
{
    match v {
        Value::Num(_) | Value::Blank => 0,
        Value::Text(_) => 1,
        Value::Bool(_) => 2,
        Value::Error(_) => 3,
    }
}

/// The order of two texts, with no difference of case among ASCII letters.
fn order_texts(s: &[u8], t: &[u8]) -> Ordering
    ensures { result ≡ text_cmp s.now t.now }
{
    s.iter()
        .map(|byte| byte.to_ascii_lowercase())
        .cmp(t.iter().map(|byte| byte.to_ascii_lowercase()))
}
