ghost use Rattle.std.specs.Prelude.{◌≡◌, IfOk};
ghost use Rattle.cell_eval.specs.Steps.{combination_of};
ghost use Rattle.workbook.specs.Evaluation.{operation_of, repeated_negation};

use cell_values::{Memory, Value, add, compare, div, join, mul, negate, sub};
use formula_parse::Operator;
use std::alloc::Global;

/// An operator between two values.
fn operate(alloc: Global, operator: Operator, left: &Value, right: &Value) -> Result<Value, Memory>
    ensures { IfOk result (λ value. value ≡ operation_of operator left.now right.now) }
{
    match operator {
        Operator::Compare(op) => Ok(compare(op, left, right)),
        Operator::Join => join(alloc, left, right),
        Operator::Add => Ok(add(left, right)),
        Operator::Subtract => Ok(sub(left, right)),
        Operator::Multiply => Ok(mul(left, right)),
        Operator::Divide => Ok(div(left, right)),
    }
}

/// What stands left in a chain combined with the operand behind the operator at a place; with no operator there it
/// stays.
pub fn combined(
    alloc: Global,
    operators: &[Operator],
    place: usize,
    left: Value,
    right: &Value,
) -> Result<Value, Memory>
    ensures { IfOk result (λ value. value ≡ combination_of operators.now place left right.now) }
{
    match operators.get(place) {
        Some(operator) => operate(alloc, *operator, &left, right),
        None => Ok(left),
    }
}

/// A value negated so many times.
pub fn negated(count: u32, value: Value) -> Value
    ensures { result ≡ repeated_negation count value }
{
    let mut value = value;
    for _ in 0..count {
        value = negate(&value);
    }
    value
}
