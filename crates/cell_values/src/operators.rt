ghost use Rattle.std.specs.Prelude.{◌≡◌};
ghost use Rattle.cell_values.specs.Value.{quotient, add_of, sub_of, mul_of, div_of, negate_of};

use super::coercions::to_number;
use super::errors::ErrorKind;
use super::numbers::{
    exact_difference, exact_product, number_value, quotient_toward_zero, remainder,
};
use super::values::Value;

/// The sum of two values.
pub fn add(a: &Value, b: &Value) -> Value
    ensures { result ≡ add_of a.now b.now }
{
    match (to_number(a), to_number(b)) {
        (Err(kind), _) => Value::Error(kind),
        (Ok(_), Err(kind)) => Value::Error(kind),
        (Ok(m), Ok(n)) => number_value(i128::from(m) + i128::from(n)),
    }
}

/// The difference of two values.
pub fn sub(a: &Value, b: &Value) -> Value
    ensures { result ≡ sub_of a.now b.now }
{
    match (to_number(a), to_number(b)) {
        (Err(kind), _) => Value::Error(kind),
        (Ok(_), Err(kind)) => Value::Error(kind),
        (Ok(m), Ok(n)) => number_value(exact_difference(m, n)),
    }
}

/// The product of two values.
pub fn mul(a: &Value, b: &Value) -> Value
    ensures { result ≡ mul_of a.now b.now }
{
    match (to_number(a), to_number(b)) {
        (Err(kind), _) => Value::Error(kind),
        (Ok(_), Err(kind)) => Value::Error(kind),
        (Ok(m), Ok(n)) => number_value(exact_product(m, n)),
    }
}

/// The exact quotient of two values: by 0 it is `#DIV/0!`, and where it isn't whole `#NUM!`.
pub fn div(a: &Value, b: &Value) -> Value
    ensures { result ≡ div_of a.now b.now }
{
    match (to_number(a), to_number(b)) {
        (Err(kind), _) => Value::Error(kind),
        (Ok(_), Err(kind)) => Value::Error(kind),
        (Ok(m), Ok(n)) => divided(m, n),
    }
}

/// The exact quotient of two numbers.
fn divided(m: i64, n: i64) -> Value
    ensures { result ≡ quotient m n }
{
    if n == 0 {
        Value::Error(ErrorKind::Div0)
    } else if remainder(m, n) == 0 {
        number_value(quotient_toward_zero(m, n))
    } else {
        Value::Error(ErrorKind::Num)
    }
}

/// The value with the opposite sign.
pub fn negate(a: &Value) -> Value
    ensures { result ≡ negate_of a.now }
{
    match to_number(a) {
        Ok(n) => number_value(-i128::from(n)),
        Err(kind) => Value::Error(kind),
    }
}
