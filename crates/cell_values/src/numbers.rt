//! Numbers computed exactly, in 128 bits, and held within the magnitude.
ghost use Rattle.std.specs.Prelude.{◌≡◌, ◌≢◌, pos, ◌-ℤ◌, ◌*ℤ◌, int_div, int_rem};
ghost use Rattle.cell_values.specs.Value.{is_in_magnitude, within_magnitude};

use super::errors::ErrorKind;
use super::limits::LARGEST_NUMBER;
use super::values::Value;

/// Whether a number is within the magnitude.
pub fn is_in_magnitude(n: i128) -> bool
    ensures { result ≡ is_in_magnitude n }
{
    -i128::from(LARGEST_NUMBER) <= n && n <= i128::from(LARGEST_NUMBER)
}

/// A number as a value where it is within the magnitude, else `#NUM!`.
pub fn number_value(n: i128) -> Value
    ensures { result ≡ within_magnitude n }
{
    if is_in_magnitude(n) {
        Value::Num(n as i64)
    } else {
        Value::Error(ErrorKind::Num)
    }
}

/// The difference of two numbers.
pub fn exact_difference(m: i64, n: i64) -> i128
    ensures { result ≡ m -ℤ n }
{
    i128::from(m) - i128::from(n)
}

/// The product of two numbers.
pub fn exact_product(m: i64, n: i64) -> i128
    ensures { result ≡ m *ℤ n }
{
    i128::from(m) * i128::from(n)
}

/// The quotient of two numbers, toward zero.
pub fn quotient_toward_zero(m: i64, n: i64) -> i128
    requires { n ≢ pos 0 }
    ensures { result ≡ int_div m n }
{
    i128::from(m) / i128::from(n)
}

/// What a division toward zero leaves.
pub fn remainder(m: i64, n: i64) -> i128
    requires { n ≢ pos 0 }
    ensures { result ≡ int_rem m n }
{
    i128::from(m) % i128::from(n)
}
