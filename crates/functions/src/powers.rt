ghost use Rattle.std.specs.Prelude.{◌≡◌, ◌≤◌, pos, unsigned_abs};
ghost use Rattle.cell_values.specs.Value.{within_magnitude};
ghost use Rattle.functions.specs.Arithmetic.{exact_power, power};

use cell_values::{ErrorKind, Value, exact_product, is_in_magnitude};

/// A power of a number that isn't -1, 0 or 1.
fn large_power(n: i64, k: u64) -> Value
    requires { 2 ≤ unsigned_abs n }
    ensures { result ≡ within_magnitude (exact_power n k) }
{
    let mut power = 1;
    let mut factors = 0;
    while factors < k {
        let next = exact_product(n, power);
        if !is_in_magnitude(next) {
            return Value::Error(ErrorKind::Num);
        }
        power = next as i64;
        factors += 1;
    }
    Value::Num(power)
}

/// A power with an exponent that isn't below 0.
fn whole_power(n: i64, k: u64) -> Value
    ensures { result ≡ within_magnitude (exact_power n k) }
{
    match n {
        0 if k == 0 => Value::Num(1),
        0 => Value::Num(0),
        1 => Value::Num(1),
        -1 if k % 2 == 0 => Value::Num(1),
        -1 => Value::Num(-1),
        _ => large_power(n, k),
    }
}

/// A number to the power of another.
pub fn power_value(n: i64, k: i64) -> Value
    ensures { result ≡ power n k }
{
    if n == 0 && k <= 0 {
        Value::Error(if k == 0 {
            ErrorKind::Num
        } else {
            ErrorKind::Div0
        })
    } else if k < 0 && n.unsigned_abs() > 1 {
        Value::Error(ErrorKind::Num)
    } else {
        whole_power(n, k.unsigned_abs())
    }
}
