ghost use Rattle.std.specs.Prelude.{◌≡◌, ◌≢◌, ◌-ℤ◌, ◌*ℤ◌, pos, unsigned_abs};
ghost use Rattle.cell_values.specs.Value.{within_magnitude};
ghost use Rattle.functions.specs.Inputs.{argument};
ghost use Rattle.functions.specs.Arithmetic.{abs_of, sign_of, mod_of, quotient_of, power_of, sign, signs_differ, is_rounded_up, modulus, whole_quotient, floor};

use super::arguments::{Arg, number_at};
use super::powers::power_value;
use cell_values::{ErrorKind, Value, number_value, quotient_toward_zero, remainder};

/// The magnitude of a number.
fn magnitude(n: i64) -> Value
    ensures { result ≡ within_magnitude (pos (unsigned_abs n)) }
{
    number_value(i128::from(n.unsigned_abs()))
}

/// -1, 0 or 1.
fn sign_value(n: i64) -> Value
    ensures { result ≡ Value.Num (sign n) }
{
    Value::Num(n.signum())
}

/// Whether one number is below 0 and the other above.
fn do_signs_differ(n: i64, k: i64) -> bool
    ensures { result ≡ signs_differ n k }
{
    if n < 0 { k > 0 } else { k < 0 }
}

/// Whether the quotient toward zero is above the exact one.
fn is_quotient_rounded_up(n: i64, k: i64) -> bool
    requires { k ≢ pos 0 }
    ensures { result ≡ is_rounded_up n k }
{
    remainder(n, k) != 0 && do_signs_differ(n, k)
}

/// What the floor of a division leaves.
fn floor_rest(n: i64, k: i64) -> i128
    requires { k ≢ pos 0 }
    ensures { result ≡ n -ℤ k *ℤ floor n k }
{
    if is_quotient_rounded_up(n, k) {
        remainder(n, k) + i128::from(k)
    } else {
        remainder(n, k)
    }
}

/// A number less a multiple of another, by the floor of their quotient; by 0 it is `#DIV/0!`.
fn floor_modulus(n: i64, k: i64) -> Value
    ensures { result ≡ modulus n k }
{
    if k == 0 {
        Value::Error(ErrorKind::Div0)
    } else {
        number_value(floor_rest(n, k))
    }
}

/// The quotient toward zero; by 0 it is `#DIV/0!`.
fn quotient_value(n: i64, k: i64) -> Value
    ensures { result ≡ whole_quotient n k }
{
    if k == 0 {
        Value::Error(ErrorKind::Div0)
    } else {
        number_value(quotient_toward_zero(n, k))
    }
}

/// ABS of the argument.
pub fn abs(args: &[Arg]) -> Value
    ensures { result ≡ abs_of (argument args.now 0) }
{
    match number_at(args, 0) {
        Ok(n) => magnitude(n),
        Err(kind) => Value::Error(kind),
    }
}

/// SIGN of the argument.
pub fn sign(args: &[Arg]) -> Value
    ensures { result ≡ sign_of (argument args.now 0) }
{
    match number_at(args, 0) {
        Ok(n) => sign_value(n),
        Err(kind) => Value::Error(kind),
    }
}

/// MOD of the two arguments.
pub fn modulo(args: &[Arg]) -> Value
    ensures { result ≡ mod_of (argument args.now 0) (argument args.now 1) }
{
    match (number_at(args, 0), number_at(args, 1)) {
        (Err(kind), _) => Value::Error(kind),
        (Ok(_), Err(kind)) => Value::Error(kind),
        (Ok(n), Ok(k)) => floor_modulus(n, k),
    }
}

/// QUOTIENT of the two arguments.
pub fn quotient(args: &[Arg]) -> Value
    ensures { result ≡ quotient_of (argument args.now 0) (argument args.now 1) }
{
    match (number_at(args, 0), number_at(args, 1)) {
        (Err(kind), _) => Value::Error(kind),
        (Ok(_), Err(kind)) => Value::Error(kind),
        (Ok(n), Ok(k)) => quotient_value(n, k),
    }
}

/// POWER of the two arguments.
pub fn power(args: &[Arg]) -> Value
    ensures { result ≡ power_of (argument args.now 0) (argument args.now 1) }
{
    match (number_at(args, 0), number_at(args, 1)) {
        (Err(kind), _) => Value::Error(kind),
        (Ok(_), Err(kind)) => Value::Error(kind),
        (Ok(n), Ok(k)) => power_value(n, k),
    }
}
