ghost use Rattle.std.specs.Prelude.{◌≡◌, ◌+◌, ◌*◌, ◌≤◌, ◌^◌, length, IfOk};
ghost use Rattle.std.specs.List.{filter_map};
ghost use Rattle.functions.specs.Folds.{fold_of_values};
ghost use Rattle.functions.specs.Inputs.{all_ok, AreInputs};
ghost use Rattle.functions.specs.Gathering.{number_in_cell, numbers_of, numbers_or_error, sum_of, product_of, min_of, max_of};

use super::arguments::Arg;
use super::tallies::{Greatest, Least, Product, Sum, Tally};
use cell_values::{ErrorKind, Value, number_value, to_number};

/// A tally with the numbers of an area.
fn tally_cells<T: Tally>(start: T, values: &[Value]) -> Result<T, ErrorKind>
    requires { T.size start + 2 ^ 63 * length values.now ≤ 2 ^ 100 }
    ensures numbers { result ≡ fold_of_values T.step start
        (all_ok (filter_map number_in_cell values.now)) }
    ensures grown { IfOk result
        (λ tally. T.size tally ≤ T.size start + 2 ^ 63 * length values.now) }
{
    let mut tally = start;
    let mut left = values;
    while let [value, rest @ ..] = left {
        match value {
            Value::Num(n) => tally = tally.with(*n),
            Value::Error(kind) => return Err(*kind),
            Value::Text(_) | Value::Bool(_) | Value::Blank => {}
        }
        left = rest;
    }
    Ok(tally)
}

/// A tally with the gathered numbers of all arguments, or the first error among them.
fn tally<T: Tally>(start: T, args: &[Arg]) -> Result<T, ErrorKind>
    requires inputs { AreInputs args.now }
    requires room { T.size start ≤ 2 ^ 64 }
    ensures { result ≡ fold_of_values T.step start (numbers_or_error args.now) }
{
    let mut tally = start;
    let mut left = args;
    while let [arg, rest @ ..] = left {
        match arg {
            Arg::Direct(value) => tally = tally.with(to_number(value)?),
            Arg::Cells { values, .. } => tally = tally_cells(tally, values.as_slice())?,
        }
        left = rest;
    }
    Ok(tally)
}

/// The exact sum.
pub fn sum(args: &[Arg]) -> Value
    requires { AreInputs args.now }
    ensures { result ≡ sum_of args.now }
{
    match tally(Sum(0), args) {
        Ok(sum) => number_value(sum.0),
        Err(kind) => Value::Error(kind),
    }
}

/// The exact product, 0 for none.
pub fn product(args: &[Arg]) -> Value
    requires { AreInputs args.now }
    ensures { result ≡ product_of args.now }
{
    match tally(Product::Empty, args) {
        Ok(product) => product.value(),
        Err(kind) => Value::Error(kind),
    }
}

/// The least number, 0 for none.
pub fn min(args: &[Arg]) -> Value
    requires { AreInputs args.now }
    ensures { result ≡ min_of args.now }
{
    match tally(Least(None), args) {
        Ok(least) => Value::Num(least.0.unwrap_or(0)),
        Err(kind) => Value::Error(kind),
    }
}

/// The greatest number, 0 for none.
pub fn max(args: &[Arg]) -> Value
    requires { AreInputs args.now }
    ensures { result ≡ max_of args.now }
{
    match tally(Greatest(None), args) {
        Ok(greatest) => Value::Num(greatest.0.unwrap_or(0)),
        Err(kind) => Value::Error(kind),
    }
}
