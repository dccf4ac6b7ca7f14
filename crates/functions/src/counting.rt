ghost use Rattle.std.specs.Prelude.{◌≡◌, ◌<◌, ◌^◌};
ghost use Rattle.std.specs.List.{sum_by};
ghost use Rattle.functions.specs.Inputs.{AreInputs};
ghost use Rattle.functions.specs.Gathering.{number_count, value_count, count_of, counta_of};

use super::arguments::Arg;
use super::kinds::{is_blank, is_number};
use cell_values::{Value, to_number};

/// How many numbers an argument has.
fn numbers_in(arg: &Arg) -> usize
    ensures { result ≡ number_count arg.now }
{
    match arg {
        Arg::Direct(value) => { if to_number(value).is_ok() { 1 } else { 0 } }
        Arg::Cells { values, .. } => values
            .as_slice()
            .iter()
            .filter(|value| is_number(value))
            .count(),
    }
}

/// How many values an argument has.
fn values_in(arg: &Arg) -> usize
    ensures { result ≡ value_count arg.now }
{
    match arg {
        Arg::Direct(_) => 1,
        Arg::Cells { values, .. } => values
            .as_slice()
            .iter()
            .filter(|value| !is_blank(value))
            .count(),
    }
}

/// How many numbers the arguments have.
fn all_numbers_in(args: &[Arg]) -> usize
    requires { sum_by number_count args.now < 2 ^ 63 }
    ensures { result ≡ sum_by number_count args.now }
{
    args.iter().map(numbers_in).sum()
}

/// How many values the arguments have.
fn all_values_in(args: &[Arg]) -> usize
    requires { sum_by value_count args.now < 2 ^ 63 }
    ensures { result ≡ sum_by value_count args.now }
{
    args.iter().map(values_in).sum()
}

/// The count of numbers.
pub fn count(args: &[Arg]) -> Value
    requires { AreInputs args.now }
    ensures { result ≡ count_of args.now }
{
    Value::Num(all_numbers_in(args) as i64)
}

/// The count of values.
pub fn counta(args: &[Arg]) -> Value
    requires { AreInputs args.now }
    ensures { result ≡ counta_of args.now }
{
    Value::Num(all_values_in(args) as i64)
}
