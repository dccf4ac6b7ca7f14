ghost use Rattle.std.specs.Prelude.{◌≡◌};
ghost use Rattle.std.specs.List.{filter_map, flat_map};
ghost use Rattle.cell_values.specs.Coercion.{truth_of};
ghost use Rattle.functions.specs.Folds.{fold_of_values};
ghost use Rattle.functions.specs.Inputs.{all_ok};
ghost use Rattle.functions.specs.Logic.{truth_in_cell, truths_of, truths, opposite_of, and_of, or_of, not_of};
ghost use Rattle.functions.specs.Inputs.{argument};
ghost use Rattle.functions.specs.Truths.{with_truth, NO_TRUTHS};

use super::arguments::{Arg, truth_at};
use super::truths::Truths;
use cell_values::{ErrorKind, Value, to_bool};

/// What stands among the booleans of an area, after what was seen before.
fn see_cells(seen: Truths, values: &[Value]) -> Result<Truths, ErrorKind>
    ensures { result ≡ fold_of_values with_truth seen
        (all_ok (filter_map truth_in_cell values.now)) }
{
    let mut seen = seen;
    let mut left = values;
    while let [value, rest @ ..] = left {
        match value {
            Value::Num(n) => seen = seen.with(*n != 0),
            Value::Bool(b) => seen = seen.with(*b),
            Value::Error(kind) => return Err(*kind),
            Value::Text(_) | Value::Blank => {}
        }
        left = rest;
    }
    Ok(seen)
}

/// What stands among the booleans of all arguments.
fn see(args: &[Arg]) -> Result<Truths, ErrorKind>
    ensures { result ≡ fold_of_values with_truth NO_TRUTHS (truths args.now) }
{
    let mut seen = Truths::none();
    let mut left = args;
    while let [arg, rest @ ..] = left {
        match arg {
            Arg::Direct(value) => seen = seen.with(to_bool(value)?),
            Arg::Cells { values, .. } => seen = see_cells(seen, values.as_slice())?,
        }
        left = rest;
    }
    Ok(seen)
}

/// Whether all booleans of the arguments are true.
pub fn and(args: &[Arg]) -> Value
    ensures { result ≡ and_of args.now }
{
    match see(args) {
        Ok(seen) if seen.some => Value::Bool(seen.all),
        Ok(_) => Value::Error(ErrorKind::Value),
        Err(kind) => Value::Error(kind),
    }
}

/// Whether any boolean of the arguments is true.
pub fn or(args: &[Arg]) -> Value
    ensures { result ≡ or_of args.now }
{
    match see(args) {
        Ok(seen) if seen.some => Value::Bool(seen.any),
        Ok(_) => Value::Error(ErrorKind::Value),
        Err(kind) => Value::Error(kind),
    }
}

/// The opposite of a boolean.
fn opposite(truth: Result<bool, ErrorKind>) -> Value
    ensures { result ≡ opposite_of truth }
{
    match truth {
        Ok(b) => Value::Bool(!b),
        Err(kind) => Value::Error(kind),
    }
}

/// NOT of the argument.
pub fn not(args: &[Arg]) -> Value
    ensures { result ≡ not_of (argument args.now 0) }
{
    opposite(truth_at(args, 0))
}
