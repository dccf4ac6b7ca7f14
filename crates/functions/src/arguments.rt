ghost use Rattle.std.specs.Prelude.{◌≡◌, ◌↔◌, IsTrue, IfOk};
ghost use Rattle.cell_values.specs.Coercion.{text_of, truth_of};
ghost use Rattle.cell_values.specs.Value.{number_of};
ghost use Rattle.functions.specs.Inputs.{argument, argument_or, AreInputs};

use super::limits::{MOST_ARGUMENTS, MOST_VALUES};
use cell_values::{ErrorKind, Memory, Text, Value, to_bool, to_number, to_text};
use std::alloc::Global;
use std::marker::Model;

/// A list of values.
#[derive(Debug, Drop)]
pub struct Values {
    items: Vec<Value>,
}

impl Model for Values {
    ghost use Rattle.std.specs.Prelude.{List};
    ghost use Rattle.cell_values.specs.declared.values.Value.{Value as OneValue};

    ghost Value = { List OneValue };

    ghost view = { λ v. v.items.items };
}

impl Values {
    ghost use Rattle.std.specs.Prelude.{◌≡◌};

    /// The list of these values.
    pub fn new(values: Vec<Value>) -> Values
        ensures { result ≡ values.items }
    {
        Values { items: values }
    }

    /// The values.
    pub fn as_slice(&self) -> &[Value]
        ensures { result.now ≡ self.now }
    {
        self.items.as_slice()
    }
}

/// An argument of a function.
#[derive(Debug, Drop)]
pub enum Arg {
    /// A value.
    Direct(Value),
    /// The values of a reference or an area, by rows.
    Cells { columns: u32, values: Values },
}

impl Arg {
    ghost use Rattle.std.specs.Prelude.{◌↔◌, IsTrue};
    ghost use Rattle.functions.specs.Inputs.{IsInput};

    /// Whether the argument is in form: an area has whole rows, and from 1 to 65,536 values.
    pub fn is_in_form(&self) -> bool
        ensures { IsTrue result ↔ IsInput self.now }
    {
        match self {
            Arg::Direct(_) => true,
            Arg::Cells { columns, values } => {
                let count = values.as_slice().len();
                *columns > 0 && count > 0 && count <= MOST_VALUES && count % *columns as usize == 0
            }
        }
    }
}

/// Whether these are the arguments of a call: at most 255, each in form.
pub fn are_in_form(args: &[Arg]) -> bool
    ensures { IsTrue result ↔ AreInputs args.now }
{
    args.len() <= usize::from(MOST_ARGUMENTS) && args.iter().all(Arg::is_in_form)
}

/// The number that the argument at a place counts as.
pub(crate) fn number_at(args: &[Arg], place: usize) -> Result<i64, ErrorKind>
    ensures { result ≡ number_of (argument args.now place) }
{
    match args.get(place) {
        Some(Arg::Direct(value)) => to_number(value),
        Some(Arg::Cells { .. }) => Err(ErrorKind::Value),
        None => Ok(0),
    }
}

/// The number that the argument at a place counts as, or another where none stands there.
pub(crate) fn number_or(args: &[Arg], place: usize, other: i64) -> Result<i64, ErrorKind>
    ensures { result ≡ number_of (argument_or (Value.Num other) args.now place) }
{
    if place < args.len() {
        number_at(args, place)
    } else {
        Ok(other)
    }
}

/// The boolean that the argument at a place counts as.
pub(crate) fn truth_at(args: &[Arg], place: usize) -> Result<bool, ErrorKind>
    ensures { result ≡ truth_of (argument args.now place) }
{
    match args.get(place) {
        Some(Arg::Direct(value)) => to_bool(value),
        Some(Arg::Cells { .. }) => Err(ErrorKind::Value),
        None => Ok(false),
    }
}

/// The text that the argument at a place counts as.
pub(crate) fn text_at(
    alloc: Global,
    args: &[Arg],
    place: usize,
) -> Result<Result<Text, ErrorKind>, Memory>
    ensures { IfOk result (λ text. text ≡ text_of (argument args.now place)) }
{
    match args.get(place) {
        Some(Arg::Direct(value)) => to_text(alloc, value),
        Some(Arg::Cells { .. }) => Ok(Err(ErrorKind::Value)),
        None => to_text(alloc, &Value::Blank),
    }
}
