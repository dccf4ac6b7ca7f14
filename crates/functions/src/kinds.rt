ghost use Rattle.std.specs.Prelude.{◌≡◌};
ghost use Rattle.functions.specs.Inputs.{argument};
ghost use Rattle.functions.specs.AskedKinds.{is_of};
ghost use Rattle.functions.specs.Kinds.{is_number, is_text_value, is_logical, is_error, is_na, is_blank};

use super::arguments::Arg;
use cell_values::{ErrorKind, Value};

/// What a value can be asked for.
#[derive(Clone, Copy)]
pub enum ValueKind {
    Number,
    Text,
    Logical,
    Error,
    Na,
    Blank,
}

impl ValueKind {
    ghost use Rattle.std.specs.Prelude.{◌≡◌};
    ghost use Rattle.functions.specs.AskedKinds.{is_of};

    /// Whether a value is of this kind.
    fn holds(self, value: &Value) -> bool
        ensures { result ≡ is_of self value.now }
    {
        match self {
            ValueKind::Number => is_number(value),
            ValueKind::Text => is_text(value),
            ValueKind::Logical => is_logical(value),
            ValueKind::Error => is_error(value),
            ValueKind::Na => is_na(value),
            ValueKind::Blank => is_blank(value),
        }
    }
}

/// Whether the argument is of a kind.
pub fn ask(kind: ValueKind, args: &[Arg]) -> Value
    ensures { result ≡ Value.Bool (is_of kind (argument args.now 0)) }
{
    Value::Bool(match args.first() {
        Some(Arg::Direct(value)) => kind.holds(value),
        Some(Arg::Cells { .. }) => kind.holds(&Value::Error(ErrorKind::Value)),
        None => kind.holds(&Value::Blank),
    })
}

/// Whether a value is a number.
pub fn is_number(value: &Value) -> bool
    ensures { result ≡ is_number value.now }
{
    matches!(value, Value::Num(_))
}

/// Whether a value is a text.
pub fn is_text(value: &Value) -> bool
    ensures { result ≡ is_text_value value.now }
{
    matches!(value, Value::Text(_))
}

/// Whether a value is a boolean.
pub fn is_logical(value: &Value) -> bool
    ensures { result ≡ is_logical value.now }
{
    matches!(value, Value::Bool(_))
}

/// Whether a value is an error.
pub fn is_error(value: &Value) -> bool
    ensures { result ≡ is_error value.now }
{
    matches!(value, Value::Error(_))
}

/// Whether a value is `#N/A`.
pub fn is_na(value: &Value) -> bool
    ensures { result ≡ is_na value.now }
{
    matches!(value, Value::Error(ErrorKind::Na))
}

/// Whether a value is a Blank.
pub fn is_blank(value: &Value) -> bool
    ensures { result ≡ is_blank value.now }
{
    matches!(value, Value::Blank)
}
