//! Reads the arguments of lines.

ghost use Rattle.std.specs.Prelude.{◌≡◌, ◌⊎◌, Err, IfOk, IfErr};
ghost use Rattle.std.specs.List.{before_first, after_first};
ghost use Rattle.cell_refs.specs.Written.{reference_at};
ghost use Rattle.session_script.specs.Arguments.{is_space, has_space, cell_said, name_said, function_said, type_said, handle_said, value_said, interval_said, moment_said};

use super::faults::BadLine;
use addin_types::{Registration, read_type};
use cell_refs::{Cell, Handle, read_handle, read_ref};
use cell_values::{Name, NameFault, Value, ValueFault, read_number_word, read_value};
use std::alloc::Global;
use throttle::{MAX_INTERVAL, MAX_MOMENT, MIN_INTERVAL};
use workbook::Moment;

/// What stands before the first space of a text, and what stands behind it.
pub fn cut(text: &str) -> (&str, &str)
    ensures front { result.0.now ≡ before_first is_space text.now }
    ensures back { result.1.now ≡ after_first is_space text.now }
{
    match text.split_once(' ') {
        Some(parts) => parts,
        None => (text, ""),
    }
}

/// Whether a space stands in a text.
pub fn has_space(text: &str) -> bool
    ensures { result ≡ has_space text.now }
{
    text.as_bytes().contains(&b' ')
}

/// The cell that a text names.
pub fn read_cell(text: &str) -> Result<Cell, BadLine>
    ensures { result ≡ cell_said text.now }
{
    match read_ref(text.as_bytes()) {
        Some((reference, length)) if length == text.len() => Ok(reference.at(1)),
        _ => Err(BadLine::Ref),
    }
}

/// The name that a text is.
pub fn read_name(alloc: Global, text: &str) -> Result<Name, BadLine>
    ensures said { IfOk result (λ name. name_said text.now ≡ Ok name) }
    ensures fault { IfErr result (λ fault. (fault ≡ BadLine.Memory)
        ⊎ (name_said text.now ≡ Err fault)) }
{
    match Name::new(alloc, text) {
        Ok(name) => Ok(name),
        Err(NameFault::Memory) => Err(BadLine::Memory),
        Err(NameFault::Form) => Err(BadLine::Name),
    }
}

/// The name of a function that a text is, in upper case.
pub fn read_function(alloc: Global, text: &str) -> Result<Name, BadLine>
    ensures said { IfOk result (λ name. function_said text.now ≡ Ok name) }
    ensures fault { IfErr result (λ fault. (fault ≡ BadLine.Memory)
        ⊎ (function_said text.now ≡ Err fault)) }
{
    let Ok(mut upper) = String::from_str(alloc, text) else {
        return Err(BadLine::Memory);
    };
    upper.make_ascii_uppercase();
    read_name(alloc, upper.as_str())
}

/// What a type text says.
pub fn read_registration(text: &str) -> Result<Registration, BadLine>
    ensures { result ≡ type_said text.now }
{
    match read_type(text) {
        Ok(registration) => Ok(registration),
        Err(fault) => Err(BadLine::Type(fault)),
    }
}

/// The handle that a text is.
pub fn handle_of(text: &str) -> Result<Handle, BadLine>
    ensures { result ≡ handle_said text.now }
{
    match read_handle(text.as_bytes()) {
        Some(handle) => Ok(handle),
        None => Err(BadLine::Handle),
    }
}

/// The value of a value word.
pub fn value_of(alloc: Global, text: &str) -> Result<Value, BadLine>
    ensures said { IfOk result (λ value. value_said text.now ≡ Ok value) }
    ensures fault { IfErr result (λ fault. (fault ≡ BadLine.Memory)
        ⊎ (value_said text.now ≡ Err fault)) }
{
    match read_value(alloc, text) {
        Ok(value) => Ok(value),
        Err(ValueFault::Memory) => Err(BadLine::Memory),
        Err(ValueFault::Form) => Err(BadLine::Value),
    }
}

/// The interval of a throttle that a text is.
pub fn interval_of(text: &str) -> Result<i64, BadLine>
    ensures { result ≡ interval_said text.now }
{
    match read_number_word(text.as_bytes()) {
        Some(number) if MIN_INTERVAL <= number && number <= MAX_INTERVAL => Ok(number),
        _ => Err(BadLine::Value),
    }
}

/// The moment of a pull that a text is.
pub fn moment_of(text: &str) -> Result<Moment, BadLine>
    ensures { result ≡ moment_said text.now }
{
    if text == "force" {
        return Ok(Moment::Force);
    }
    match read_number_word(text.as_bytes()) {
        Some(number) if 0 <= number && number <= MAX_MOMENT as i64 => {
            Ok(Moment::At(number as u64))
        }
        _ => Err(BadLine::Value),
    }
}
