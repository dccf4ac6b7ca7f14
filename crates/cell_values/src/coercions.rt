ghost use Rattle.std.specs.Prelude.{◌≡◌, IfOk};
ghost use Rattle.std.specs.Fmt.{signed_decimal};
ghost use Rattle.cell_values.specs.Value.{number_of};
ghost use Rattle.cell_values.specs.Coercion.{truth_of, truth_of_text, text_of, join_of, text_join_of};

use super::digits::{signed, trim_spaces};
use super::errors::ErrorKind;
use super::memory::Memory;
use super::texts::Text;
use super::values::Value;
use itoa::Buffer;
use std::alloc::Global;

/// The number that a value counts as.
pub fn to_number(v: &Value) -> Result<i64, ErrorKind>
    ensures { result ≡ number_of v.now }
{
    match v {
        Value::Num(n) => Ok(*n),
        Value::Text(text) => match signed(trim_spaces(text.as_str().as_bytes())) {
            Some(n) => Ok(n),
            None => Err(ErrorKind::Value),
        },
        Value::Bool(b) => Ok(i64::from(*b)),
        Value::Error(kind) => Err(*kind),
        Value::Blank => Ok(0),
    }
}

/// The boolean that a value counts as.
pub fn to_bool(v: &Value) -> Result<bool, ErrorKind>
    ensures { result ≡ truth_of v.now }
{
    match v {
        Value::Num(n) => Ok(*n != 0),
        Value::Text(text) => text_to_bool(text.as_str()),
        Value::Bool(b) => Ok(*b),
        Value::Error(kind) => Err(*kind),
        Value::Blank => Ok(false),
    }
}

/// The boolean whose word a text is, in any case.
fn text_to_bool(text: &str) -> Result<bool, ErrorKind>
    ensures { result ≡ truth_of_text text.now }
{
    if text.eq_ignore_ascii_case("true") {
        Ok(true)
    } else if text.eq_ignore_ascii_case("false") {
        Ok(false)
    } else {
        Err(ErrorKind::Value)
    }
}

/// The text that a value counts as.
pub fn to_text(alloc: Global, v: &Value) -> Result<Result<Text, ErrorKind>, Memory>
    ensures { IfOk result (λ text. text ≡ text_of v.now) }
{
    let text = match v {
        Value::Num(n) => number_to_text(alloc, *n),
        Value::Text(text) => text.copy(),
        Value::Bool(true) => Text::known(alloc, "TRUE"),
        Value::Bool(false) => Text::known(alloc, "FALSE"),
        Value::Error(kind) => return Ok(Err(*kind)),
        Value::Blank => Text::known(alloc, ""),
    };
    Ok(Ok(text?))
}

/// The decimals of a number.
fn number_to_text(alloc: Global, n: i64) -> Result<Text, Memory>
    ensures { IfOk result (λ text. text ≡ signed_decimal n) }
{
    Text::known(alloc, Buffer::new().format(n))
}

/// Two values joined as texts.
pub fn join(alloc: Global, a: &Value, b: &Value) -> Result<Value, Memory>
    ensures { IfOk result (λ value. value ≡ join_of a.now b.now) }
{
    match (to_text(alloc, a)?, to_text(alloc, b)?) {
        (Err(kind), _) => Ok(Value::Error(kind)),
        (Ok(_), Err(kind)) => Ok(Value::Error(kind)),
        (Ok(s), Ok(t)) => join_texts(alloc, &s, &t),
    }
}

/// Two texts after one another, or `#VALUE!` where they are too long together.
fn join_texts(alloc: Global, s: &Text, t: &Text) -> Result<Value, Memory>
    ensures { IfOk result (λ value. value ≡ text_join_of s.now t.now) }
{
    match s.followed_by(alloc, t)? {
        Some(both) => Ok(Value::Text(both)),
        None => Ok(Value::Error(ErrorKind::Value)),
    }
}
