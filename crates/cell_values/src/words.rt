ghost use Rattle.std.specs.Prelude.{◌≡◌, ◌++◌, length, take, Some, None, IfOk, OnOk, OnErr};
ghost use Rattle.cell_values.specs.Word.{value_text, value_of_word, HasWord, quotation_of, byte_within, before_closing_quote, text_word, text_of_bytes, bool_word, kind_of_word};

use super::digits::read_number_word;
use super::errors::ErrorKind;
use super::memory::Memory;
use super::texts::{Text, TextFault};
use super::values::Value;
use itoa::Buffer;
use std::alloc::Global;
use std::str;

/// Why some characters are read as no value.
#[derive(Clone, Copy, Debug, PartialEq, Eq)]
pub enum ValueFault {
    Memory,
    /// They are no value word.
    Form,
}

/// Appends the value word; a Blank is written as `0`.
#[tactic(auto, using(crate::proofs::WordLaws::value_of_word_again))]
pub fn print_value(v: &Value, out: &mut Vec<u8>) -> Result<(), Memory>
    ensures ok { OnOk result (out.new.items ≡ out.old.items ++ value_text v.now) }
    ensures err { OnErr result (out.new.items ≡ out.old.items) }

    // What is written is read again as the value.
    ensures again { HasWord v.now → value_of_word (value_text v.now) ≡ Some v.now }
{
    append_value(v, out)
}

/// Appends the value word.
fn append_value(v: &Value, out: &mut Vec<u8>) -> Result<(), Memory>
    ensures ok { OnOk result (out.new.items ≡ out.old.items ++ value_text v.now) }
    ensures err { OnErr result (out.new.items ≡ out.old.items) }
{
    match v {
        Value::Num(n) => append(out, Buffer::new().format(*n).as_bytes()),
        Value::Text(text) => append_quoted(out, text.as_str().as_bytes()),
        Value::Bool(true) => append(out, b"TRUE"),
        Value::Bool(false) => append(out, b"FALSE"),
        Value::Error(kind) => append(out, kind.word().as_bytes()),
        Value::Blank => append(out, b"0"),
    }
}

/// Appends the bytes.
fn append(out: &mut Vec<u8>, bytes: &[u8]) -> Result<(), Memory>
    ensures ok { OnOk result (out.new.items ≡ out.old.items ++ bytes.now) }
    ensures err { OnErr result (out.new.items ≡ out.old.items) }
{
    out.extend_from_slice(bytes)?;
    Ok(())
}

/// Appends a text between quotes, with each quote in it doubled.
fn append_quoted(out: &mut Vec<u8>, text: &[u8]) -> Result<(), Memory>
    ensures ok { OnOk result (out.new.items ≡ out.old.items ++ quotation_of text.now) }
    ensures err { OnErr result (out.new.items ≡ out.old.items) }
{
    let start = out.len();
    match push_quoted(out, text) {
        Ok(()) => Ok(()),
        Err(refused) => {
            out.truncate(start);
            Err(refused)
        }
    }
}

/// Appends a text between quotes, with each quote in it doubled, or the beginning of that.
fn push_quoted(out: &mut Vec<u8>, text: &[u8]) -> Result<(), Memory>
    ensures ok { OnOk result (out.new.items ≡ out.old.items ++ quotation_of text.now) }
    ensures err { OnErr result (take (length out.old.items) out.new.items ≡ out.old.items) }
{
    append(out, b"\"")?;
    for byte in text {
        append_within(out, *byte)?;
    }
    append(out, b"\"")
}

/// Appends a byte of a text as it is written between quotes.
fn append_within(out: &mut Vec<u8>, byte: u8) -> Result<(), Memory>
    ensures ok { OnOk result (out.new.items ≡ out.old.items ++ byte_within byte) }
    ensures err { OnErr result (out.new.items ≡ out.old.items) }
{
    if byte == b'"' {
        append(out, b"\"\"")
    } else {
        append(out, &[byte])
    }
}

/// The value that a value word says.
pub fn read_value(alloc: Global, text: &str) -> Result<Value, ValueFault>
    ensures ok { IfOk result (λ value. value_of_word text.now ≡ Some value) }
    ensures form { result ≡ Err ValueFault.Form → value_of_word text.now ≡ None }

    // A value is read from its own word alone.
    ensures word { IfOk result (λ value. (text.now ≡ value_text value) × HasWord value) }
{
    match read_word(alloc, text) {
        Ok(value) => Ok(value),
        Err(fault) => Err(fault),
    }
}

/// The value that a value word says.
fn read_word(alloc: Global, text: &str) -> Result<Value, ValueFault>
    ensures ok { IfOk result (λ value. value_of_word text.now ≡ Some value) }
    ensures form { result ≡ Err ValueFault.Form → value_of_word text.now ≡ None }
{
    if let Some(n) = read_number_word(text.as_bytes()) {
        return Ok(Value::Num(n));
    }
    if let Some(b) = read_bool_word(text) {
        return Ok(Value::Bool(b));
    }
    if let Some(kind) = read_error_word(text) {
        return Ok(Value::Error(kind));
    }
    match read_text_word(alloc, text.as_bytes()) {
        Ok(text) => Ok(Value::Text(text)),
        Err(fault) => Err(fault),
    }
}

/// The boolean of its word.
fn read_bool_word(text: &str) -> Option<bool>
    ensures { result ≡ bool_word text.now }
{
    if text == "TRUE" {
        Some(true)
    } else if text == "FALSE" {
        Some(false)
    } else {
        None
    }
}

/// The error value of its word.
pub fn read_error_word(text: &str) -> Option<ErrorKind>
    ensures { result ≡ kind_of_word text.now }
{
    let kinds = [
        ErrorKind::Null,
        ErrorKind::Div0,
        ErrorKind::Value,
        ErrorKind::Ref,
        ErrorKind::Name,
        ErrorKind::Num,
        ErrorKind::Na,
    ];
    kinds.iter().copied().find(|kind| text == kind.word())
}

/// The text that is written between quotes.
fn read_text_word(alloc: Global, word: &[u8]) -> Result<Text, ValueFault>
    ensures ok { IfOk result (λ text. text_word word.now ≡ Some text) }
    ensures form { result ≡ Err ValueFault.Form → text_word word.now ≡ None }
{
    match word {
        [b'"', rest @ ..] => {
            let bytes = undouble(alloc, rest)?;
            text_from_bytes(alloc, &bytes)
        }
        _ => Err(ValueFault::Form),
    }
}

/// The text of these bytes.
fn text_from_bytes(alloc: Global, bytes: &[u8]) -> Result<Text, ValueFault>
    ensures ok { IfOk result (λ text. text_of_bytes bytes.now ≡ Some text) }
    ensures form { result ≡ Err ValueFault.Form → text_of_bytes bytes.now ≡ None }
{
    let Ok(s) = str::from_utf8(bytes) else {
        return Err(ValueFault::Form);
    };
    match Text::new(alloc, s) {
        Ok(text) => Ok(text),
        Err(TextFault::Memory) => Err(ValueFault::Memory),
        Err(TextFault::TooLong) => Err(ValueFault::Form),
        Err(TextFault::Control(_)) => Err(ValueFault::Form),
    }
}

/// The bytes up to the closing quote, with each doubled quote made one.
fn undouble(alloc: Global, word: &[u8]) -> Result<Vec<u8>, ValueFault>
    ensures ok { IfOk result (λ bytes. before_closing_quote word.now ≡ Some bytes.items) }
    ensures form { result ≡ Err ValueFault.Form → before_closing_quote word.now ≡ None }
{
    let mut bytes = Vec::new(alloc);
    let mut rest = word;
    loop {
        let (byte, tail) = match rest {
            [b'"'] => return Ok(bytes),
            [b'"', b'"', tail @ ..] => (b'"', tail),
            [] | [b'"', ..] => return Err(ValueFault::Form),
            [byte, tail @ ..] => (*byte, tail),
        };
        if bytes.push(byte).is_err() {
            return Err(ValueFault::Memory);
        }
        rest = tail;
    }
}
