//! The functions that write a text anew.
ghost use Rattle.std.specs.Prelude.{◌≡◌, ◌++◌, IfOk, OnOk};
ghost use Rattle.std.specs.List.{repeat};
ghost use Rattle.std.specs.Str.{chars, encode_utf8_all};
ghost use Rattle.std.specs.String.{string_bytes};
ghost use Rattle.cell_values.specs.Text.{if_short};
ghost use Rattle.functions.specs.TextSteps.{character_behind_space};
ghost use Rattle.functions.specs.Texts.{text_or_fault, in_upper_case, in_lower_case, upper_of, lower_of, rept_part, rept_of, single_spacing_of, trim_of};

use super::arguments::{Arg, number_at, text_at};
use super::text_answers::text_value;
use super::text_parts::{amount_of, count_characters};
use cell_values::{ErrorKind, LONGEST_TEXT, Memory, Text, Value};
use std::alloc::{AllocError, Global};

/// UPPER.
pub(crate) fn upper(alloc: Global, args: &[Arg]) -> Result<Value, Memory>
    ensures { IfOk result (λ value. value ≡ upper_of args.now) }
{
    match text_at(alloc, args, 0)? {
        Ok(text) => upper_text(alloc, &text),
        Err(kind) => Ok(Value::Error(kind)),
    }
}

/// A text with its ASCII letters in upper case.
fn upper_text(alloc: Global, text: &Text) -> Result<Value, Memory>
    ensures { IfOk result (λ value. value ≡ Value.Text (in_upper_case text.now)) }
{
    let upper = to_upper_case(alloc, text.as_str())?;
    text_value(alloc, upper.as_str())
}

/// The characters with ASCII letters in upper case.
fn to_upper_case(alloc: Global, text: &str) -> Result<String, AllocError>
    ensures { IfOk result (λ upper. string_bytes upper ≡ in_upper_case text.now) }
{
    text.chars().map(|c| c.to_ascii_uppercase()).collect(alloc)
}

/// LOWER.
pub(crate) fn lower(alloc: Global, args: &[Arg]) -> Result<Value, Memory>
    ensures { IfOk result (λ value. value ≡ lower_of args.now) }
{
    match text_at(alloc, args, 0)? {
        Ok(text) => lower_text(alloc, &text),
        Err(kind) => Ok(Value::Error(kind)),
    }
}

/// A text with its ASCII letters in lower case.
fn lower_text(alloc: Global, text: &Text) -> Result<Value, Memory>
    ensures { IfOk result (λ value. value ≡ Value.Text (in_lower_case text.now)) }
{
    let lower = to_lower_case(alloc, text.as_str())?;
    text_value(alloc, lower.as_str())
}

/// The characters with ASCII letters in lower case.
fn to_lower_case(alloc: Global, text: &str) -> Result<String, AllocError>
    ensures { IfOk result (λ lower. string_bytes lower ≡ in_lower_case text.now) }
{
    text.chars().map(|c| c.to_ascii_lowercase()).collect(alloc)
}

/// REPT.
pub(crate) fn rept(alloc: Global, args: &[Arg]) -> Result<Value, Memory>
    ensures { IfOk result (λ value. value ≡ rept_of args.now) }
{
    match (text_at(alloc, args, 0)?, number_at(args, 1)) {
        (Err(kind), _) => Ok(Value::Error(kind)),
        (Ok(_), Err(kind)) => Ok(Value::Error(kind)),
        (Ok(text), Ok(n)) => rept_part(alloc, &text, n),
    }
}

/// A text so many times.
fn rept_part(alloc: Global, text: &Text, n: i64) -> Result<Value, Memory>
    ensures { IfOk result (λ value. value ≡ rept_part text.now n) }
{
    match amount_of(n) {
        Some(times) => repeated_text(alloc, text, times),
        None => Ok(Value::Error(ErrorKind::Value)),
    }
}

/// A text so many times, or `#VALUE!` where that is too long.
fn repeated_text(alloc: Global, text: &Text, times: usize) -> Result<Value, Memory>
    ensures { IfOk result (λ value. value ≡ text_or_fault (if_short (repeat times text.now))) }
{
    let length = count_characters(text.as_str());
    if length == 0 {
        return text_value(alloc, "");
    }
    if times > LONGEST_TEXT / length {
        return Ok(Value::Error(ErrorKind::Value));
    }
    let all = repeated(alloc, text.as_str(), times)?;
    text_value(alloc, all.as_str())
}

/// Characters so many times.
fn repeated(alloc: Global, s: &str, times: usize) -> Result<String, AllocError>
    ensures { IfOk result (λ all. string_bytes all ≡ repeat times s.now) }
{
    let mut all = String::new(alloc);
    for _time in 0..times {
        all.push_str(s)?;
    }
    Ok(all)
}

/// TRIM.
pub(crate) fn trim(alloc: Global, args: &[Arg]) -> Result<Value, Memory>
    ensures { IfOk result (λ value. value ≡ trim_of args.now) }
{
    match text_at(alloc, args, 0)? {
        Ok(text) => trim_text(alloc, &text),
        Err(kind) => Ok(Value::Error(kind)),
    }
}

/// A text with no spaces at the ends and no runs of spaces.
fn trim_text(alloc: Global, text: &Text) -> Result<Value, Memory>
    ensures { IfOk result (λ value. value ≡ Value.Text
        (encode_utf8_all (single_spacing_of (chars text.now)))) }
{
    let tidy = tidied(alloc, text.as_str())?;
    text_value(alloc, tidy.as_str())
}

/// The characters with no spaces at the ends and no runs of spaces.
fn tidied(alloc: Global, text: &str) -> Result<String, AllocError>
    ensures { IfOk result (λ tidy. string_bytes tidy
        ≡ encode_utf8_all (single_spacing_of (chars text.now))) }
{
    let mut tidy = String::new(alloc);
    let mut is_spaced = false;
    for c in text.chars() {
        if c == ' ' {
            is_spaced = !tidy.as_str().is_empty();
        } else {
            push_spaced(&mut tidy, is_spaced, c)?;
            is_spaced = false;
        }
    }
    Ok(tidy)
}

/// Appends a character, behind a space where one is wanted.
fn push_spaced(tidy: &mut String, is_spaced: bool, c: char) -> Result<(), AllocError>
    ensures { OnOk result (string_bytes tidy.new ≡ string_bytes tidy.old
        ++ character_behind_space is_spaced c) }
{
    if is_spaced {
        tidy.push(' ')?;
    }
    tidy.push(c)?;
    Ok(())
}
