//! The functions that measure a text or take a part of it.
ghost use Rattle.std.specs.Prelude.{◌≡◌, IfOk, length};
ghost use Rattle.std.specs.Str.{chars};
ghost use Rattle.functions.specs.Texts.{amount_of, before_place, first_characters, without_first, last_characters, len_of, left_part, left_of, right_part, right_of, mid_part, mid_of};

use super::arguments::{Arg, number_at, number_or, text_at};
use super::text_answers::text_value;
use cell_values::{ErrorKind, Memory, Text, Value};
use std::alloc::Global;

/// An amount of characters or repetitions. None where it is under 0.
pub(crate) fn amount_of(n: i64) -> Option<usize>
    ensures { result ≡ amount_of n }
{
    if n < 0 { None } else { Some(n as usize) }
}

/// How many characters stand before a place. None where the place is under 1.
pub(crate) fn before_place(n: i64) -> Option<usize>
    ensures { result ≡ before_place n }
{
    if n < 1 { None } else { Some((n - 1) as usize) }
}

/// The number of characters.
pub(crate) fn count_characters(text: &str) -> usize
    ensures { result ≡ length (chars text.now) }
{
    text.chars().count()
}

/// A text without its first characters.
pub(crate) fn without_first(text: &str, n: usize) -> &str
    ensures { result.now ≡ without_first n text.now }
{
    let mut rest = text.chars();
    for _skipped in 0..n {
        let Some(_character) = rest.next() else {
            return "";
        };
    }
    rest.as_str()
}

/// The first characters of a text.
fn first_characters(text: &str, n: usize) -> &str
    ensures { result.now ≡ first_characters n text.now }
{
    let rest = without_first(text, n);
    &text[..text.len() - rest.len()]
}

/// The last characters of a text.
fn last_characters(text: &str, n: usize) -> &str
    ensures { result.now ≡ last_characters n text.now }
{
    without_first(text, count_characters(text).saturating_sub(n))
}

/// LEN.
pub(crate) fn len(alloc: Global, args: &[Arg]) -> Result<Value, Memory>
    ensures { IfOk result (λ value. value ≡ len_of args.now) }
{
    match text_at(alloc, args, 0)? {
        Ok(text) => Ok(Value::Num(count_characters(text.as_str()) as i64)),
        Err(kind) => Ok(Value::Error(kind)),
    }
}

/// LEFT.
pub(crate) fn left(alloc: Global, args: &[Arg]) -> Result<Value, Memory>
    ensures { IfOk result (λ value. value ≡ left_of args.now) }
{
    match (text_at(alloc, args, 0)?, number_or(args, 1, 1)) {
        (Err(kind), _) => Ok(Value::Error(kind)),
        (Ok(_), Err(kind)) => Ok(Value::Error(kind)),
        (Ok(text), Ok(n)) => left_part(alloc, &text, n),
    }
}

/// As many characters from the front of a text.
fn left_part(alloc: Global, text: &Text, n: i64) -> Result<Value, Memory>
    ensures { IfOk result (λ value. value ≡ left_part text.now n) }
{
    match amount_of(n) {
        Some(count) => text_value(alloc, first_characters(text.as_str(), count)),
        None => Ok(Value::Error(ErrorKind::Value)),
    }
}

/// RIGHT.
pub(crate) fn right(alloc: Global, args: &[Arg]) -> Result<Value, Memory>
    ensures { IfOk result (λ value. value ≡ right_of args.now) }
{
    match (text_at(alloc, args, 0)?, number_or(args, 1, 1)) {
        (Err(kind), _) => Ok(Value::Error(kind)),
        (Ok(_), Err(kind)) => Ok(Value::Error(kind)),
        (Ok(text), Ok(n)) => right_part(alloc, &text, n),
    }
}

/// As many characters from the end of a text.
fn right_part(alloc: Global, text: &Text, n: i64) -> Result<Value, Memory>
    ensures { IfOk result (λ value. value ≡ right_part text.now n) }
{
    match amount_of(n) {
        Some(count) => text_value(alloc, last_characters(text.as_str(), count)),
        None => Ok(Value::Error(ErrorKind::Value)),
    }
}

/// MID.
pub(crate) fn mid(alloc: Global, args: &[Arg]) -> Result<Value, Memory>
    ensures { IfOk result (λ value. value ≡ mid_of args.now) }
{
    match (
        text_at(alloc, args, 0)?,
        number_at(args, 1),
        number_at(args, 2),
    ) {
        (Err(kind), _, _) => Ok(Value::Error(kind)),
        (Ok(_), Err(kind), _) => Ok(Value::Error(kind)),
        (Ok(_), Ok(_), Err(kind)) => Ok(Value::Error(kind)),
        (Ok(text), Ok(place), Ok(n)) => mid_part(alloc, &text, place, n),
    }
}

/// As many characters from a place in a text on.
fn mid_part(alloc: Global, text: &Text, place: i64, n: i64) -> Result<Value, Memory>
    ensures { IfOk result (λ value. value ≡ mid_part text.now place n) }
{
    match (before_place(place), amount_of(n)) {
        (Some(before), Some(count)) => {
            let rest = without_first(text.as_str(), before);
            text_value(alloc, first_characters(rest, count))
        }
        _ => Ok(Value::Error(ErrorKind::Value)),
    }
}
