//! The functions that compare, join, search and read texts.
ghost use Rattle.std.specs.Prelude.{◌≡◌, ◌≤◌, IfOk, IfSome, MatchResult, false, nat_eq};
ghost use Rattle.std.specs.Char.{is_ascii_control};
ghost use Rattle.std.specs.List.{list_any, starts_with};
ghost use Rattle.std.specs.String.{string_bytes};
ghost use Rattle.cell_values.specs.Coercion.{text_of};
ghost use Rattle.functions.specs.Inputs.{value_of};
ghost use Rattle.functions.specs.Texts.{all_texts, concatenate_of, exact_of, offset_of, find_place, find_of, value_function_of};

use super::arguments::{Arg, number_at, number_or, text_at};
use super::text_answers::text_value;
use super::text_parts::{before_place, count_characters, without_first};
use cell_values::{ErrorKind, LONGEST_TEXT, Memory, Text, Value, to_text};
use std::alloc::Global;

/// CONCATENATE.
pub(crate) fn concatenate(alloc: Global, args: &[Arg]) -> Result<Value, Memory>
    ensures { IfOk result (λ value. value ≡ concatenate_of args.now) }
{
    match joined(alloc, args)? {
        Ok(all) => text_value(alloc, all.as_str()),
        Err(kind) => Ok(Value::Error(kind)),
    }
}

/// The texts of all arguments in order, or the first error.
fn joined(alloc: Global, args: &[Arg]) -> Result<Result<String, ErrorKind>, Memory>
    ensures texts { IfOk result (λ all. MatchResult all (λ s. all_texts args.now
        ≡ Ok (string_bytes s)) (λ kind. all_texts args.now ≡ Err kind)) }
    ensures plain { IfOk result (λ all. IfOk all (λ s. list_any is_ascii_control (string_bytes s)
        ≡ false)) }
{
    let mut all = String::new(alloc);
    for arg in args {
        let text = match text_of(alloc, arg)? {
            Ok(text) => text,
            Err(kind) => return Ok(Err(kind)),
        };
        all.push_str(text.as_str())?;
    }
    Ok(Ok(all))
}

/// The text that an argument counts as.
fn text_of(alloc: Global, arg: &Arg) -> Result<Result<Text, ErrorKind>, Memory>
    ensures { IfOk result (λ text. text ≡ text_of (value_of arg.now)) }
{
    match arg {
        Arg::Direct(value) => to_text(alloc, value),
        Arg::Cells { .. } => Ok(Err(ErrorKind::Value)),
    }
}

/// EXACT.
pub(crate) fn exact(alloc: Global, args: &[Arg]) -> Result<Value, Memory>
    ensures { IfOk result (λ value. value ≡ exact_of args.now) }
{
    match (text_at(alloc, args, 0)?, text_at(alloc, args, 1)?) {
        (Err(kind), _) => Ok(Value::Error(kind)),
        (Ok(_), Err(kind)) => Ok(Value::Error(kind)),
        (Ok(s), Ok(t)) => Ok(Value::Bool(s == t)),
    }
}

/// FIND.
pub(crate) fn find(alloc: Global, args: &[Arg]) -> Result<Value, Memory>
    ensures { IfOk result (λ value. value ≡ find_of args.now) }
{
    match (
        text_at(alloc, args, 0)?,
        text_at(alloc, args, 1)?,
        number_or(args, 2, 1),
    ) {
        (Err(kind), _, _) => Ok(Value::Error(kind)),
        (Ok(_), Err(kind), _) => Ok(Value::Error(kind)),
        (Ok(_), Ok(_), Err(kind)) => Ok(Value::Error(kind)),
        (Ok(pattern), Ok(text), Ok(place)) => Ok(find_place(&pattern, &text, place)),
    }
}

/// The least place, and not under another, at which a text stands in another.
fn find_place(pattern: &Text, text: &Text, place: i64) -> Value
    ensures { result ≡ find_place pattern.now text.now place }
{
    let Some(least) = before_place(place) else {
        return Value::Error(ErrorKind::Value);
    };
    match found_behind(pattern, text, least) {
        Some(before) => Value::Num(before as i64 + 1),
        None => Value::Error(ErrorKind::Value),
    }
}

/// The least number of characters, and not under another, behind which a text stands in another.
fn found_behind(pattern: &Text, text: &Text, least: usize) -> Option<usize>
    ensures found { result ≡ offset_of pattern.now text.now least }
    ensures bound { IfSome result (λ before. before ≤ LONGEST_TEXT) }
{
    let mut rest = without_first(text.as_str(), least).chars();
    for before in least..count_characters(text.as_str()) + 1 {
        if begins_with(rest.as_str(), pattern.as_str()) {
            return Some(before);
        }
        let Some(_character) = rest.next() else {
            return None;
        };
    }
    None
}

/// Whether a text begins with another.
#[tactic(auto, using(std::proofs::lemmas::Str::Pattern::starts_text))]
fn begins_with(text: &str, front: &str) -> bool
    ensures { result ≡ starts_with nat_eq text.now front.now }
{
    text.starts_with(front)
}

/// VALUE.
pub(crate) fn value(args: &[Arg]) -> Value
    ensures { result ≡ value_function_of args.now }
{
    match (args.first(), number_at(args, 0)) {
        (Some(Arg::Direct(Value::Bool(_))), _) => Value::Error(ErrorKind::Value),
        (_, Ok(n)) => Value::Num(n),
        (_, Err(kind)) => Value::Error(kind),
    }
}
