//! Reads the strings of a topic.

ghost use Rattle.std.specs.Prelude.{◌≡◌, ◌⊎◌, ◌<◌, ◌≤◌, nat_le, length, slice_index, Err, IfOk, IfErr, false};
ghost use Rattle.std.specs.Str.{chars};
ghost use Rattle.session_script.specs.Strings.{before_cut, behind_cut, cut_place, is_cut, string_said, strings_said, strings_within, turned_by};

use super::faults::BadLine;
use super::limits::{LONGEST_STRING, MOST_STRINGS};
use cell_values::{Text, Texts, Value, ValueFault, read_value};
use std::alloc::Global;

/// What stands before the first separator outside of quotes, and what stands behind it.
pub fn cut_outside(separator: u8, text: &str) -> (&str, &str)
    requires { separator < 128 }
    ensures front { result.0.now ≡ before_cut separator text.now }
    ensures back { result.1.now ≡ behind_cut separator text.now }
{
    let place = cut_place(separator, text.as_bytes());
    if place < text.len() {
        (&text[..place], &text[place + 1..])
    } else {
        (text, "")
    }
}

/// The first place of a separator outside of quotes, or the length where there is none.
fn cut_place(separator: u8, text: &[u8]) -> usize
    ensures place { result ≡ cut_place separator false text.now }
    ensures within { result ≤ length text.now }
    ensures found { result < length text.now → slice_index text.now result ≡ separator }
{
    let mut inside = false;
    for (place, byte) in text.iter().enumerate() {
        if *byte == separator && !inside {
            return place;
        }
        inside = turned_by(*byte, inside);
    }
    text.len()
}

/// Whether a byte stands inside quotes, behind this one.
fn turned_by(byte: u8, inside: bool) -> bool
    ensures { result ≡ turned_by byte inside }
{
    if byte == b'"' { !inside } else { inside }
}

/// The strings of a topic.
pub fn read_strings(alloc: Global, text: &str) -> Result<Texts, BadLine>
    ensures said { IfOk result (λ strings. strings_said text.now ≡ Ok strings) }
    ensures fault { IfErr result (λ fault. (fault ≡ BadLine.Memory)
        ⊎ (strings_said text.now ≡ Err fault)) }
{
    let strings = strings_within(alloc, MOST_STRINGS, text)?;
    match Texts::new(strings) {
        Ok(strings) => Ok(strings),
        Err(_) => Err(BadLine::Memory),
    }
}

/// At most so many strings, with a comma between two. The calls are nested as deep as the strings are many.
#[tactic(auto, using(crate::proofs::StringLists::strings_step), unfolding(crate::specs::Strings::strings_within))]
fn strings_within(alloc: Global, most: usize, text: &str) -> Result<Vec<Text>, BadLine>
    ensures said { IfOk result (λ strings. strings_within most text.now ≡ Ok strings.items) }
    ensures fault { IfErr result (λ fault. (fault ≡ BadLine.Memory)
        ⊎ (strings_within most text.now ≡ Err fault)) }
{
    if most == 0 {
        return Err(BadLine::Value);
    }
    let (word, rest) = cut_outside(b',', text);
    let string = read_string(alloc, word)?;
    let mut strings = if is_cut(b',', text) {
        strings_within(alloc, most - 1, rest)?
    } else {
        Vec::new(alloc)
    };
    match strings.insert(0, string) {
        Ok(()) => Ok(strings),
        Err(_) => Err(BadLine::Memory),
    }
}

/// Whether a separator stands outside of quotes.
fn is_cut(separator: u8, text: &str) -> bool
    ensures { result ≡ is_cut separator text.now }
{
    cut_place(separator, text.as_bytes()) < text.len()
}

/// A string of a topic.
fn read_string(alloc: Global, word: &str) -> Result<Text, BadLine>
    ensures said { IfOk result (λ string. string_said word.now ≡ Ok string) }
    ensures fault { IfErr result (λ fault. (fault ≡ BadLine.Memory)
        ⊎ (string_said word.now ≡ Err fault)) }
{
    match read_value(alloc, word) {
        Ok(Value::Text(text)) if is_short(&text) => Ok(text),
        Ok(_) => Err(BadLine::Value),
        Err(ValueFault::Memory) => Err(BadLine::Memory),
        Err(ValueFault::Form) => Err(BadLine::Value),
    }
}

/// Whether a text has no more characters than a string may have.
fn is_short(text: &Text) -> bool
    ensures { result ≡ nat_le (length (chars text.now)) LONGEST_STRING }
{
    count_characters(text.as_str()) <= LONGEST_STRING
}

/// The number of characters.
fn count_characters(text: &str) -> usize
    ensures { result ≡ length (chars text.now) }
{
    text.chars().count()
}
