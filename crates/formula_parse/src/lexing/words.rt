ghost use Rattle.std.specs.Prelude.{◌≡◌, ℕ, ◌≤◌, Bool, ◌+◌, length, take, drop, ◌⊎◌, take_while, if◌then◌else◌, Some, None, IfOk};
ghost use Rattle.std.specs.List.{find};
ghost use Rattle.std.specs.Str.{bytes_eq};
ghost use Rattle.cell_refs.specs.Written.{reference_at, capitals};
ghost use Rattle.cell_values.specs.Error.{error_word};
ghost use Rattle.cell_values.specs.Name.{is_name, is_name_byte};
ghost use Rattle.formula_parse.specs.Callees.{callee_named};
ghost use Rattle.formula_parse.specs.Lexing.{error_at, word_at, word_found, reference_found, area_behind, all_errors, begins_with, common_len, passes_at};
ghost use Rattle.formula_parse.specs.Tokens.{is_word_byte};

use super::super::callees::Callee;
use super::super::faults::ParseFault;
use super::super::tokens::Token;
use super::{Found, stands_at};
use cell_refs::{RefText, read_ref};
use cell_values::ErrorKind;
use std::alloc::{AllocError, Global};

/// The greatest length of a name.
pub(super) const NAME: usize = 255;

/// The error word that a text begins with.
pub(super) fn error(text: &[u8]) -> Found
    ensures { result ≡ error_at text.now }
{
    let kind = error_kind(text)?;
    Some((Token::Error(kind), kind.word().len()))
}

/// The error value whose word a text begins with.
fn error_kind(text: &[u8]) -> Option<ErrorKind>
    ensures { result ≡ find (λ e. begins_with (error_word e) text.now) all_errors }
{
    let kinds = [
        ErrorKind::Null,
        ErrorKind::Div0,
        ErrorKind::Value,
        ErrorKind::Ref,
        ErrorKind::Name,
        ErrorKind::Num,
        ErrorKind::Na,
    ];
    kinds
        .iter()
        .copied()
        .find(|kind| begins_with(kind.word().as_bytes(), text))
}

/// Whether the text begins with a word in upper case, in any case.
pub(super) fn begins_with(word: &[u8], text: &[u8]) -> bool
    ensures { result ≡ begins_with word.now text.now }
{
    common_len(word, text) == word.len()
}

/// Whether the text is a word in upper case, in any case.
fn is_word(text: &[u8], word: &[u8]) -> bool
    ensures { result ≡ bytes_eq (capitals text.now) word.now }
{
    text.len() == word.len() && begins_with(word, text)
}

/// The length of the longest common prefix of a word in upper case and a text, in any case.
pub(super) fn common_len(word: &[u8], text: &[u8]) -> usize
    ensures value { result ≡ common_len word.now (capitals text.now) }
    ensures within { result ≤ length text.now }
{
    let most = word.len().min(text.len());
    for place in 0..most {
        if word[place] != text[place].to_ascii_uppercase() {
            return place;
        }
    }
    most
}

/// The token that begins with a letter or a `$`.
pub(super) fn word(alloc: Global, text: &[u8]) -> Result<Found, ParseFault>
    ensures { (result ≡ Err ParseFault.Memory) ⊎ (result ≡ Ok (word_at text.now)) }
{
    let len = word_len(text);
    let word = &text[..len];
    if stands_at(text, len, b'(') {
        if let Some(callee) = callee(alloc, word)? {
            return Ok(Some((Token::Call(callee), len + 1)));
        }
    }
    if is_word(word, b"TRUE") {
        Ok(Some((Token::Boolean(true), 4)))
    } else if is_word(word, b"FALSE") {
        Ok(Some((Token::Boolean(false), 5)))
    } else {
        Ok(reference(text))
    }
}

/// How many letters, digits, `.` and `_` a text begins with.
pub(super) fn word_len(text: &[u8]) -> usize
    ensures { result ≡ length (take_while is_name_byte text.now) }
{
    text.iter().take_while(|byte| is_name_byte(**byte)).count()
}

fn is_name_byte(byte: u8) -> bool
    ensures { result ≡ is_name_byte byte }
{
    byte.is_ascii_alphanumeric() || byte == b'.' || byte == b'_'
}

/// The callee that bytes name, in any case; None where they are no name.
fn callee(alloc: Global, word: &[u8]) -> Result<Option<Callee>, AllocError>
    ensures { IfOk result (λ callee. callee ≡ (if is_name word.now
        then Some (callee_named (capitals word.now)) else None)) }
{
    if NAME < word.len() {
        return Ok(None);
    }
    let mut letters = [0; NAME];
    let upper = &mut letters[..word.len()];
    upper.copy_from_slice(word);
    upper.make_ascii_uppercase();
    match std::str::from_utf8(upper) {
        Ok(name) => Callee::named(alloc, name),
        Err(_) => Ok(None),
    }
}

/// The reference or the area that a text begins with.
fn reference(text: &[u8]) -> Found
    ensures { result ≡ reference_found text.now (reference_at text.now) }
{
    let (first, len) = read_ref(text)?;
    if stands_at(text, len, b':') {
        area(text, first, len)
    } else if is_word_byte_at(text, len) {
        None
    } else {
        Some((Token::Reference(first), len))
    }
}

/// The area whose first corner has this length.
fn area(text: &[u8], first: RefText, len: usize) -> Found
    requires { len + 1 ≤ length text.now }
    ensures { result ≡ area_behind text.now first len (reference_at (drop (len + 1) text.now)) }
{
    let (second, second_len) = read_ref(&text[len + 1..])?;
    let end = len + 1 + second_len;
    if second.sheet.is_none() && !is_word_byte_at(text, end) {
        Some((Token::Area(first, second), end))
    } else {
        None
    }
}

/// Whether a byte at this place goes on with a name or makes it a call.
fn is_word_byte_at(text: &[u8], place: usize) -> bool
    ensures { result ≡ passes_at is_word_byte text.now place }
{
    match text.get(place) {
        Some(byte) => is_name_byte(*byte) || *byte == b'(',
        None => false,
    }
}
