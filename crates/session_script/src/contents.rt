//! Reads the contents of cells.

ghost use Rattle.std.specs.Prelude.{◌≡◌, ◌≢◌, ◌⊎◌, Err, IfOk, IfErr};
ghost use Rattle.session_script.specs.Contents.{constant_said, content_said, formula_said, text_said, truth_said};

use super::faults::BadLine;
use cell_values::{Text, TextFault, has_number_form, read_digits, read_error_word};
use formula_parse::{ParseFault, parse};
use std::alloc::Global;
use std::str;
use workbook::Content;

/// The content that a text says.
pub fn read_content(alloc: Global, text: &str) -> Result<Content, BadLine>
    ensures said { IfOk result (λ content. content_said text.now ≡ Ok content) }
    ensures fault { IfErr result (λ fault. (fault ≡ BadLine.Memory)
        ⊎ (content_said text.now ≡ Err fault)) }
{
    match text.as_bytes() {
        [] => Err(BadLine::Value),
        [b'=', ..] => read_formula(alloc, text),
        [b'\'', bytes @ ..] => read_text(alloc, bytes),
        [_, ..] => read_constant(alloc, text),
    }
}

/// The formula that a text is.
fn read_formula(alloc: Global, text: &str) -> Result<Content, BadLine>
    ensures said { IfOk result (λ content. formula_said text.now ≡ Ok content) }
    ensures fault { IfErr result (λ fault. (fault ≡ BadLine.Memory)
        ⊎ (formula_said text.now ≡ Err fault)) }
{
    match parse(alloc, text) {
        Ok(tree) => Ok(Content::Formula(tree)),
        Err(ParseFault::Memory) => Err(BadLine::Memory),
        Err(fault) => Err(BadLine::Formula(fault)),
    }
}

/// The text of these bytes.
fn read_text(alloc: Global, bytes: &[u8]) -> Result<Content, BadLine>
    ensures said { IfOk result (λ content. text_said bytes.now ≡ Ok content) }
    ensures fault { IfErr result (λ fault. (fault ≡ BadLine.Memory)
        ⊎ (text_said bytes.now ≡ Err fault)) }
{
    let Ok(text) = str::from_utf8(bytes) else {
        return Err(BadLine::Value);
    };
    match Text::new(alloc, text) {
        Ok(text) => Ok(Content::Text(text)),
        Err(TextFault::Memory) => Err(BadLine::Memory),
        Err(TextFault::TooLong) => Err(BadLine::Value),
        Err(TextFault::Control(_)) => Err(BadLine::Value),
    }
}

/// The constant that a word says.
fn read_constant(alloc: Global, word: &str) -> Result<Content, BadLine>
    ensures said { IfOk result (λ content. constant_said word.now ≡ Ok content) }
    ensures fault { IfErr result (λ fault. (fault ≡ BadLine.Memory)
        ⊎ (constant_said word.now ≡ Err fault)) }
{
    if has_number_form(word.as_bytes()) {
        return match read_digits(word.as_bytes()) {
            Some(n) => Ok(Content::Num(n)),
            None => Err(BadLine::Value),
        };
    }
    if let Some(b) = truth_of(word) {
        return Ok(Content::Bool(b));
    }
    if let Some(kind) = read_error_word(word) {
        return Ok(Content::Error(kind));
    }
    read_text(alloc, word.as_bytes())
}

/// `TRUE` or `FALSE`, in any case.
fn truth_of(word: &str) -> Option<bool>
    ensures { result ≡ truth_said word.now }
{
    if word.eq_ignore_ascii_case("true") {
        Some(true)
    } else if word.eq_ignore_ascii_case("false") {
        Some(false)
    } else {
        None
    }
}
