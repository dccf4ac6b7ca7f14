ghost use Rattle.std.specs.Prelude.{◌≡◌, ◌≤◌, length, option_map, IfOk, ◌⊎◌};
ghost use Rattle.std.specs.String.{string_bytes};
ghost use Rattle.formula_parse.specs.Lexing.{text_behind, content_at};

use super::super::faults::ParseFault;
use super::super::tokens::Token;
use super::Found;
use cell_values::{Text, TextFault};
use std::alloc::{AllocError, Global};

/// The text behind its first `"`.
pub(super) fn text_behind(alloc: Global, rest: &str) -> Result<Found, ParseFault>
    requires { length rest.now ≤ 32768 }
    ensures { (result ≡ Err ParseFault.Memory) ⊎ (result ≡ Ok (text_behind rest.now)) }
{
    let Some((content, len)) = content(alloc, rest)? else {
        return Ok(None);
    };
    match Text::new(alloc, content.as_str()) {
        Ok(text) => Ok(Some((Token::Text(text), len + 1))),
        Err(TextFault::Memory) => Err(ParseFault::Memory),
        Err(TextFault::TooLong) => Ok(None),
        Err(TextFault::Control(_)) => Ok(None),
    }
}

/// The content up to the closing `"`, each doubled one made one, and the length up to behind it.
fn content(alloc: Global, text: &str) -> Result<Option<(String, usize)>, AllocError>
    ensures { IfOk result (λ found. option_map (λ x. (string_bytes x.0, x.1)) found
        ≡ content_at text.now) }
{
    let mut content = String::new(alloc);
    let mut rest = text;
    while let Some((before, after)) = rest.split_once('"') {
        content.push_str(before)?;
        match after.strip_prefix('"') {
            Some(next) => {
                content.push('"')?;
                rest = next;
            }
            None => return Ok(Some((content, text.len() - after.len()))),
        }
    }
    Ok(None)
}
