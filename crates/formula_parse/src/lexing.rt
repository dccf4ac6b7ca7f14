//! The token that a text begins with.

mod begun;
mod marks;
mod quotes;
mod words;

ghost use Rattle.std.specs.Prelude.{◌≡◌, ◌==◌, ◌≤◌, ℕ, min, length, drop, take_while, Some, IsTrue, ◌⊎◌};
ghost use Rattle.std.specs.Char.{is_ascii_digit};
ghost use Rattle.std.specs.Str.{all_ascii_digits};
ghost use Rattle.std.specs.Str.Parse.{digits_value};
ghost use Rattle.formula_parse.specs.Lexing.{token_at, number_at, passes_at};

use super::faults::ParseFault;
use super::tokens::Token;
pub(crate) use begun::begun_len;
use std::alloc::Global;

/// The least number over the limit of numbers.
const TOO_LARGE: u64 = 1_000_000_000_000_000;

/// A token and its length in bytes, where one stands there.
pub(crate) type Found = Option<(Token, usize)>;

/// The token at a place of the text; None where none stands there whole.
#[tactic(auto, unfolding(crate::specs::Lexing::token_at))]
pub(crate) fn token_at(alloc: Global, text: &str, place: usize) -> Result<Found, ParseFault>
    requires within { place ≤ length text.now }
    requires short { length text.now ≤ 32768 }
    ensures { (result ≡ Err ParseFault.Memory) ⊎ (result ≡ Ok (token_at (drop place text.now))) }
{
    let rest = &text.as_bytes()[place..];
    match rest.first() {
        None => Ok(None),
        Some(byte) if byte.is_ascii_digit() => Ok(Some(number(rest))),
        Some(b'"') => quotes::text_behind(alloc, &text[place + 1..]),
        Some(b'#') => Ok(words::error(rest)),
        Some(byte) if byte.is_ascii_alphabetic() || *byte == b'$' => words::word(alloc, rest),
        Some(byte) => Ok(marks::mark(*byte, &rest[1..])),
    }
}

/// The digits that a text begins with, to their end.
fn number(text: &[u8]) -> (Token, usize)
    ensures { Some result ≡ number_at text.now }
{
    let len = digits_len(text);
    (Token::Number(value(&text[..len]) as i64), len)
}

/// How many digits a text begins with.
fn digits_len(text: &[u8]) -> usize
    ensures { result ≡ length (take_while is_ascii_digit text.now) }
{
    text.iter().take_while(|byte| byte.is_ascii_digit()).count()
}

/// The number that digits write, or the least one over the limit.
fn value(digits: &[u8]) -> u64
    requires { IsTrue (all_ascii_digits digits.now) }
    ensures value { result ≡ min (digits_value 10 digits.now) 1000000000000000 }
    ensures small { result ≤ 1000000000000000 }
{
    let mut number = 0;
    for byte in digits {
        number = (10 * number + u64::from(byte - b'0')).min(TOO_LARGE);
    }
    number
}

/// Whether this byte stands at a place.
pub(crate) fn stands_at(text: &[u8], place: usize, byte: u8) -> bool
    ensures { result ≡ passes_at (λ b. b == byte) text.now place }
{
    text.get(place) == Some(&byte)
}
