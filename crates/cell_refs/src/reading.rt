ghost use Rattle.std.specs.Prelude.{◌≡◌, ℕ, ◌≤◌, ◌<◌, ◌-◌, ◌^◌, length, option_map, IfSome, IfNone, SomeIff, IsTrue, codes, take_while, slice_index};
ghost use Rattle.std.specs.Str.{all_ascii_digits};
ghost use Rattle.std.specs.Str.Parse.{digits_value};
ghost use Rattle.std.specs.Char.{is_ascii_digit, is_ascii_alphabetic, to_ascii_uppercase};
ghost use Rattle.cell_refs.specs.declared.references.RefText.{RefText};
ghost use Rattle.cell_refs.specs.Reading.{number_at, mark_at, column_at, column_number, rest_after, sheet_number_at, sheet_at, reference_in};
ghost use Rattle.cell_refs.specs.Written.{capitals, reference_at, StandsAt};

use super::grid::{COLUMNS, ROWS, SHEETS};
use super::references::RefText;

/// The reference at the front of a text and its length, the digits of its row taken to their end.
pub fn read_ref(text: &[u8]) -> Option<(RefText, usize)>
    // It is spelled so, and lies inside the grid.
    ensures found { IfSome result (λ x. StandsAt text.now x.0 x.1) }
    ensures length { IfSome result (λ x. (0 < x.1) × (x.1 ≤ length text.now)) }
    // None exactly where no reference inside the grid stands at the front.
    ensures none { IfNone result ((r : RefText) (n : ℕ) → StandsAt text.now r n → ⊥) }
    // The one answer that the two clauses above leave.
    ensures exact { result ≡ reference_at text.now }
{
    let (reference, rest) = reference_of(text)?;
    Some((reference, text.len() - rest.len()))
}

#[tactic(auto, unfolding(crate::specs::Reading::reference_in))]
fn reference_of(text: &[u8]) -> Option<(RefText, &[u8])>
    ensures value { option_map (λ x. (x.0, capitals x.1.now)) result
        ≡ reference_in (capitals text.now) }
    ensures shorter { IfSome result (λ x. length x.1.now ≤ length text.now) }
{
    let (sheet, rest) = sheet_of(text)?;
    let (col_fixed, rest) = mark_of(rest);
    let (col, rest) = column_of(rest)?;
    let (row_fixed, rest) = mark_of(rest);
    let (row, rest) = number_of(rest, u64::from(ROWS))?;
    let reference = RefText {
        sheet,
        row: row as u32,
        col,
        row_fixed,
        col_fixed,
    };
    Some((reference, rest))
}

/// The sheet that is written at the front.
#[tactic(auto, unfolding(crate::specs::Reading::sheet_at))]
fn sheet_of(text: &[u8]) -> Option<(Option<u8>, &[u8])>
    ensures value { option_map (λ x. (x.0, capitals x.1.now)) result
        ≡ sheet_at (capitals text.now) }
    ensures shorter { IfSome result (λ x. length x.1.now ≤ length text.now) }
{
    match after_sheet(text) {
        Some(rest) => sheet_number_of(rest),
        None => Some((None, text)),
    }
}

/// The number of a sheet, and a `!` behind it.
#[tactic(auto, unfolding(crate::specs::Reading::sheet_number_at))]
fn sheet_number_of(text: &[u8]) -> Option<(Option<u8>, &[u8])>
    ensures value { option_map (λ x. (x.0, capitals x.1.now)) result
        ≡ sheet_number_at (capitals text.now) }
    ensures shorter { IfSome result (λ x. length x.1.now ≤ length text.now) }
{
    let (sheet, rest) = number_of(text, u64::from(SHEETS))?;
    match rest {
        [b'!', rest @ ..] => Some((Some(sheet as u8), rest)),
        _ => None,
    }
}

/// What follows the word `Sheet` in any case.
fn after_sheet(text: &[u8]) -> Option<&[u8]>
    ensures value { option_map (λ x. capitals x.now) result
        ≡ rest_after (codes "SHEET") (capitals text.now) }
    ensures shorter { IfSome result (λ x. length x.now ≤ length text.now) }
{
    match text.split_at_checked(5) {
        Some((word, rest)) if word.eq_ignore_ascii_case(b"Sheet") => Some(rest),
        _ => None,
    }
}

/// Whether a `$` stands at the front, and what follows it.
#[tactic(auto, unfolding(crate::specs::Reading::mark_at))]
fn mark_of(text: &[u8]) -> (bool, &[u8])
    ensures value { (result.0, capitals result.1.now) ≡ mark_at (capitals text.now) }
    ensures shorter { length result.1.now ≤ length text.now }
{
    match text {
        [b'$', rest @ ..] => (true, rest),
        _ => (false, text),
    }
}

/// The column that the letters at the front name.
fn column_of(text: &[u8]) -> Option<(u16, &[u8])>
    ensures value { option_map (λ x. (x.0, capitals x.1.now)) result
        ≡ column_at (capitals text.now) }
    ensures shorter { IfSome result (λ x. length x.1.now ≤ length text.now) }
{
    let (letters, rest) = text.split_at(letters_len(text));
    let column = column_value(letters)?;
    if column <= u32::from(COLUMNS) {
        Some((column as u16, rest))
    } else {
        None
    }
}

/// The column that one to three letters name.
#[tactic(auto, unfolding(crate::specs::Reading::column_number))]
fn column_value(letters: &[u8]) -> Option<u32>
    ensures { SomeIff result ((0 < length letters.now)
        × (length letters.now ≤ 3)) (column_number (capitals letters.now)) }
{
    match letters {
        [a] => Some(letter_number(*a)),
        [a, b] => Some(26 * letter_number(*a) + letter_number(*b)),
        [a, b, c] => Some(676 * letter_number(*a) + 26 * letter_number(*b) + letter_number(*c)),
        _ => None,
    }
}

/// How many letters stand at the front.
fn letters_len(text: &[u8]) -> usize
    ensures { result ≡ length (take_while is_ascii_alphabetic text.now) }
{
    text.iter()
        .take_while(|byte| byte.is_ascii_alphabetic())
        .count()
}

/// The place of a letter in the alphabet, in any case.
fn letter_number(letter: u8) -> u32
    ensures value { result ≡ to_ascii_uppercase letter - 64 }
    ensures small { result ≤ 191 }
{
    u32::from(letter.to_ascii_uppercase().saturating_sub(64))
}

/// The number at the front, from 1 to the limit, its digits taken to their end.
pub(crate) fn number_of(text: &[u8], limit: u64) -> Option<(u64, &[u8])>
    ensures value { option_map (λ x. (x.0, capitals x.1.now)) result
        ≡ number_at limit (capitals text.now) }
    ensures shorter { IfSome result (λ x. length x.1.now ≤ length text.now) }
    ensures within { IfSome result (λ x. x.0 ≤ limit) }
{
    let (digits, rest) = text.split_at(digits_len(text));
    let number = value_of(digits)?;
    if number <= limit {
        Some((number, rest))
    } else {
        None
    }
}

/// How many digits stand at the front.
pub(crate) fn digits_len(text: &[u8]) -> usize
    ensures { result ≡ length (take_while is_ascii_digit text.now) }
{
    text.iter().take_while(|byte| byte.is_ascii_digit()).count()
}

/// The number that digits without a leading zero stand for, where a `u64` holds it.
fn value_of(digits: &[u8]) -> Option<u64>
    requires { IsTrue (all_ascii_digits digits.now) }
    ensures { SomeIff result ((48 < slice_index digits.now 0)
        × (digits_value 10 digits.now < 2 ^ 64)) (digits_value 10 digits.now) }
{
    match digits {
        [] | [b'0', ..] => None,
        _ => parse_digits(digits),
    }
}

/// The number that digits stand for, where a `u64` holds it.
pub(crate) fn parse_digits(digits: &[u8]) -> Option<u64>
    requires digits { IsTrue (all_ascii_digits digits.now) }
    requires some { 0 < length digits.now }
    ensures { SomeIff result (digits_value 10 digits.now < 2 ^ 64) (digits_value 10 digits.now) }
{
    let text = std::str::from_utf8(digits).ok()?;
    text.parse().ok()
}
