//! What follows a part that stands at the front of a text just as it is written.

ghost use Rattle.std.specs.Prelude.{◌≡◌, ◌==◌, if◌then◌else◌, option_map, Some, None, decimal};
ghost use Rattle.cell_refs.specs.Reading.{rest_after};
ghost use Rattle.cell_refs.specs.Written.{cell_text, column_letters, last_letter, sheet_part, plain_reference};

use super::grid::Cell;
use super::writing::rounds_before;
use itoa::Buffer;

/// What follows a cell's own text.
#[tactic(auto, unfolding(crate::specs::Written::cell_text, crate::specs::Written::reference_text), using(crate::proofs::Following::rest_after_both))]
pub(crate) fn after_cell(cell: Cell, text: &[u8]) -> Option<&[u8]>
    ensures { option_map (λ rest. rest.now) result ≡ rest_after (cell_text cell) text.now }
{
    let rest = after_sheet_part(cell.sheet, text)?;
    let rest = after_column(cell.col, rest)?;
    after_number(u64::from(cell.row), rest)
}

/// What follows the part of a cell's sheet, which the first sheet hasn't.
#[tactic(auto, using(crate::proofs::Following::rest_after_both))]
fn after_sheet_part(sheet: u8, text: &[u8]) -> Option<&[u8]>
    ensures { option_map (λ rest. rest.now) result
        ≡ rest_after (sheet_part (if sheet == 1 then None else Some sheet)) text.now }
{
    if sheet == 1 {
        return Some(text);
    }
    let rest = after_word(b"Sheet", text)?;
    let rest = after_number(u64::from(sheet), rest)?;
    after_word(b"!", rest)
}

/// What follows the letters of a column.
#[tactic(auto, unfolding(crate::specs::Written::column_letters), using(crate::proofs::Following::rest_after_both))]
fn after_column(column: u16, text: &[u8]) -> Option<&[u8]>
    ensures { option_map (λ rest. rest.now) result ≡ rest_after (column_letters column) text.now }
{
    let middle = rounds_before(column);
    let rest = after_letter(rounds_before(middle), text)?;
    let rest = after_letter(middle, rest)?;
    after_letter(column, rest)
}

/// What follows the last letter of a column.
fn after_letter(column: u16, text: &[u8]) -> Option<&[u8]>
    ensures { option_map (λ rest. rest.now) result ≡ rest_after (last_letter column) text.now }
{
    if column == 0 {
        return Some(text);
    }
    match text {
        [letter, rest @ ..] if *letter == b'A' + ((column - 1) % 26) as u8 => Some(rest),
        _ => None,
    }
}

/// What follows a number in decimal digits.
fn after_number(number: u64, text: &[u8]) -> Option<&[u8]>
    ensures { option_map (λ rest. rest.now) result ≡ rest_after (decimal number) text.now }
{
    let mut buffer = Buffer::new();
    after_word(buffer.format(number).as_bytes(), text)
}

/// What follows a word.
pub(crate) fn after_word<'a>(word: &[u8], text: &'a [u8]) -> Option<&'a [u8]>
    ensures { option_map (λ rest. rest.now) result ≡ rest_after word.now text.now }
{
    text.strip_prefix(word)
}
