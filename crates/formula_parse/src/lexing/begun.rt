ghost use Rattle.std.specs.Prelude.{◌≡◌, ◌≤◌, ◌+◌, ◌&&◌, ℕ, nat_lt, nat_le, slice_index, length, drop, IsTrue};
ghost use Rattle.std.specs.Char.{is_ascii_control};
ghost use Rattle.std.specs.List.{position_or_len};
ghost use Rattle.std.specs.Str.{all_ascii_digits};
ghost use Rattle.std.specs.Str.Parse.{digits_value};
ghost use Rattle.cell_refs.specs.Written.{reference_at, capitals};
ghost use Rattle.cell_refs.specs.Reading.{sheet_at};
ghost use Rattle.formula_parse.specs.Lexing.{begun_len, error_begun, word_begun, name_begun, column_begun, row_begun, mark_len, plain_begun, corner_begun, reference_begun, sheet_len, common_len};

use super::words::{NAME, begins_with, common_len, word_len};
use super::{digits_len, stands_at, value};
use cell_refs::read_ref;
use cell_values::ErrorKind;

/// The last column and the last row of the grid.
const COLUMNS: u64 = 16_384;

const ROWS: u64 = 1_048_576;
/// The number of sheets.
const SHEETS: u64 = 64;

/// The length of the prefix with which some operand begins, where none stands there whole.
#[tactic(auto, unfolding(crate::specs::Lexing::begun_len))]
pub(crate) fn begun_len(text: &[u8]) -> usize
    ensures value { result ≡ begun_len text.now }
    ensures within { result ≤ length text.now }
{
    match text.first() {
        Some(b'"') => 1 + content_len(&text[1..]),
        Some(b'#') => error_begun(text),
        Some(byte) if byte.is_ascii_alphabetic() || *byte == b'$' => word_begun(text),
        _ => 0,
    }
}

/// How many bytes stand before the first control character, or in all.
fn content_len(text: &[u8]) -> usize
    ensures value { result ≡ position_or_len is_ascii_control text.now }
    ensures within { result ≤ length text.now }
{
    text.iter()
        .take_while(|byte| !byte.is_ascii_control())
        .count()
}

/// How much of the text an error word begins with.
fn error_begun(text: &[u8]) -> usize
    ensures value { result ≡ error_begun text.now }
    ensures within { result ≤ length text.now }
{
    let kinds = [
        ErrorKind::Null,
        ErrorKind::Div0,
        ErrorKind::Value,
        ErrorKind::Ref,
        ErrorKind::Name,
        ErrorKind::Num,
        ErrorKind::Na,
    ];
    let mut begun = 0;
    for kind in kinds {
        begun = begun.max(common_len(kind.word().as_bytes(), text));
    }
    begun
}

/// How much of the text a call, a boolean, a reference or an area begins with.
fn word_begun(text: &[u8]) -> usize
    ensures value { result ≡ word_begun text.now }
    ensures within { result ≤ length text.now }
{
    name_begun(text)
        .max(reference_begun(text))
        .max(corner_begun(text))
}

fn name_begun(text: &[u8]) -> usize
    ensures value { result ≡ name_begun text.now }
    ensures within { result ≤ length text.now }
{
    match text.first() {
        Some(byte) if byte.is_ascii_alphabetic() => word_len(text).min(NAME),
        _ => 0,
    }
}

fn reference_begun(text: &[u8]) -> usize
    ensures value { result ≡ reference_begun text.now }
    ensures within { result ≤ length text.now }
{
    let sheet = sheet_len(text);
    sheet + plain_begun(&text[sheet..])
}

/// The length of the sheet part that a text begins with, 0 where there is none.
fn sheet_len(text: &[u8]) -> usize
    ensures value { result ≡ sheet_len text.now (sheet_at (capitals text.now)) }
    ensures within { result ≤ length text.now }
{
    if !begins_with(b"SHEET", text) {
        return 0;
    }
    let number = &text[5..];
    let len = digits_len(number);
    if is_sheet(&number[..len]) && stands_at(number, len, b'!') {
        6 + len
    } else {
        0
    }
}

/// Whether digits are the number of a sheet.
fn is_sheet(digits: &[u8]) -> bool
    requires { IsTrue (all_ascii_digits digits.now) }
    ensures { result ≡ (nat_lt 48 (slice_index digits.now 0) && nat_le
        (digits_value 10 digits.now) 64) }
{
    match digits.first() {
        Some(first) => b'0' < *first && value(digits) <= SHEETS,
        None => false,
    }
}

/// How much of the text a reference without a sheet begins with.
fn plain_begun(text: &[u8]) -> usize
    ensures value { result ≡ plain_begun text.now }
    ensures within { result ≤ length text.now }
{
    let first = mark_len(text, 0);
    let letters = column_begun(&text[first..]);
    if letters == 0 {
        return first;
    }
    let column = first + letters;
    let marked = column + mark_len(text, column);
    marked + row_begun(&text[marked..])
}

/// 1 where a `$` stands at the place, else 0.
fn mark_len(text: &[u8], place: usize) -> usize
    ensures value { result ≡ mark_len text.now place }
    ensures within { place ≤ length text.now → place + result ≤ length text.now }
{
    if stands_at(text, place, b'$') { 1 } else { 0 }
}

/// How many letters name a column inside the grid.
fn column_begun(text: &[u8]) -> usize
    ensures value { result ≡ column_begun 0 text.now }
    ensures within { result ≤ length text.now }
{
    let mut column = 0;
    for (len, byte) in text.iter().enumerate() {
        if !byte.is_ascii_alphabetic() {
            return len;
        }
        column = 26 * column + u64::from(byte.to_ascii_uppercase() - b'A' + 1);
        if COLUMNS < column {
            return len;
        }
    }
    text.len()
}

/// How many digits name a row inside the grid.
fn row_begun(text: &[u8]) -> usize
    ensures value { result ≡ row_begun 0 text.now }
    ensures within { result ≤ length text.now }
{
    let mut row = 0;
    for (len, byte) in text.iter().enumerate() {
        if !byte.is_ascii_digit() {
            return len;
        }
        row = 10 * row + u64::from(byte - b'0');
        if row == 0 || ROWS < row {
            return len;
        }
    }
    text.len()
}

/// How much of the text an area begins with, where its first corner stands there.
fn corner_begun(text: &[u8]) -> usize
    ensures value { result ≡ corner_begun text.now (reference_at text.now) }
    ensures within { result ≤ length text.now }
{
    match read_ref(text) {
        Some((_, len)) if stands_at(text, len, b':') => { len + 1 + plain_begun(&text[len + 1..]) }
        _ => 0,
    }
}
