ghost use Rattle.std.specs.Prelude.{◌≡◌, ◌≤◌, pos, unsigned_abs, IfSome};
ghost use Rattle.std.specs.Char.{is_ascii_digit};
ghost use Rattle.std.specs.List.{list_all};
ghost use Rattle.std.specs.Option.{option_map};
ghost use Rattle.cell_values.specs.Digits.{whole_number, below_zero, are_digits, has_number_form, number_of_digits, signed_number, after_spaces, without_outer_spaces};
ghost use Rattle.cell_values.specs.Word.{number_word};

use super::limits::LARGEST_NUMBER;

/// The number that one or more decimal digits stand for, where it is within the magnitude.
fn whole(digits: &[u8]) -> Option<u64>
    ensures number { result ≡ whole_number digits.now }
    ensures bound { IfSome result (λ n. n ≤ LARGEST_NUMBER) }
{
    if digits.is_empty() {
        return None;
    }
    let mut number = 0;
    for digit in digits {
        if !digit.is_ascii_digit() {
            return None;
        }
        number = number * 10 + u64::from(*digit - b'0');
        if number > LARGEST_NUMBER {
            return None;
        }
    }
    Some(number)
}

/// The number of these digits.
fn positive(digits: &[u8]) -> Option<i64>
    ensures number { result ≡ option_map pos (whole_number digits.now) }
    ensures bound { IfSome result (λ n. unsigned_abs n ≤ LARGEST_NUMBER) }
{
    match whole(digits) {
        Some(n) => Some(n as i64),
        None => None,
    }
}

/// The number below zero whose magnitude has these digits.
fn negative(digits: &[u8]) -> Option<i64>
    ensures number { result ≡ option_map below_zero (whole_number digits.now) }
    ensures bound { IfSome result (λ n. unsigned_abs n ≤ LARGEST_NUMBER) }
{
    match whole(digits) {
        Some(n) => Some(-(n as i64)),
        None => None,
    }
}

/// Whether bytes are one or more decimal digits.
fn are_digits(bytes: &[u8]) -> bool
    ensures { result ≡ are_digits bytes.now }
{
    match bytes {
        [] => false,
        [_, ..] => all_digits(bytes),
    }
}

/// Whether each byte is a decimal digit.
fn all_digits(bytes: &[u8]) -> bool
    ensures { result ≡ list_all is_ascii_digit bytes.now }
{
    bytes.iter().all(|byte| byte.is_ascii_digit())
}

/// Whether bytes have the form of a number: an optional `-` and digits, with leading zeros or without.
pub fn has_number_form(bytes: &[u8]) -> bool
    ensures { result ≡ has_number_form bytes.now }
{
    match bytes {
        [] => false,
        [b'-', digits @ ..] => are_digits(digits),
        digits => are_digits(digits),
    }
}

/// The number of bytes that have the form of a number. None where they have another form, or the number is beyond the
/// magnitude.
pub fn read_digits(bytes: &[u8]) -> Option<i64>
    ensures number { result ≡ number_of_digits bytes.now }
    ensures bound { IfSome result (λ n. unsigned_abs n ≤ LARGEST_NUMBER) }
{
    match bytes {
        [] => None,
        [b'-', digits @ ..] => negative(digits),
        digits => positive(digits),
    }
}

/// The number of digits, or of a sign and digits.
pub fn signed(bytes: &[u8]) -> Option<i64>
    ensures { result ≡ signed_number bytes.now }
{
    match bytes {
        [] => None,
        [b'+', digits @ ..] => positive(digits),
        digits => read_digits(digits),
    }
}

/// What follows the spaces at the start.
pub fn skip_spaces(bytes: &[u8]) -> &[u8]
    ensures { result.now ≡ after_spaces bytes.now }
{
    let mut rest = bytes;
    while let [b' ', tail @ ..] = rest {
        rest = tail;
    }
    rest
}

/// Without the spaces at both ends.
pub fn trim_spaces(bytes: &[u8]) -> &[u8]
    ensures { result.now ≡ without_outer_spaces bytes.now }
{
    let mut rest = skip_spaces(bytes);
    while let [front @ .., b' '] = rest {
        rest = front;
    }
    rest
}

/// The number that a number word says. None where the bytes are no number word.
pub fn read_number_word(text: &[u8]) -> Option<i64>
    ensures number { result ≡ number_word text.now }
    ensures bound { IfSome result (λ n. unsigned_abs n ≤ LARGEST_NUMBER) }
{
    match text {
        [] => None,
        [b'-', b'0', ..] => None,
        [b'-', digits @ ..] => negative(digits),
        [b'0', _, ..] => None,
        digits => positive(digits),
    }
}
