ghost use Rattle.std.specs.Prelude.{◌≡◌, option_map, IfSome, IfNone, IsTrue, length, codes};
ghost use Rattle.std.specs.Str.{all_ascii_digits};
ghost use Rattle.cell_refs.specs.declared.handles.Handle.{Handle};
ghost use Rattle.cell_refs.specs.Handle.{IsHandle, handle_in, handle_text};
ghost use Rattle.cell_refs.specs.HandleReading.{cell_at_front, count_at, own_number, session_at, site_of};
ghost use Rattle.cell_refs.specs.Reading.{rest_after};

use super::grid::Cell;
use super::handles::Handle;
use super::reading::{digits_len, parse_digits, read_ref};
use super::spelling::{after_cell, after_word};
use itoa::Buffer;

/// The handle that the whole text is. It takes no memory.
pub fn read_handle(text: &[u8]) -> Option<Handle>
    // The text is the handle's own, from its session on.
    ensures read { IfSome result (λ h. (text.now ≡ handle_text h) × IsHandle h) }
    // None exactly where it is no handle's.
    ensures none { IfNone result ((h : Handle) → IsHandle h → text.now ≡ handle_text h → ⊥) }
    // The one answer that the two clauses above leave.
    ensures exact { result ≡ handle_in text.now }
{
    handle_of(text)
}

/// The handle that the text is, part by part.
#[tactic(auto, unfolding(crate::specs::Handle::handle_in))]
fn handle_of(text: &[u8]) -> Option<Handle>
    ensures { result ≡ handle_in text.now }
{
    let (session, rest) = session_of(text)?;
    let (round, rest) = count_of(rest)?;
    let rest = after_word(b":", rest)?;
    let (cell, rest) = cell_of(rest)?;
    let rest = after_word(b"#", rest)?;
    let site = site_of(rest)?;
    Some(Handle {
        session,
        round,
        cell,
        site,
    })
}

/// The session at the front: the first where none is written.
#[tactic(auto, unfolding(crate::specs::HandleReading::session_at, crate::specs::HandleReading::session_or_first))]
fn session_of(text: &[u8]) -> Option<(u64, &[u8])>
    ensures { option_map (λ x. (x.0, x.1.now)) result ≡ session_at text.now }
{
    match count_of(text)? {
        (session, [b'/', rest @ ..]) if session > 1 => Some((session, rest)),
        (_, [b'/', ..]) => None,
        _ => Some((1, text)),
    }
}

/// The number at the front, where its digits to their end are its own text.
#[tactic(auto, unfolding(crate::specs::HandleReading::count_at))]
fn count_of(text: &[u8]) -> Option<(u64, &[u8])>
    ensures { option_map (λ x. (x.0, x.1.now)) result ≡ count_at text.now }
{
    let (digits, rest) = text.split_at(digits_len(text));
    let number = own_number(digits)?;
    Some((number, rest))
}

/// The number of digits that are its own text.
#[tactic(auto, unfolding(crate::specs::HandleReading::own_number))]
fn own_number(digits: &[u8]) -> Option<u64>
    requires { IsTrue (all_ascii_digits digits.now) }
    ensures { result ≡ own_number digits.now }
{
    if digits.is_empty() {
        return None;
    }
    let number = parse_digits(digits)?;
    let mut buffer = Buffer::new();
    if digits == buffer.format(number).as_bytes() {
        Some(number)
    } else {
        None
    }
}

/// The cell at the front, where it stands in its own text.
#[tactic(auto, unfolding(crate::specs::HandleReading::cell_at_front))]
fn cell_of(text: &[u8]) -> Option<(Cell, &[u8])>
    ensures { option_map (λ x. (x.0, x.1.now)) result ≡ cell_at_front text.now }
{
    let (reference, _length) = read_ref(text)?;
    let cell = reference.at(1);
    let rest = after_cell(cell, text)?;
    Some((cell, rest))
}

/// The site that the whole text is.
#[tactic(auto, unfolding(crate::specs::HandleReading::site_of, crate::specs::HandleReading::last_site))]
fn site_of(text: &[u8]) -> Option<u16>
    ensures { result ≡ site_of text.now }
{
    let (number, rest) = count_of(text)?;
    if rest.is_empty() && number < 65_536 {
        Some(number as u16)
    } else {
        None
    }
}
