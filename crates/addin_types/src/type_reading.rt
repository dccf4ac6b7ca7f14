ghost use Rattle.std.specs.Prelude.{◌≡◌, ◌==◌, ◌<◌, ◌≤◌, IfSome, IfOk, IfErr, Ok, Err, length, count_by, position, take_while};
ghost use Rattle.functions.specs.declared.limits.TheConstants.{MOST_ARGUMENTS};
ghost use Rattle.addin_types.specs.declared.registrations.Registration.{Registration};
ghost use Rattle.addin_types.specs.declared.type_faults.TypeFault.{TypeFault};
ghost use Rattle.addin_types.specs.TypeText.{IsFaultOf, IsRegistration, argument_count, begins_void, behind_first, form_fault, is_argument, is_stranger, kind_in, letters_of, mark_apart, misplaced_at, registration_in, registration_of, type_fault, type_text};

use super::registrations::{Kind, Registration};
use super::type_faults::TypeFault;
use functions::MOST_ARGUMENTS;

/// What a type text says: `Q` or `>`, then a `Q` for each argument, an `X` where a handle is handed, and a `$` at the
/// end where the function may run on any thread. It takes no memory.
pub fn read_type(text: &str) -> Result<Registration, TypeFault>
    // The text is the registration's own.
    ensures read { IfOk result (λ r. (text.now ≡ type_text r) × IsRegistration r) }
    // Each registration's own text is read.
    ensures ok { (r : Registration) → IsRegistration r → text.now ≡ type_text r → result ≡ Ok r }
    // Each fault is answered exactly where its cause stands, which leaves out the causes of those before it.
    ensures fault { IfErr result (λ fault. IsFaultOf fault text.now) }
    ensures refused { (fault : TypeFault) → IsFaultOf fault text.now → result ≡ Err fault }
    // The one answer that the clauses above leave.
    ensures exact { result ≡ registration_in text.now }
{
    read_bytes(text.as_bytes())
}

/// What the bytes of a type text say.
fn read_bytes(text: &[u8]) -> Result<Registration, TypeFault>
    ensures { result ≡ registration_in text.now }
{
    match type_fault(text) {
        Some(fault) => Err(fault),
        None => Ok(registration_of(text)),
    }
}

/// Why bytes are no type text.
#[tactic(auto, unfolding(crate::specs::TypeText::type_fault))]
fn type_fault(text: &[u8]) -> Option<TypeFault>
    ensures { result ≡ type_fault text.now }
{
    if text.is_empty() {
        return Some(TypeFault::Empty);
    }
    if text.contains(&b'#') {
        return Some(TypeFault::MacroSheet);
    }
    match misplaced_at(text) {
        Some(place) => Some(TypeFault::Letter(place)),
        None => form_fault(text),
    }
}

/// Why letters that may all stand where they stand are no type text.
#[tactic(auto, unfolding(crate::specs::TypeText::form_fault))]
fn form_fault(text: &[u8]) -> Option<TypeFault>
    ensures { result ≡ form_fault text.now }
{
    let void = begins_void(text);
    let handles = count_of(b'X', letters_of(text));
    if handles > 1 {
        Some(TypeFault::TwoHandles)
    } else if void && handles == 0 {
        Some(TypeFault::VoidWithoutHandle)
    } else if !void && handles == 1 {
        Some(TypeFault::HandleWithoutVoid)
    } else if count_of(b'Q', letters_of(text)) > usize::from(MOST_ARGUMENTS) {
        Some(TypeFault::TooMany)
    } else {
        None
    }
}

/// What a type text without a fault says.
#[tactic(auto, unfolding(crate::specs::TypeText::registration_of))]
fn registration_of(text: &[u8]) -> Registration
    requires { argument_count text.now ≤ MOST_ARGUMENTS }
    ensures { result ≡ registration_of text.now }
{
    Registration {
        kind: kind_in(text),
        arguments: count_of(b'Q', letters_of(text)) as u16,
        thread_safe: behind_first(text).1,
    }
}

/// How the result comes.
fn kind_in(text: &[u8]) -> Kind
    requires { argument_count text.now ≤ MOST_ARGUMENTS }
    ensures { result ≡ kind_in text.now }
{
    if begins_void(text) {
        Kind::Asynchronous {
            handle_place: arguments_before(letters_of(text)) as u16,
        }
    } else {
        Kind::Plain
    }
}

/// How many arguments stand before anything else.
fn arguments_before(letters: &[u8]) -> usize
    ensures { result ≡ length (take_while is_argument letters.now) }
{
    letters.iter().take_while(|letter| **letter == b'Q').count()
}

/// How often a letter stands there.
fn count_of(letter: u8, letters: &[u8]) -> usize
    ensures { result ≡ count_by (λ byte. byte == letter) letters.now }
{
    letters.iter().filter(|byte| **byte == letter).count()
}

/// The first place of a byte that may not stand there.
fn misplaced_at(text: &[u8]) -> Option<usize>
    ensures { result ≡ misplaced_at text.now }
{
    match text {
        [] => None,
        [b'Q' | b'>', ..] => {
            let place = stranger_at(letters_of(text))?;
            Some(place + 1)
        }
        _ => Some(0),
    }
}

/// The first place of a byte that is neither a `Q` nor an `X`.
fn stranger_at(letters: &[u8]) -> Option<usize>
    ensures place { result ≡ position is_stranger letters.now }
    ensures within { IfSome result (λ place. place < length letters.now) }
{
    letters
        .iter()
        .position(|byte| !(*byte == b'Q' || *byte == b'X'))
}

/// Whether a text begins with a `>`.
fn begins_void(text: &[u8]) -> bool
    ensures { result ≡ begins_void text.now }
{
    matches!(text, [b'>', ..])
}

/// The letters behind the first byte, without the `$` at the end.
fn letters_of(text: &[u8]) -> &[u8]
    ensures { result.now ≡ letters_of text.now }
{
    behind_first(text).0
}

/// The bytes behind the first one without the `$` at their end, and whether they have one.
fn behind_first(text: &[u8]) -> (&[u8], bool)
    ensures { (result.0.now, result.1) ≡ mark_apart (behind_first text.now) }
{
    match text {
        [] => (text, false),
        [_, rest @ ..] => mark_apart(rest),
    }
}

/// A text without the `$` at its end, and whether it has one.
fn mark_apart(text: &[u8]) -> (&[u8], bool)
    ensures { (result.0.now, result.1) ≡ mark_apart text.now }
{
    match text.strip_suffix(b"$") {
        Some(letters) => (letters, true),
        None => (text, false),
    }
}
