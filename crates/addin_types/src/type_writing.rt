ghost use Rattle.std.specs.Prelude.{◌≡◌, ◌++◌, OnOk, OnErr, take, vec_len};
ghost use Rattle.addin_types.specs.TypeText.{arguments_text, kind_text, thread_text, type_text};

use super::registrations::{Kind, Registration};
use cell_values::Memory;

/// Writes a registration's type text at the end of a text.
pub fn write_type(r: &Registration, out: &mut Vec<u8>) -> Result<(), Memory>
    ensures ok { OnOk result (out.new.items ≡ out.old.items ++ type_text r.now) }
    ensures err { OnErr result (out.new.items ≡ out.old.items) }
{
    let start = out.len();
    let written = push_type(r, out);
    if written.is_err() {
        out.truncate(start);
    }
    written
}

/// Writes a type text at the end; a refusal may leave a part of it there.
#[tactic(auto, unfolding(crate::specs::TypeText::type_text))]
fn push_type(r: &Registration, out: &mut Vec<u8>) -> Result<(), Memory>
    ensures ok { OnOk result (out.new.items ≡ out.old.items ++ type_text r.now) }
    ensures kept { take (vec_len out.old) out.new.items ≡ out.old.items }
{
    push_kind(r.kind, r.arguments, out)?;
    if r.thread_safe {
        out.push(b'$')?;
    }
    Ok(())
}

/// Writes the result and the arguments.
fn push_kind(kind: Kind, arguments: u16, out: &mut Vec<u8>) -> Result<(), Memory>
    ensures ok { OnOk result (out.new.items ≡ out.old.items ++ kind_text kind arguments) }
    ensures kept { take (vec_len out.old) out.new.items ≡ out.old.items }
{
    match kind {
        Kind::Plain => {
            out.push(b'Q')?;
            push_arguments(arguments, out)
        }
        Kind::Asynchronous { handle_place } => {
            out.push(b'>')?;
            push_arguments(handle_place, out)?;
            out.push(b'X')?;
            push_arguments(arguments.saturating_sub(handle_place), out)
        }
    }
}

/// Writes so many arguments.
fn push_arguments(count: u16, out: &mut Vec<u8>) -> Result<(), Memory>
    ensures ok { OnOk result (out.new.items ≡ out.old.items ++ arguments_text count) }
    ensures err { OnErr result (out.new.items ≡ out.old.items) }
{
    out.resize(out.len() + usize::from(count), b'Q')?;
    Ok(())
}
