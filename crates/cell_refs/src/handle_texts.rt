ghost use Rattle.std.specs.Prelude.{◌≡◌, ◌++◌, OnOk, OnErr, take, vec_len};
ghost use Rattle.cell_refs.specs.Handle.{handle_text, session_part};

use super::handles::Handle;
use super::memory::Memory;
use super::writing::{push_number, write_cell};

/// Writes a handle at the end of a text: without a session where it is the first.
pub fn write_handle(h: &Handle, out: &mut Vec<u8>) -> Result<(), Memory>
    ensures ok { OnOk result (out.new.items ≡ out.old.items ++ handle_text h.now) }
    ensures err { OnErr result (out.new.items ≡ out.old.items) }
{
    let start = out.len();
    let written = push_handle(h, out);
    if written.is_err() {
        out.truncate(start);
    }
    written
}

/// Writes a handle at the end; a refusal may leave a part of it there.
#[tactic(auto, unfolding(crate::specs::Handle::handle_text))]
fn push_handle(h: &Handle, out: &mut Vec<u8>) -> Result<(), Memory>
    ensures ok { OnOk result (out.new.items ≡ out.old.items ++ handle_text h.now) }
    ensures kept { take (vec_len out.old) out.new.items ≡ out.old.items }
{
    push_session(h.session, out)?;
    push_number(h.round, out)?;
    out.push(b':')?;
    write_cell(h.cell, out)?;
    out.push(b'#')?;
    push_number(u64::from(h.site), out)
}

/// Writes the session's part, where the session isn't the first.
fn push_session(session: u64, out: &mut Vec<u8>) -> Result<(), Memory>
    ensures ok { OnOk result (out.new.items ≡ out.old.items ++ session_part session) }
    ensures kept { take (vec_len out.old) out.new.items ≡ out.old.items }
{
    if session != 1 {
        push_number(session, out)?;
        out.push(b'/')?;
    }
    Ok(())
}
