//! Writes the lines of replies.

ghost use Rattle.std.specs.Prelude.{◌≡◌, ◌++◌, OnOk, OnErr, take, vec_len, codes};
ghost use Rattle.std.specs.List.{flat_map};
ghost use Rattle.sheet_print.specs.Replies.{bad_text, event_line, failed_line, line_of, reply_text};

use super::calls::push_calls;
use super::lines::{push, push_counted, push_line, push_named, push_numbered};
use super::sheets::push_sheet;
use cell_values::{Event, Memory};
use workbook::{Calls, EventList, Names, Reply};

/// Appends the lines of a reply. A refusal leaves `out` as it was.
pub fn reply_text(reply: &Reply, out: &mut Vec<u8>) -> Result<(), Memory>
    ensures ok { OnOk result (out.new.items ≡ out.old.items ++ reply_text reply.now) }
    ensures err { OnErr result (out.new.items ≡ out.old.items) }
{
    let start = out.len();
    let appended = push_reply(reply, out);
    if appended.is_err() {
        out.truncate(start);
    }
    appended
}

/// Appends the line for a line that isn't read: `bad` and the word that says why. A refusal leaves
/// `out` as it was.
pub fn bad_text(word: &str, out: &mut Vec<u8>) -> Result<(), Memory>
    ensures ok { OnOk result (out.new.items ≡ out.old.items ++ bad_text word.now) }
    ensures err { OnErr result (out.new.items ≡ out.old.items) }
{
    let start = out.len();
    let written = push_bad(word, out);
    if written.is_err() {
        out.truncate(start);
    }
    written
}

/// Appends the line for a line that isn't read; a refusal may leave a part of it.
fn push_bad(word: &str, out: &mut Vec<u8>) -> Result<(), Memory>
    ensures ok { OnOk result (out.new.items ≡ out.old.items ++ bad_text word.now) }
    ensures kept { take (vec_len out.old) out.new.items ≡ out.old.items }
{
    push(b"bad ", out)?;
    push(word.as_bytes(), out)?;
    push(b"\n", out)
}

/// Appends the lines of a reply; a refusal may leave a part of them.
fn push_reply(reply: &Reply, out: &mut Vec<u8>) -> Result<(), Memory>
    ensures ok { OnOk result (out.new.items ≡ out.old.items ++ reply_text reply.now) }
    ensures kept { take (vec_len out.old) out.new.items ≡ out.old.items }
{
    match reply {
        Reply::Ok => push_line(b"ok", out),
        Reply::Known => push_line(b"known", out),
        Reply::Builtin => push_line(b"builtin", out),
        Reply::NoServer => push_line(b"no server", out),
        Reply::NoListener => push_line(b"no listener", out),
        Reply::Idle => push_line(b"idle", out),
        Reply::Nothing => push_line(b"nothing", out),
        Reply::Manual => push_line(b"manual", out),
        Reply::CellLimit => push_line(b"full cells", out),
        Reply::FormulaLimit => push_line(b"full formulas", out),
        Reply::Busy(n) => push_numbered(b"busy ", *n, out),
        Reply::Early(wait) => push_numbered(b"early ", *wait, out),
        Reply::Begun(n) => push_numbered(b"begun ", *n, out),
        Reply::Cancelled(n) => push_numbered(b"cancelled ", *n, out),
        Reply::Code(code) => push_numbered(b"", u64::from(*code), out),
        Reply::Failed(name) => push_named(b"failed ", name, out),
        Reply::Pulled { changed, failed } => push_pulled(*changed, failed, out),
        Reply::Done { round, cells } => push_counted(b"done ", *round, b" cells ", *cells, out),
        Reply::Waiting { round, calls } => push_waiting(*round, calls, out),
        Reply::Events(events) => push_events(events, out),
        Reply::Sheet { form, cells } => push_sheet(*form, cells, out),
    }
}

/// Appends the lines of a pull.
fn push_pulled(changed: u64, failed: &Names, out: &mut Vec<u8>) -> Result<(), Memory>
    ensures ok { OnOk result (out.new.items ≡ out.old.items
        ++ reply_text (Reply.Pulled changed failed.now)) }
    ensures kept { take (vec_len out.old) out.new.items ≡ out.old.items }
{
    push_numbered(b"pulled ", changed, out)?;
    push_failed(failed, out)
}

/// Appends a line for each server that failed.
fn push_failed(failed: &Names, out: &mut Vec<u8>) -> Result<(), Memory>
    ensures ok { OnOk result (out.new.items ≡ out.old.items ++ flat_map failed_line failed.now) }
    ensures kept { take (vec_len out.old) out.new.items ≡ out.old.items }
{
    for name in failed.as_slice() {
        push_named(b" failed ", name, out)?;
    }
    Ok(())
}

/// Appends the lines of a recalculation that waits.
fn push_waiting(round: u64, calls: &Calls, out: &mut Vec<u8>) -> Result<(), Memory>
    ensures ok { OnOk result (out.new.items ≡ out.old.items
        ++ reply_text (Reply.Waiting round calls.now)) }
    ensures kept { take (vec_len out.old) out.new.items ≡ out.old.items }
{
    let count = calls.as_slice().len() as u64;
    push_counted(b"waiting ", round, b" count ", count, out)?;
    push_calls(calls, out)
}

/// Appends the lines of events, and `end`.
fn push_events(events: &EventList, out: &mut Vec<u8>) -> Result<(), Memory>
    ensures ok { OnOk result (out.new.items ≡ out.old.items ++ flat_map event_line events.now
        ++ line_of (codes "end")) }
    ensures kept { take (vec_len out.old) out.new.items ≡ out.old.items }
{
    for event in events.as_slice() {
        push_event(*event, out)?;
    }
    push_line(b"end", out)
}

/// Appends the line of an event.
fn push_event(event: Event, out: &mut Vec<u8>) -> Result<(), Memory>
    ensures ok { OnOk result (out.new.items ≡ out.old.items ++ event_line event) }
    ensures kept { take (vec_len out.old) out.new.items ≡ out.old.items }
{
    match event {
        Event::Ended(round) => push_numbered(b" ended ", round, out),
        Event::Cancelled(round) => push_numbered(b" cancelled ", round, out),
    }
}
