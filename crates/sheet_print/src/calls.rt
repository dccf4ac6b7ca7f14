//! Writes the asynchronous calls for which a recalculation waits.

ghost use Rattle.std.specs.Prelude.{◌≡◌, ◌∷◌, ◌++◌, OnOk, OnErr, take, vec_len};
ghost use Rattle.std.specs.List.{flat_map};
ghost use Rattle.cell_refs.specs.Handle.{handle_text};
ghost use Rattle.cell_values.specs.Word.{value_text};
ghost use Rattle.sheet_print.specs.Replies.{applied_text, arguments_text, call_line};

use super::lines::push;
use addin_types::Call;
use cell_refs::{Handle, write_handle};
use cell_values::{Memory, Name, Value, print_value};
use workbook::Calls;

/// Appends a line for each call.
pub(crate) fn push_calls(calls: &Calls, out: &mut Vec<u8>) -> Result<(), Memory>
    ensures ok { OnOk result (out.new.items ≡ out.old.items ++ flat_map call_line calls.now) }
    ensures kept { take (vec_len out.old) out.new.items ≡ out.old.items }
{
    for call in calls.as_slice() {
        push_call(call, out)?;
    }
    Ok(())
}

/// Appends the line of a call.
fn push_call(call: &Call, out: &mut Vec<u8>) -> Result<(), Memory>
    ensures ok { OnOk result (out.new.items ≡ out.old.items ++ call_line call.now) }
    ensures kept { take (vec_len out.old) out.new.items ≡ out.old.items }
{
    push(b" ", out)?;
    push_handle(&call.handle, out)?;
    push(b" ", out)?;
    push_applied(&call.name, call.args.as_slice(), out)?;
    push(b"\n", out)
}

/// Appends a function with its arguments.
fn push_applied(name: &Name, args: &[Value], out: &mut Vec<u8>) -> Result<(), Memory>
    ensures ok { OnOk result (out.new.items ≡ out.old.items ++ applied_text name.now args.now) }
    ensures kept { take (vec_len out.old) out.new.items ≡ out.old.items }
{
    push(name.as_str().as_bytes(), out)?;
    push(b"(", out)?;
    push_arguments(args, out)?;
    push(b")", out)
}

/// Appends the text of a handle.
fn push_handle(handle: &Handle, out: &mut Vec<u8>) -> Result<(), Memory>
    ensures ok { OnOk result (out.new.items ≡ out.old.items ++ handle_text handle.now) }
    ensures err { OnErr result (out.new.items ≡ out.old.items) }
{
    match write_handle(handle, out) {
        Ok(()) => Ok(()),
        Err(_) => Err(Memory),
    }
}

/// Appends the value words of arguments, with a comma between two.
fn push_arguments(args: &[Value], out: &mut Vec<u8>) -> Result<(), Memory>
    ensures ok { OnOk result (out.new.items ≡ out.old.items ++ arguments_text args.now) }
    ensures kept { take (vec_len out.old) out.new.items ≡ out.old.items }
{
    match args {
        [] => Ok(()),
        [first, others @ ..] => {
            print_value(first, out)?;
            push_others(others, out)
        }
    }
}

/// Appends the value words of the arguments behind the first, each behind a comma.
fn push_others(args: &[Value], out: &mut Vec<u8>) -> Result<(), Memory>
    ensures ok { OnOk result (out.new.items ≡ out.old.items
        ++ flat_map (λ value. 44 ∷ value_text value) args.now) }
    ensures kept { take (vec_len out.old) out.new.items ≡ out.old.items }
{
    for value in args {
        push(b",", out)?;
        print_value(value, out)?;
    }
    Ok(())
}
