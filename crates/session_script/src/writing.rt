//! Writes the canonical lines of commands. A refusal of one of the functions that push may leave a part of what it
//! appends there.

ghost use Rattle.std.specs.Prelude.{◌≡◌, ◌++◌, Ok, OnOk, OnErr, take, vec_len};
ghost use Rattle.std.specs.Fmt.{signed_decimal};
ghost use Rattle.addin_types.specs.TypeText.{type_text};
ghost use Rattle.cell_refs.specs.Handle.{handle_text};
ghost use Rattle.cell_refs.specs.Written.{cell_text};
ghost use Rattle.cell_values.specs.Word.{value_text};
ghost use Rattle.session_script.specs.declared.verbs.Verb.TheVariants as verbs;
ghost use Rattle.workbook.specs.InForm.{IsInForm};
ghost use Rattle.session_script.specs.Script.{line_said};
ghost use Rattle.session_script.specs.Writing.{IsWithinBounds, begin_line, content_text, line_of, moment_text, print_line, spaced, strings_text, verb_line};

use super::forms::a_command_in_form_has_a_line;
use super::laws::a_written_line_reads_back;
use super::parsed::Parsed;
use super::pushing::{
    push, push_cell, push_content, push_handle, push_moment, push_signed, push_strings, push_verb,
};
use super::verbs::Verb;
use addin_types::{Registration, write_type};
use cell_refs::{Cell, Handle};
use cell_values::{Memory, Name, Texts, Value, print_value};
use workbook::{BeginKind, Command, Content, Form, Moment};

/// Appends the canonical line of a command, without its end.
pub fn write_line(command: &Command, out: &mut Vec<u8>) -> Result<(), Memory>
    ensures ok { OnOk result (out.new.items ≡ out.old.items ++ line_of command.now) }
    ensures err { OnErr result (out.new.items ≡ out.old.items) }

    // What is written is read again as the command.
    ensures again { IsInForm command.now → IsWithinBounds command.now
        → line_said (line_of command.now) ≡ Ok (Parsed.One command.now) }
{
    a_written_line_reads_back();
    a_command_in_form_has_a_line(command);
    append_line(command, out)
}

/// Appends the canonical line of a command.
fn append_line(command: &Command, out: &mut Vec<u8>) -> Result<(), Memory>
    ensures ok { OnOk result (out.new.items ≡ out.old.items ++ line_of command.now) }
    ensures err { OnErr result (out.new.items ≡ out.old.items) }
{
    let start = out.len();
    let written = push_command(command, out);
    if written.is_err() {
        out.truncate(start);
    }
    written
}

#[tactic(auto, unfolding(crate::specs::Writing::line_of))]
fn push_command(command: &Command, out: &mut Vec<u8>) -> Result<(), Memory>
    ensures ok { OnOk result (out.new.items ≡ out.old.items ++ line_of command.now) }
    ensures kept { take (vec_len out.old) out.new.items ≡ out.old.items }
{
    match command {
        Command::Set { cell, content } => push_set(*cell, content, out),
        Command::Clear(cell) => push_clear(*cell, out),
        Command::Register { name, registration } => push_register(name, *registration, out),
        Command::Server(name) => push_named(Verb::Server, name, out),
        Command::Publish {
            server,
            strings,
            value,
        } => push_publish(server, strings, value, out),
        Command::Notify(name) => push_named(Verb::Notify, name, out),
        Command::Throttle(interval) => push_throttle(*interval, out),
        Command::Pull(moment) => push_pull(*moment, out),
        Command::Begin(kind) => push_begin(*kind, out),
        Command::Settle => push(Verb::Settle.text().as_bytes(), out),
        Command::Cancel => push(Verb::Cancel.text().as_bytes(), out),
        Command::Return { handle, value } => push_return(handle, value, out),
        Command::Print(form) => push_print(*form, out),
        Command::Listen(name) => push_named(Verb::Listen, name, out),
        Command::Events(name) => push_named(Verb::Events, name, out),
    }
}

fn push_set(cell: Cell, content: &Content, out: &mut Vec<u8>) -> Result<(), Memory>
    ensures ok { OnOk result (out.new.items ≡ out.old.items
        ++ verb_line verbs.Set (spaced (cell_text cell) (content_text content.now))) }
    ensures kept { take (vec_len out.old) out.new.items ≡ out.old.items }
{
    push_verb(Verb::Set, out)?;
    push_cell(cell, out)?;
    push(b" ", out)?;
    push_content(content, out)
}

fn push_clear(cell: Cell, out: &mut Vec<u8>) -> Result<(), Memory>
    ensures ok { OnOk result (out.new.items ≡ out.old.items
        ++ verb_line verbs.Clear (cell_text cell)) }
    ensures kept { take (vec_len out.old) out.new.items ≡ out.old.items }
{
    push_verb(Verb::Clear, out)?;
    push_cell(cell, out)
}

fn push_register(name: &Name, registration: Registration, out: &mut Vec<u8>) -> Result<(), Memory>
    ensures ok { OnOk result (out.new.items ≡ out.old.items
        ++ verb_line verbs.Register (spaced name.now (type_text registration))) }
    ensures kept { take (vec_len out.old) out.new.items ≡ out.old.items }
{
    push_named(Verb::Register, name, out)?;
    push(b" ", out)?;
    write_type(&registration, out)
}

fn push_named(verb: Verb, name: &Name, out: &mut Vec<u8>) -> Result<(), Memory>
    ensures ok { OnOk result (out.new.items ≡ out.old.items ++ verb_line verb name.now) }
    ensures kept { take (vec_len out.old) out.new.items ≡ out.old.items }
{
    push_verb(verb, out)?;
    push(name.as_str().as_bytes(), out)
}

fn push_publish(
    server: &Name,
    strings: &Texts,
    value: &Value,
    out: &mut Vec<u8>,
) -> Result<(), Memory>
    ensures ok { OnOk result (out.new.items ≡ out.old.items ++ verb_line verbs.Publish
        (spaced server.now (spaced (strings_text strings.now) (value_text value.now)))) }
    ensures kept { take (vec_len out.old) out.new.items ≡ out.old.items }
{
    push_named(Verb::Publish, server, out)?;
    push(b" ", out)?;
    push_published(strings, value, out)
}

fn push_published(strings: &Texts, value: &Value, out: &mut Vec<u8>) -> Result<(), Memory>
    ensures ok { OnOk result (out.new.items ≡ out.old.items
        ++ spaced (strings_text strings.now) (value_text value.now)) }
    ensures kept { take (vec_len out.old) out.new.items ≡ out.old.items }
{
    push_strings(strings, out)?;
    push(b" ", out)?;
    print_value(value, out)
}

fn push_throttle(interval: i64, out: &mut Vec<u8>) -> Result<(), Memory>
    ensures ok { OnOk result (out.new.items ≡ out.old.items
        ++ verb_line verbs.Throttle (signed_decimal interval)) }
    ensures kept { take (vec_len out.old) out.new.items ≡ out.old.items }
{
    push_verb(Verb::Throttle, out)?;
    push_signed(interval, out)
}

fn push_pull(moment: Moment, out: &mut Vec<u8>) -> Result<(), Memory>
    ensures ok { OnOk result (out.new.items ≡ out.old.items
        ++ verb_line verbs.Pull (moment_text moment)) }
    ensures kept { take (vec_len out.old) out.new.items ≡ out.old.items }
{
    push_verb(Verb::Pull, out)?;
    push_moment(moment, out)
}

fn push_begin(kind: BeginKind, out: &mut Vec<u8>) -> Result<(), Memory>
    ensures ok { OnOk result (out.new.items ≡ out.old.items ++ begin_line kind) }
    ensures err { OnErr result (out.new.items ≡ out.old.items) }
{
    match kind {
        BeginKind::Dirty => push(b"begin", out),
        BeginKind::All => push(b"begin all", out),
        BeginKind::Rebuild => push(b"begin rebuild", out),
    }
}

fn push_return(handle: &Handle, value: &Value, out: &mut Vec<u8>) -> Result<(), Memory>
    ensures ok { OnOk result (out.new.items ≡ out.old.items
        ++ verb_line verbs.Return (spaced (handle_text handle.now) (value_text value.now))) }
    ensures kept { take (vec_len out.old) out.new.items ≡ out.old.items }
{
    push_verb(Verb::Return, out)?;
    push_handle(handle, out)?;
    push(b" ", out)?;
    print_value(value, out)
}

fn push_print(form: Form, out: &mut Vec<u8>) -> Result<(), Memory>
    ensures ok { OnOk result (out.new.items ≡ out.old.items ++ print_line form) }
    ensures err { OnErr result (out.new.items ≡ out.old.items) }
{
    match form {
        Form::Lines => push(b"print", out),
        Form::Csv => push(b"print csv", out),
    }
}
