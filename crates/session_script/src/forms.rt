//! What the types of a command's parts keep, which its canonical line needs.

ghost use Rattle.std.specs.Prelude.{◌≡◌, ◌<◌, ℕ, List, IsTrue, All};
ghost use Rattle.cell_refs.specs.Cell.{IsCell};
ghost use Rattle.cell_refs.specs.Handle.{IsHandle};
ghost use Rattle.cell_values.specs.Name.{is_name};
ghost use Rattle.cell_values.specs.Text.{is_text};
ghost use Rattle.cell_values.specs.Word.{HasWord};
ghost use Rattle.workbook.specs.InForm.{IsContentInForm, IsInForm, IsValueInForm};
ghost use Rattle.session_script.specs.Writing.{HasContent, HasLine, IsWithinBounds, IsWithinMagnitude};

use cell_refs::Handle;
use cell_values::{Name, Text, Texts, Value};
use workbook::{Command, Content};

/// A command in form has a canonical line, where its cells lie in the grid and its values are within the magnitude. The
/// function changes nothing.
pub fn a_command_in_form_has_a_line(command: &Command)
    ensures { IsInForm command.now → IsWithinBounds command.now → HasLine command.now }
{
    match command {
        Command::Set { content, .. } => content_has_form(content),
        Command::Clear(_) => {}
        Command::Register { name, .. } => name_has_form(name),
        Command::Server(name) => name_has_form(name),
        Command::Publish {
            server,
            strings,
            value,
        } => {
            name_has_form(server);
            strings_are_texts(strings);
            value_has_word(value);
        }
        Command::Notify(name) => name_has_form(name),
        Command::Throttle(_) => {}
        Command::Pull(_) => {}
        Command::Begin(_) => {}
        Command::Settle => {}
        Command::Cancel => {}
        Command::Return { handle, value } => {
            handle_fits(handle);
            value_has_word(value);
        }
        Command::Print(_) => {}
        Command::Listen(name) => name_has_form(name),
        Command::Events(name) => name_has_form(name),
    }
}

fn content_has_form(content: &Content)
    ensures { IsContentInForm content.now → HasContent content.now }
{
    match content {
        Content::Num(_) => {}
        Content::Text(text) => text_has_form(text),
        Content::Bool(_) => {}
        Content::Error(_) => {}
        Content::Formula(tree) => {
            let _root = tree.root();
        }
    }
}

fn value_has_word(value: &Value)
    ensures { IsValueInForm value.now → IsWithinMagnitude value.now → HasWord value.now }
{
    match value {
        Value::Num(_) => {}
        Value::Text(text) => text_has_form(text),
        Value::Bool(_) => {}
        Value::Error(_) => {}
        Value::Blank => {}
    }
}

fn name_has_form(name: &Name)
    ensures { IsTrue (is_name name.now) }
{
    let _name = name.as_str();
}

fn text_has_form(text: &Text)
    ensures { IsTrue (is_text text.now) }
{
    let _text = text.as_str();
}

fn strings_are_texts(strings: &Texts)
    ensures { All (λ string. IsTrue (is_text string)) strings.now }
{
    texts_have_form(strings.as_slice());
}

fn texts_have_form(texts: &[Text])
    ensures { All (λ text. IsTrue (is_text text)) texts.now }
{
    for text in texts {
        text_has_form(text);
    }
}

fn handle_fits(handle: &Handle)
    ensures { 0 < handle.now.session → IsCell handle.now.cell → IsHandle handle.now }
{
    let (_session, _round, _site) = (handle.session, handle.round, handle.site);
}
