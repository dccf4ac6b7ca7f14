//! Reads the lines of a script.

ghost use Rattle.std.specs.Prelude.{◌≡◌, ◌⊎◌, Err, IfOk, IfErr, IfSome, is_some};
ghost use Rattle.std.specs.Char.{is_ascii_control};
ghost use Rattle.std.specs.List.{list_any};
ghost use Rattle.std.specs.Str.{is_utf8};
ghost use Rattle.session_script.specs.Script.{IsParsedInForm, arguments_said, bare_said, line_said, words_said};

use super::arguments::{cut, has_space};
use super::calls::{read_register, read_return};
use super::cells::{read_clear, read_set};
use super::faults::BadLine;
use super::laws::what_is_read_has_a_line;
use super::limits::MAX_LINE;
use super::parsed::Parsed;
use super::rounds::{read_begin, read_calc, read_print};
use super::servers::{
    read_events, read_listen, read_notify, read_publish, read_pull, read_server, read_throttle,
};
use super::verbs::{Verb, read_verb};
use std::alloc::Global;
use std::str;
use workbook::{BeginKind, Command, Form};

/// Reads a line without its end.
pub fn read_line(alloc: Global, line: &[u8]) -> Result<Parsed, BadLine>
    ensures said { IfOk result (λ said. line_said line.now ≡ Ok said) }
    ensures fault { IfErr result (λ fault. (fault ≡ BadLine.Memory)
        ⊎ (line_said line.now ≡ Err fault)) }

    // A command that is read is in form.
    ensures in_form { IfOk result IsParsedInForm }
{
    what_is_read_has_a_line();
    read_whole(alloc, line)
}

/// Reads a line.
#[tactic(auto, unfolding(crate::specs::Script::line_said))]
fn read_whole(alloc: Global, line: &[u8]) -> Result<Parsed, BadLine>
    ensures said { IfOk result (λ said. line_said line.now ≡ Ok said) }
    ensures fault { IfErr result (λ fault. (fault ≡ BadLine.Memory)
        ⊎ (line_said line.now ≡ Err fault)) }
{
    if line.len() > MAX_LINE {
        return Err(BadLine::Long);
    }
    let Some(text) = text_of(line) else {
        return Err(BadLine::NotUtf8);
    };
    if has_control(line) {
        return Err(BadLine::Control);
    }
    if line.is_empty() {
        return Ok(Parsed::Empty);
    }
    read_words(alloc, text)
}

/// The text that a line is, if it is UTF-8.
fn text_of(line: &[u8]) -> Option<&str>
    ensures text { IfSome result (λ text. text.now ≡ line.now) }
    ensures utf8 { is_some result ≡ is_utf8 line.now }
{
    match str::from_utf8(line) {
        Ok(text) => Some(text),
        Err(_) => None,
    }
}

/// Whether a control character stands in a line.
fn has_control(line: &[u8]) -> bool
    ensures { result ≡ list_any is_ascii_control line.now }
{
    line.iter().any(|byte| byte.is_ascii_control())
}

/// Reads the words of a line.
#[tactic(auto, unfolding(crate::specs::Script::words_said))]
fn read_words(alloc: Global, line: &str) -> Result<Parsed, BadLine>
    ensures said { IfOk result (λ said. words_said line.now ≡ Ok said) }
    ensures fault { IfErr result (λ fault. (fault ≡ BadLine.Memory)
        ⊎ (words_said line.now ≡ Err fault)) }
{
    let (word, rest) = cut(line);
    let verb = read_verb(word)?;
    if has_space(line) {
        read_arguments(alloc, verb, rest)
    } else {
        read_bare(verb)
    }
}

/// Reads a line that has nothing behind its first word.
fn read_bare(verb: Verb) -> Result<Parsed, BadLine>
    ensures { result ≡ bare_said verb }
{
    match verb {
        Verb::Set | Verb::Clear => Err(BadLine::Ref),
        Verb::Register | Verb::Server | Verb::Publish | Verb::Notify => Err(BadLine::Name),
        Verb::Listen | Verb::Events => Err(BadLine::Name),
        Verb::Throttle | Verb::Pull => Err(BadLine::Value),
        Verb::Return => Err(BadLine::Handle),
        Verb::Begin => Ok(Parsed::One(Command::Begin(BeginKind::Dirty))),
        Verb::Settle => Ok(Parsed::One(Command::Settle)),
        Verb::Cancel => Ok(Parsed::One(Command::Cancel)),
        Verb::Calc => Ok(Parsed::Calc(BeginKind::Dirty)),
        Verb::Print => Ok(Parsed::One(Command::Print(Form::Lines))),
    }
}

/// Reads what stands behind the first word and its space.
#[tactic(auto, unfolding(crate::specs::Script::arguments_said))]
fn read_arguments(alloc: Global, verb: Verb, text: &str) -> Result<Parsed, BadLine>
    ensures said { IfOk result (λ said. arguments_said verb text.now ≡ Ok said) }
    ensures fault { IfErr result (λ fault. (fault ≡ BadLine.Memory)
        ⊎ (arguments_said verb text.now ≡ Err fault)) }
{
    match verb {
        Verb::Set => read_set(alloc, text),
        Verb::Clear => read_clear(text),
        Verb::Register => read_register(alloc, text),
        Verb::Server => read_server(alloc, text),
        Verb::Publish => read_publish(alloc, text),
        Verb::Notify => read_notify(alloc, text),
        Verb::Throttle => read_throttle(text),
        Verb::Pull => read_pull(text),
        Verb::Begin => read_begin(text),
        Verb::Settle | Verb::Cancel => Err(BadLine::Value),
        Verb::Calc => read_calc(text),
        Verb::Return => read_return(alloc, text),
        Verb::Print => read_print(text),
        Verb::Listen => read_listen(alloc, text),
        Verb::Events => read_events(alloc, text),
    }
}
