//! Why lines are bad, in words.

ghost use Rattle.std.specs.Prelude.{◌≡◌, ◌≢◌, ◌++◌, OnOk, OnErr, take, vec_len, decimal};
ghost use Rattle.session_script.specs.Faults.{fault_text, formula_fault_text, type_fault_text};

use super::faults::BadLine;
use super::pushing::{push, push_number};
use addin_types::TypeFault;
use cell_values::Memory;
use formula_parse::ParseFault;

/// Appends why a line is bad, as its reply says it.
pub fn bad_word(bad: &BadLine, out: &mut Vec<u8>) -> Result<(), Memory>
    requires { bad.now ≢ BadLine.Memory }
    ensures ok { OnOk result (out.new.items ≡ out.old.items ++ fault_text bad.now) }
    ensures err { OnErr result (out.new.items ≡ out.old.items) }
{
    let start = out.len();
    let written = push_fault(bad, out);
    if written.is_err() {
        out.truncate(start);
    }
    written
}

/// Appends a fault; a refusal may leave a part of it there.
fn push_fault(bad: &BadLine, out: &mut Vec<u8>) -> Result<(), Memory>
    ensures ok { OnOk result (out.new.items ≡ out.old.items ++ fault_text bad.now) }
    ensures kept { take (vec_len out.old) out.new.items ≡ out.old.items }
{
    match bad {
        BadLine::Memory => push(b"memory", out),
        BadLine::Long => push(b"long", out),
        BadLine::NotUtf8 => push(b"utf8", out),
        BadLine::Control => push(b"control", out),
        BadLine::Word => push(b"word", out),
        BadLine::Ref => push(b"ref", out),
        BadLine::Name => push(b"name", out),
        BadLine::Formula(fault) => {
            push(b"formula ", out)?;
            push_formula_fault(*fault, out)
        }
        BadLine::Type(fault) => {
            push(b"type ", out)?;
            push_type_fault(*fault, out)
        }
        BadLine::Value => push(b"value", out),
        BadLine::Handle => push(b"handle", out),
    }
}

/// Appends why a formula is none; a refusal may leave a part of it there.
fn push_formula_fault(fault: ParseFault, out: &mut Vec<u8>) -> Result<(), Memory>
    ensures ok { OnOk result (out.new.items ≡ out.old.items ++ formula_fault_text fault) }
    ensures kept { take (vec_len out.old) out.new.items ≡ out.old.items }
{
    match fault {
        ParseFault::Memory => push(b"memory", out),
        ParseFault::TooLong => push(b"long", out),
        ParseFault::TooDeep => push(b"deep", out),
        ParseFault::Syntax(place) => push_placed(b"syntax ", place, out),
        ParseFault::BadRange => push(b"range", out),
        ParseFault::NumberTooLarge => push(b"number", out),
    }
}

/// Appends why a text is no type text; a refusal may leave a part of it there.
fn push_type_fault(fault: TypeFault, out: &mut Vec<u8>) -> Result<(), Memory>
    ensures ok { OnOk result (out.new.items ≡ out.old.items ++ type_fault_text fault) }
    ensures kept { take (vec_len out.old) out.new.items ≡ out.old.items }
{
    match fault {
        TypeFault::Empty => push(b"empty", out),
        TypeFault::MacroSheet => push(b"macro", out),
        TypeFault::Letter(place) => push_placed(b"letter ", place, out),
        TypeFault::TwoHandles => push(b"handles", out),
        TypeFault::VoidWithoutHandle => push(b"void", out),
        TypeFault::HandleWithoutVoid => push(b"handle", out),
        TypeFault::TooMany => push(b"many", out),
    }
}

/// Appends a word and a place; a refusal may leave a part of it there.
fn push_placed(word: &[u8], place: usize, out: &mut Vec<u8>) -> Result<(), Memory>
    ensures ok { OnOk result (out.new.items ≡ out.old.items ++ (word.now ++ decimal place)) }
    ensures kept { take (vec_len out.old) out.new.items ≡ out.old.items }
{
    push(word, out)?;
    push_number(place as u64, out)
}
