//! The replies to bad lines.

ghost use Rattle.std.specs.Prelude.{◌≡◌, ◌≢◌, ◌++◌, OnOk, OnErr, decimal};
ghost use Rattle.std.specs.Str.{IsAscii};
ghost use Rattle.session_script.specs.Faults.{fault_text, formula_fault_text, type_fault_text};
ghost use Rattle.sheet_print.specs.Replies.{bad_text};

use addin_types::TypeFault;
use cell_values::Memory;
use formula_parse::ParseFault;
use session_script::{BadLine, bad_word};
use sheet_print::bad_text;
use std::alloc::Global;
use std::str;

/// Appends the reply to a bad line: why it is bad.
pub fn answer_bad(alloc: Global, fault: BadLine, out: &mut Vec<u8>) -> Result<(), Memory>
    requires { fault ≢ BadLine.Memory }
    ensures ok { OnOk result (out.new.items ≡ out.old.items ++ bad_text (fault_text fault)) }
    ensures err { OnErr result (out.new.items ≡ out.old.items) }
{
    let mut word = Vec::new(alloc);
    bad_word(&fault, &mut word)?;
    a_word_is_ascii(fault);
    match str::from_utf8(word.as_slice()) {
        Ok(word) => bad_text(word, out),
        Err(_) => unreachable!(),
    }
}

/// The word of a bad line is ASCII. The function changes nothing.
fn a_word_is_ascii(fault: BadLine)
    ensures { IsAscii (fault_text fault) }
{
    match fault {
        BadLine::Formula(fault) => a_formula_word_is_ascii(fault),
        BadLine::Type(fault) => a_type_word_is_ascii(fault),
        _ => {}
    }
}

fn a_formula_word_is_ascii(fault: ParseFault)
    ensures { IsAscii (formula_fault_text fault) }
{
    if let ParseFault::Syntax(place) = fault {
        a_place_is_ascii(place);
    }
}

fn a_type_word_is_ascii(fault: TypeFault)
    ensures { IsAscii (type_fault_text fault) }
{
    if let TypeFault::Letter(place) = fault {
        a_place_is_ascii(place);
    }
}

fn a_place_is_ascii(place: usize)
    ensures { IsAscii (decimal place) }
{
    let _place = place;
}
