//! Reads formulas, one a line, and prints how each reads: its canonical text, or the fault that it has.
//! All of them are kept to the end, so that what they hold can be measured.
#![tactic(auto)]

ghost use Rattle.std.specs.Prelude.{◌≡◌, IfOk};
ghost use Rattle.std.specs.String.{string_bytes};
ghost use Rattle.formula_parse.specs.Printing.{canonical_text};
ghost use Rattle.formula_lines.specs.Words.{word_of};

use cell_values::Memory;
use formula_parse::{ParseFault, Tree, parse, print};
use std::alloc::Global;
use std::io;

/// The canonical text of a formula.
fn canonical(alloc: Global, tree: &Tree) -> Result<String, Memory>
    ensures { IfOk result (λ text. string_bytes text ≡ canonical_text tree.now) }
{
    let mut out = Vec::new(alloc);
    print(tree, &mut out)?;
    match String::from_utf8(out) {
        Ok(text) => Ok(text),
        Err(_) => unreachable!(),
    }
}

/// The word of a fault.
fn word(fault: ParseFault) -> &'static str
    ensures { result.now ≡ word_of fault }
{
    match fault {
        ParseFault::Memory => "memory",
        ParseFault::TooLong => "long",
        ParseFault::TooDeep => "deep",
        ParseFault::Syntax(_) => "syntax",
        ParseFault::BadRange => "range",
        ParseFault::NumberTooLarge => "number",
    }
}

fn main(rt: HostRuntime) -> io::Result<()> {
    let mut trees = Vec::new(rt.alloc());
    for line in rt.lines(rt.alloc()) {
        match parse(rt.alloc(), line?.as_str()) {
            Ok(tree) => {
                let Ok(text) = canonical(rt.alloc(), &tree) else {
                    return Err(io::Error::from(io::ErrorKind::OutOfMemory));
                };
                println!(rt; "{text}")?;
                trees.push(tree)?;
            }
            Err(ParseFault::Syntax(place)) => println!(rt; "bad syntax {place}")?,
            Err(fault) => {
                let word = word(fault);
                println!(rt; "bad {word}")?;
            }
        }
    }
    let count = trees.len();
    println!(rt; "formulas {count}")
}
