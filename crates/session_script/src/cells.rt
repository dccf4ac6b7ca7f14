//! Reads the lines that change cells.

ghost use Rattle.std.specs.Prelude.{◌≡◌, ◌⊎◌, Err, IfOk, IfErr};
ghost use Rattle.session_script.specs.Script.{clear_said, one_alone, set_said};

use super::arguments::{cut, has_space, read_cell};
use super::contents::read_content;
use super::faults::BadLine;
use super::parsed::Parsed;
use std::alloc::Global;
use workbook::Command;

/// A command, unless something stands behind its last argument.
pub fn one_alone(text: &str, command: Command) -> Result<Parsed, BadLine>
    ensures { result ≡ one_alone text.now command }
{
    if has_space(text) {
        Err(BadLine::Value)
    } else {
        Ok(Parsed::One(command))
    }
}

/// Reads what stands behind `set` and its space.
pub fn read_set(alloc: Global, text: &str) -> Result<Parsed, BadLine>
    ensures said { IfOk result (λ said. set_said text.now ≡ Ok said) }
    ensures fault { IfErr result (λ fault. (fault ≡ BadLine.Memory)
        ⊎ (set_said text.now ≡ Err fault)) }
{
    let (name, rest) = cut(text);
    let cell = read_cell(name)?;
    let content = read_content(alloc, rest)?;
    Ok(Parsed::One(Command::Set { cell, content }))
}

/// Reads what stands behind `clear` and its space.
pub fn read_clear(text: &str) -> Result<Parsed, BadLine>
    ensures { result ≡ clear_said text.now }
{
    let (name, _) = cut(text);
    let cell = read_cell(name)?;
    one_alone(text, Command::Clear(cell))
}
