//! Reads the lines that speak of added functions.

ghost use Rattle.std.specs.Prelude.{◌≡◌, ◌⊎◌, Err, IfOk, IfErr};
ghost use Rattle.session_script.specs.Script.{register_said, return_said};

use super::arguments::{cut, handle_of, read_function, read_registration, value_of};
use super::cells::one_alone;
use super::faults::BadLine;
use super::parsed::Parsed;
use std::alloc::Global;
use workbook::Command;

/// Reads what stands behind `register` and its space.
pub fn read_register(alloc: Global, text: &str) -> Result<Parsed, BadLine>
    ensures said { IfOk result (λ said. register_said text.now ≡ Ok said) }
    ensures fault { IfErr result (λ fault. (fault ≡ BadLine.Memory)
        ⊎ (register_said text.now ≡ Err fault)) }
{
    let (name, rest) = cut(text);
    let name = read_function(alloc, name)?;
    let (type_text, _) = cut(rest);
    let registration = read_registration(type_text)?;
    one_alone(rest, Command::Register { name, registration })
}

/// Reads what stands behind `return` and its space.
pub fn read_return(alloc: Global, text: &str) -> Result<Parsed, BadLine>
    ensures said { IfOk result (λ said. return_said text.now ≡ Ok said) }
    ensures fault { IfErr result (λ fault. (fault ≡ BadLine.Memory)
        ⊎ (return_said text.now ≡ Err fault)) }
{
    let (handle, rest) = cut(text);
    let handle = handle_of(handle)?;
    let value = value_of(alloc, rest)?;
    Ok(Parsed::One(Command::Return { handle, value }))
}
