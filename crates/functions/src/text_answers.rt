//! Texts as answers.
ghost use Rattle.std.specs.Prelude.{◌≡◌, IfOk};
ghost use Rattle.cell_values.specs.Word.{text_of_bytes};
ghost use Rattle.functions.specs.Texts.{text_or_fault};

use cell_values::{ErrorKind, Memory, Text, TextFault, Value};
use std::alloc::Global;

/// Characters as an answer, or `#VALUE!` where they are no text.
pub(crate) fn text_value(alloc: Global, s: &str) -> Result<Value, Memory>
    ensures { IfOk result (λ value. value ≡ text_or_fault (text_of_bytes s.now)) }
{
    match Text::new(alloc, s) {
        Ok(text) => Ok(Value::Text(text)),
        Err(TextFault::Memory) => Err(Memory),
        Err(TextFault::TooLong) => Ok(Value::Error(ErrorKind::Value)),
        Err(TextFault::Control(_)) => Ok(Value::Error(ErrorKind::Value)),
    }
}
