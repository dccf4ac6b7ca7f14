//! Laws over the definitions, each the contract of a function without a body.

ghost use Rattle.std.specs.Prelude.{◌≡◌, ℕ, List, Ok};
ghost use Rattle.workbook.specs.declared.commands.Command.{Command};
ghost use Rattle.workbook.specs.InForm.{IsInForm};
ghost use Rattle.session_script.specs.Script.{line_said};
ghost use Rattle.session_script.specs.Writing.{HasLine, line_of};

use super::parsed::Parsed;
use formula_parse::{reading_gives_what_is_written, what_is_printed_reads_back};

/// The canonical line of a command is read as that command.
pub fn a_written_line_reads_back()
    ensures { (command : Command) → HasLine command
        → line_said (line_of command) ≡ Ok (Parsed.One command) }
{
    reading_gives_what_is_written();
    what_is_printed_reads_back();
}

/// A command that a line says has a canonical line, and is in form.
pub fn what_is_read_has_a_line()
    ensures line { (line : List ℕ) (command : Command)
        → line_said line ≡ Ok (Parsed.One command) → HasLine command }
    ensures in_form { (command : Command) → HasLine command → IsInForm command }
{
    reading_gives_what_is_written();
}
