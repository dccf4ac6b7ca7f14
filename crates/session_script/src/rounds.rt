//! Reads the lines that speak of recalculations, and of the sheet.

ghost use Rattle.std.specs.Prelude.{◌≡◌, Err};
ghost use Rattle.session_script.specs.Script.{begin_said, calc_said, kind_said, print_said};

use super::faults::BadLine;
use super::parsed::Parsed;
use workbook::{BeginKind, Command, Form};

/// Reads what stands behind `begin` and its space.
pub fn read_begin(text: &str) -> Result<Parsed, BadLine>
    ensures { result ≡ begin_said text.now }
{
    let kind = read_kind(text)?;
    Ok(Parsed::One(Command::Begin(kind)))
}

/// Reads what stands behind `calc` and its space.
pub fn read_calc(text: &str) -> Result<Parsed, BadLine>
    ensures { result ≡ calc_said text.now }
{
    let kind = read_kind(text)?;
    Ok(Parsed::Calc(kind))
}

/// The kind of a recalculation that a word says.
fn read_kind(word: &str) -> Result<BeginKind, BadLine>
    ensures { result ≡ kind_said word.now }
{
    if word == "all" {
        Ok(BeginKind::All)
    } else if word == "rebuild" {
        Ok(BeginKind::Rebuild)
    } else {
        Err(BadLine::Value)
    }
}

/// Reads what stands behind `print` and its space.
pub fn read_print(text: &str) -> Result<Parsed, BadLine>
    ensures { result ≡ print_said text.now }
{
    if text == "csv" {
        Ok(Parsed::One(Command::Print(Form::Csv)))
    } else {
        Err(BadLine::Value)
    }
}
