//! Commands for tests, each in form.

ghost use Rattle.std.specs.Prelude.{IfOk};
ghost use Rattle.workbook.specs.InForm.{IsInForm};

use addin_types::read_type;
use cell_refs::{Cell, Handle};
use cell_values::{Name, Text, Texts, Value, is_in_magnitude};
use std::alloc::Global;
use std::test::Fail;
use throttle::{MAX_INTERVAL, MAX_MOMENT, MIN_INTERVAL};
use workbook::{Command, Content, Moment};

/// Sets a cell to a number.
pub fn number_command(cell: Cell, number: i64) -> Result<Command, Fail>
    ensures { IfOk result IsInForm }
{
    if !is_in_magnitude(i128::from(number)) {
        return Err(Fail::from("a number is too large"));
    }
    Ok(Command::Set {
        cell,
        content: Content::Num(number),
    })
}

/// Publishes a number for a string.
pub fn publish_command(
    alloc: Global,
    server: &str,
    string: &str,
    number: i64,
) -> Result<Command, Fail>
    ensures { IfOk result IsInForm }
{
    if string.chars().count() > 255 {
        return Err(Fail::from("a string is too long"));
    }
    let server = Name::new(alloc, server)?;
    let text = Text::new(alloc, string)?;
    let strings = Texts::new(vec![in alloc; text]?)?;
    let value = Value::Num(number);
    Ok(Command::Publish {
        server,
        strings,
        value,
    })
}

/// Sets the interval between pulls.
pub fn throttle_command(interval: i64) -> Result<Command, Fail>
    ensures { IfOk result IsInForm }
{
    if interval < MIN_INTERVAL || interval > MAX_INTERVAL {
        return Err(Fail::from("an interval is outside its limits"));
    }
    Ok(Command::Throttle(interval))
}

/// Pulls at a moment, or by force.
pub fn pull_command(moment: Option<u64>) -> Result<Command, Fail>
    ensures { IfOk result IsInForm }
{
    match moment {
        Some(moment) if moment > MAX_MOMENT => Err(Fail::from("a moment is too late")),
        Some(moment) => Ok(Command::Pull(Moment::At(moment))),
        None => Ok(Command::Pull(Moment::Force)),
    }
}

/// Registers SLOW as a function of this type.
pub fn register_command(alloc: Global, kind: &str) -> Result<Command, Fail>
    ensures { IfOk result IsInForm }
{
    let name = Name::new(alloc, "SLOW")?;
    match read_type(kind) {
        Ok(registration) => Ok(Command::Register { name, registration }),
        Err(_) => Err(Fail::from("a type text is bad")),
    }
}

/// Returns a number for a call.
pub fn return_command(handle: Handle, number: i64) -> Result<Command, Fail>
    ensures { IfOk result IsInForm }
{
    if handle.session == 0 {
        return Err(Fail::from("a session is 0"));
    }
    Ok(Command::Return {
        handle,
        value: Value::Num(number),
    })
}
