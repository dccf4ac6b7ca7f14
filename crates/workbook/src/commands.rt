ghost use Rattle.std.specs.Prelude.{◌≡◌, IfOk};

use super::contents::Content;
use addin_types::Registration;
use cell_refs::{Cell, Handle};
use cell_values::{Memory, Name, Texts, Value};

/// Which cells a recalculation takes. After Microsoft's documentation of recalculation in Excel: F9, Ctrl+Alt+F9 and
/// Ctrl+Alt+Shift+F9.
#[derive(Clone, Copy, Debug, PartialEq, Eq)]
pub enum BeginKind {
    /// Those that are stale.
    Dirty,
    /// All formula cells.
    All,
    /// All formula cells, with the table of their dependencies made anew.
    Rebuild,
}

/// How a sheet is shown.
#[derive(Clone, Copy, Debug, PartialEq, Eq)]
pub enum Form {
    /// A line for each cell.
    Lines,
    /// A record of comma-separated values for each cell.
    Csv,
}

/// When a pull comes.
#[derive(Clone, Copy, Debug, PartialEq, Eq)]
pub enum Moment {
    /// At this moment, in milliseconds, from 0 to 999,999,999,999,999; the throttle may refuse it.
    At(u64),
    /// Whatever the throttle says.
    Force,
}

/// A command to the host.
#[derive(Drop)]
pub enum Command {
    Set {
        cell: Cell,
        content: Content,
    },
    Clear(Cell),
    /// The name is in upper case.
    Register {
        name: Name,
        registration: Registration,
    },
    /// A server of real-time data is started.
    Server(Name),
    /// A server publishes a value for the topic of these strings.
    Publish {
        server: Name,
        strings: Texts,
        value: Value,
    },
    /// A server tells that it has published.
    Notify(Name),
    /// The interval between pulls in milliseconds: 0 for none, -1 for forced pulls alone.
    Throttle(i64),
    /// The values that servers have published are taken.
    Pull(Moment),
    Begin(BeginKind),
    Settle,
    Cancel,
    /// The result of an asynchronous call comes.
    Return {
        handle: Handle,
        value: Value,
    },
    Print(Form),
    Listen(Name),
    Events(Name),
}

impl Command {
    /// An equal command, which shares its texts and trees.
    pub fn copy(&self) -> Result<Command, Memory>
        ensures { IfOk result (λ copy. copy ≡ self.now) }
    {
        match self {
            Command::Set { cell, content } => copy_set(*cell, content),
            Command::Clear(cell) => Ok(Command::Clear(*cell)),
            Command::Register { name, registration } => copy_register(name, *registration),
            Command::Server(name) => Ok(Command::Server(name.copy()?)),
            Command::Publish {
                server,
                strings,
                value,
            } => copy_publish(server, strings, value),
            Command::Notify(name) => Ok(Command::Notify(name.copy()?)),
            Command::Throttle(interval) => Ok(Command::Throttle(*interval)),
            Command::Pull(moment) => Ok(Command::Pull(*moment)),
            Command::Begin(kind) => Ok(Command::Begin(*kind)),
            Command::Settle => Ok(Command::Settle),
            Command::Cancel => Ok(Command::Cancel),
            Command::Return { handle, value } => copy_return(*handle, value),
            Command::Print(form) => Ok(Command::Print(*form)),
            Command::Listen(name) => Ok(Command::Listen(name.copy()?)),
            Command::Events(name) => Ok(Command::Events(name.copy()?)),
        }
    }
}

fn copy_set(cell: Cell, content: &Content) -> Result<Command, Memory>
    ensures { IfOk result (λ copy. copy ≡ Command.Set cell content.now) }
{
    let content = content.copy()?;
    Ok(Command::Set { cell, content })
}

fn copy_register(name: &Name, registration: Registration) -> Result<Command, Memory>
    ensures { IfOk result (λ copy. copy ≡ Command.Register name.now registration) }
{
    let name = name.copy()?;
    Ok(Command::Register { name, registration })
}

fn copy_publish(server: &Name, strings: &Texts, value: &Value) -> Result<Command, Memory>
    ensures { IfOk result (λ copy. copy ≡ Command.Publish server.now strings.now value.now) }
{
    let server = server.copy()?;
    let strings = strings.copy()?;
    let value = value.copy()?;
    Ok(Command::Publish {
        server,
        strings,
        value,
    })
}

fn copy_return(handle: Handle, value: &Value) -> Result<Command, Memory>
    ensures { IfOk result (λ copy. copy ≡ Command.Return handle value.now) }
{
    let value = value.copy()?;
    Ok(Command::Return { handle, value })
}
