//! Reads the lines that speak of servers of real-time data, and of listeners.

ghost use Rattle.std.specs.Prelude.{◌≡◌, ◌⊎◌, Err, IfOk, IfErr};
ghost use Rattle.workbook.specs.declared.commands.Command.TheVariants as commands;
ghost use Rattle.session_script.specs.Script.{named_said, publish_said, published_said, pull_said, throttle_said};

use super::arguments::{cut, interval_of, moment_of, read_name, value_of};
use super::cells::one_alone;
use super::faults::BadLine;
use super::parsed::Parsed;
use super::strings::{cut_outside, read_strings};
use cell_values::Name;
use std::alloc::Global;
use workbook::Command;

/// Reads what stands behind `server` and its space.
pub fn read_server(alloc: Global, text: &str) -> Result<Parsed, BadLine>
    ensures said { IfOk result (λ said. named_said commands.Server text.now ≡ Ok said) }
    ensures fault { IfErr result (λ fault. (fault ≡ BadLine.Memory)
        ⊎ (named_said commands.Server text.now ≡ Err fault)) }
{
    let (name, _) = cut(text);
    let name = read_name(alloc, name)?;
    one_alone(text, Command::Server(name))
}

/// Reads what stands behind `notify` and its space.
pub fn read_notify(alloc: Global, text: &str) -> Result<Parsed, BadLine>
    ensures said { IfOk result (λ said. named_said commands.Notify text.now ≡ Ok said) }
    ensures fault { IfErr result (λ fault. (fault ≡ BadLine.Memory)
        ⊎ (named_said commands.Notify text.now ≡ Err fault)) }
{
    let (name, _) = cut(text);
    let name = read_name(alloc, name)?;
    one_alone(text, Command::Notify(name))
}

/// Reads what stands behind `listen` and its space.
pub fn read_listen(alloc: Global, text: &str) -> Result<Parsed, BadLine>
    ensures said { IfOk result (λ said. named_said commands.Listen text.now ≡ Ok said) }
    ensures fault { IfErr result (λ fault. (fault ≡ BadLine.Memory)
        ⊎ (named_said commands.Listen text.now ≡ Err fault)) }
{
    let (name, _) = cut(text);
    let name = read_name(alloc, name)?;
    one_alone(text, Command::Listen(name))
}

/// Reads what stands behind `events` and its space.
pub fn read_events(alloc: Global, text: &str) -> Result<Parsed, BadLine>
    ensures said { IfOk result (λ said. named_said commands.Events text.now ≡ Ok said) }
    ensures fault { IfErr result (λ fault. (fault ≡ BadLine.Memory)
        ⊎ (named_said commands.Events text.now ≡ Err fault)) }
{
    let (name, _) = cut(text);
    let name = read_name(alloc, name)?;
    one_alone(text, Command::Events(name))
}

/// Reads what stands behind `publish` and its space.
pub fn read_publish(alloc: Global, text: &str) -> Result<Parsed, BadLine>
    ensures said { IfOk result (λ said. publish_said text.now ≡ Ok said) }
    ensures fault { IfErr result (λ fault. (fault ≡ BadLine.Memory)
        ⊎ (publish_said text.now ≡ Err fault)) }
{
    let (name, rest) = cut(text);
    let server = read_name(alloc, name)?;
    read_published(alloc, server, rest)
}

/// Reads what a server publishes: strings and a value.
fn read_published(alloc: Global, server: Name, text: &str) -> Result<Parsed, BadLine>
    ensures said { IfOk result (λ said. published_said server text.now ≡ Ok said) }
    ensures fault { IfErr result (λ fault. (fault ≡ BadLine.Memory)
        ⊎ (published_said server text.now ≡ Err fault)) }
{
    let (strings, rest) = cut_outside(b' ', text);
    let strings = read_strings(alloc, strings)?;
    let value = value_of(alloc, rest)?;
    Ok(Parsed::One(Command::Publish {
        server,
        strings,
        value,
    }))
}

/// Reads what stands behind `throttle` and its space.
pub fn read_throttle(text: &str) -> Result<Parsed, BadLine>
    ensures { result ≡ throttle_said text.now }
{
    let interval = interval_of(text)?;
    Ok(Parsed::One(Command::Throttle(interval)))
}

/// Reads what stands behind `pull` and its space.
pub fn read_pull(text: &str) -> Result<Parsed, BadLine>
    ensures { result ≡ pull_said text.now }
{
    let moment = moment_of(text)?;
    Ok(Parsed::One(Command::Pull(moment)))
}
