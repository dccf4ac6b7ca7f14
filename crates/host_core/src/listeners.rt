//! A host's listeners.

ghost use Rattle.std.specs.Prelude.{IfOk, OnErr};
ghost use Rattle.host_core.specs.HostState.{Answers};
ghost use Rattle.host_core.specs.Standing.{IsStep, KeepsNumbers, KeepsStates};
ghost use Rattle.workbook.specs.declared.commands.Command.TheVariants as commands;

use super::round_books::RoundBook;
use cell_values::{Memory, Name};
use rtd_server::RtdServer;
use workbook::{EventList, Reply};

#[tactic(none)]
impl<S: RtdServer + Drop> RoundBook<S> {
    /// Adds a listener.
    pub(super) fn listen(&mut self, name: Name) -> Result<Reply, Memory>
        ensures step { (answer : Answers)
            → IfOk result (IsStep S.state answer self.old self.new (commands.Listen name)) }
        ensures refused { (answer : Answers)
            → OnErr result (KeepsStates S.state answer self.old self.new) }
        ensures numbers { KeepsNumbers self.old self.new }
    {
        match self.events.listen(name) {
            Ok(true) => Ok(Reply::Ok),
            Ok(false) => Ok(Reply::Known),
            Err(_) => Err(Memory),
        }
    }

    /// The events that a listener hasn't fetched yet.
    pub(super) fn fetch(&mut self, name: &Name) -> Result<Reply, Memory>
        ensures step { (answer : Answers)
            → IfOk result (IsStep S.state answer self.old self.new (commands.Events name.now)) }
        ensures refused { (answer : Answers)
            → OnErr result (KeepsStates S.state answer self.old self.new) }
        ensures numbers { KeepsNumbers self.old self.new }
    {
        match self.events.fetch(name.as_str()) {
            Ok(Some(events)) => Ok(Reply::Events(EventList::from_vec(events))),
            Ok(None) => Ok(Reply::NoListener),
            Err(Memory) => Err(Memory),
        }
    }
}
