//! A host's servers of real-time data.

ghost use Rattle.std.specs.Prelude.{◌≡◌, ◌<◌, false, IfOk, OnErr};
ghost use Rattle.host_core.specs.HostState.{Answers};
ghost use Rattle.workbook.specs.InForm.{IsIntervalInForm};
ghost use Rattle.host_core.specs.Standing.{IsStep, KeepsNumbers, KeepsStates, StandsForSome};
ghost use Rattle.rtd_topics.specs.Parts.{rtd_of};
ghost use Rattle.rtd_topics.specs.RtdState.{names_known};
ghost use Rattle.workbook.specs.Pulling.{is_named};
ghost use Rattle.workbook.specs.declared.commands.Command.TheVariants as commands;

use super::round_books::RoundBook;
use cell_values::{Memory, Name, Texts, Value};
use rtd_server::{Maker, RtdServer};
use rtd_topics::NewServer;
use workbook::Reply;

#[tactic(none)]
impl<S: RtdServer + Drop> RoundBook<S> {
    /// Starts a server. The cells with an RTD call are changed.
    #[tactic(auto)]
    pub(super) fn server<M: Maker<Server = S>>(
        &mut self,
        maker: &mut M,
        name: &Name,
    ) -> Result<Reply, Memory>
        requires stands { StandsForSome S.state self.old }
        ensures step { (answer : Answers)
            → IfOk result (IsStep S.state answer self.old self.new (commands.Server name.now)) }
        ensures refused { (answer : Answers)
            → OnErr result (KeepsStates S.state answer self.old self.new) }
        ensures numbers { KeepsNumbers self.old self.new }
    {
        if self.running {
            return Ok(Reply::Busy(self.round));
        }
        if self.rtd.knows(name) {
            return Ok(Reply::Known);
        }
        match self.rtd.make_server(maker, name) {
            Ok(Some(server)) => self.admit(server),
            Ok(None) => unreachable!(),
            Err(Memory) => Err(Memory),
        }
    }

    /// Adds a server that was made and started.
    fn admit(&mut self, server: NewServer<S>) -> Result<Reply, Memory>
        requires rests { self.old.running ≡ false }
        requires room { 0 < self.old.rtd.room }
        requires unknown { is_named (names_known (rtd_of S.state self.old.rtd)) server.name
            ≡ false }
        ensures step { (answer : Answers)
            → IfOk result (IsStep S.state answer self.old self.new (commands.Server server.name)) }
        ensures refused { (answer : Answers)
            → OnErr result (KeepsStates S.state answer self.old self.new) }
        ensures numbers { KeepsNumbers self.old self.new }
    {
        match self.calc.note_rtd_callers() {
            Ok(()) => {
                // From here on nothing takes memory.
                self.rtd.add_server(server);
                Ok(Reply::Ok)
            }
            Err(Memory) => Err(Memory),
        }
    }

    /// A server publishes a value for the topic of these strings.
    pub(super) fn publish(
        &mut self,
        server: &Name,
        strings: &Texts,
        value: Value,
    ) -> Result<Reply, Memory>
        ensures step { (answer : Answers) → IfOk result (IsStep S.state answer self.old self.new
            (commands.Publish server.now strings.now value)) }
        ensures refused { (answer : Answers)
            → OnErr result (KeepsStates S.state answer self.old self.new) }
        ensures numbers { KeepsNumbers self.old self.new }
    {
        match self.rtd.publish(server, strings, value) {
            Ok(true) => Ok(Reply::Ok),
            Ok(false) => Ok(Reply::NoServer),
            Err(Memory) => Err(Memory),
        }
    }

    /// A server tells that it published. It takes no memory.
    pub(super) fn notify(&mut self, name: &Name) -> Reply
        ensures step { (answer : Answers)
            → IsStep S.state answer self.old self.new (commands.Notify name.now) result }
        ensures numbers { KeepsNumbers self.old self.new }
    {
        if self.rtd.notify(name) {
            Reply::Ok
        } else {
            Reply::NoServer
        }
    }

    /// Sets the interval between pulls. It takes no memory.
    #[tactic(auto)]
    pub(super) fn throttle(&mut self, interval: i64) -> Reply
        requires form { IsIntervalInForm interval }
        ensures step { (answer : Answers)
            → IsStep S.state answer self.old self.new (commands.Throttle interval) result }
        ensures numbers { KeepsNumbers self.old self.new }
    {
        if self.running {
            return Reply::Busy(self.round);
        }
        self.rtd.set_throttle(interval);
        Reply::Ok
    }
}
