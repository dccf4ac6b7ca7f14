//! A host's recalculations, and what its sheet shows.

ghost use Rattle.std.specs.Prelude.{◌≡◌, ◌<◌, ◌+◌, ◌^◌, [], true, false, IfOk, OnOk, OnErr, length};
ghost use Rattle.host_core.specs.HostState.{Answers};
ghost use Rattle.host_core.specs.Standing.{IsStep, KeepsNumbers, KeepsStates, IsNoCallAsked, IsSettledStep, MovesNumbers, SettlesStates, StandsForSome, StandsIn};
ghost use Rattle.workbook.specs.declared.commands.Command.TheVariants as commands;

use super::round_books::RoundBook;
use addin_types::AddIns;
use cell_values::{Event, Memory};
use rtd_server::RtdServer;
use workbook::{BeginKind, Calls, Form, Reply, SheetCells};

#[tactic(none)]
impl<S: RtdServer + Drop> RoundBook<S> {
    /// Begins the next recalculation, over what is published now.
    pub(super) fn begin(&mut self, kind: BeginKind) -> Result<Reply, Memory>
        requires fits { self.old.round + 1 < 2 ^ 64 }
        requires stands { StandsForSome S.state self.old }
        ensures step { (answer : Answers)
            → IfOk result (IsStep S.state answer self.old self.new (commands.Begin kind)) }
        ensures refused { (answer : Answers)
            → OnErr result (KeepsStates S.state answer self.old self.new) }
        ensures numbers { OnOk result (MovesNumbers self.old self.new) }
        ensures same_numbers { OnErr result (KeepsNumbers self.old self.new) }
    {
        if self.running {
            return Ok(Reply::Busy(self.round));
        }
        match self.calc.begin(kind) {
            Ok(forgotten) => {
                self.round += 1;
                self.running = true;
                let cells = forgotten.as_slice();
                self.log.forget(cells);
                self.rtd.begin_round(self.round, cells);
                Ok(Reply::Begun(self.round))
            }
            Err(Memory) => Err(Memory),
        }
    }

    /// Completes the recalculation that runs, or tells for which calls it waits.
    pub(super) fn settle<F: AddIns>(&mut self, addins: &F) -> Result<Reply, Memory>
        requires room { 0 < self.old.events.room }
        requires stands { StandsIn S.state F.answer self.old }
        ensures step { IfOk result (IsStep S.state F.answer self.old self.new commands.Settle) }
        ensures refused { OnErr result (KeepsStates S.state F.answer self.old self.new) }
        ensures numbers { OnOk result (MovesNumbers self.old self.new) }
        ensures same_numbers { OnErr result (KeepsNumbers self.old self.new) }
    {
        if !self.running {
            return Ok(Reply::Idle);
        }
        match self.work_out(addins) {
            Ok(()) => self.end(),
            Err(Memory) => Err(Memory),
        }
    }

    /// Evaluates what can be, in the recalculation that runs.
    pub(super) fn work_out<F: AddIns>(&mut self, addins: &F) -> Result<(), Memory>
        requires runs { self.old.running ≡ true }
        requires stands { StandsIn S.state F.answer self.old }
        ensures settled { OnOk result (SettlesStates S.state F.answer self.old self.new) }
        ensures kept { KeepsStates S.state F.answer self.old self.new }
        ensures runs { self.new.running ≡ true }
        ensures numbers { KeepsNumbers self.old self.new }
    {
        self.calc
            .work_out(self.round, &self.log, addins, &mut self.rtd)
    }

    /// Ends the recalculation that runs where no call is open, and else tells the open calls.
    fn end(&mut self) -> Result<Reply, Memory>
        requires room { 0 < self.old.events.room }
        requires runs { self.old.running ≡ true }
        requires stands { StandsForSome S.state self.old }
        ensures step { (answer : Answers) → IfOk result (IsSettledStep S.state answer self.old
            self.new commands.Settle) }
        ensures refused { (answer : Answers)
            → OnErr result (KeepsStates S.state answer self.old self.new) }
        ensures numbers { OnOk result (MovesNumbers self.old self.new) }
        ensures same_numbers { OnErr result (KeepsNumbers self.old self.new) }
    {
        if self.calc.has_open_calls() {
            return match self.calc.calls() {
                Ok(calls) => Ok(Reply::Waiting {
                    round: self.round,
                    calls: Calls::from_vec(calls),
                }),
                Err(Memory) => Err(Memory),
            };
        }
        Ok(self.complete())
    }

    /// Completes the recalculation that runs, where no call is open. It takes no memory.
    fn complete(&mut self) -> Reply
        requires room { 0 < self.old.events.room }
        requires runs { self.old.running ≡ true }
        requires stands { StandsForSome S.state self.old }
        requires none { self.old.calc.work.calls.calls ≡ [] }
        requires asked { IsNoCallAsked S.state self.old }
        ensures step { (answer : Answers)
            → IsSettledStep S.state answer self.old self.new commands.Settle result }
        ensures numbers { MovesNumbers self.old self.new }
    {
        let cells = self.calc.complete();
        self.rtd.complete_round();
        self.running = false;
        self.events.fire(Event::Ended(self.round));
        Reply::Done {
            round: self.round,
            cells,
        }
    }

    /// Gives up the recalculation that runs: nothing of it is shown. It takes no memory.
    pub(super) fn cancel(&mut self) -> Reply
        requires room { 0 < self.old.events.room }
        requires stands { StandsForSome S.state self.old }
        ensures step { (answer : Answers)
            → IsStep S.state answer self.old self.new commands.Cancel result }
        ensures numbers { MovesNumbers self.old self.new }
    {
        if !self.running {
            return Reply::Idle;
        }
        self.calc.cancel();
        self.rtd.cancel_round();
        self.running = false;
        self.events.fire(Event::Cancelled(self.round));
        Reply::Cancelled(self.round)
    }

    /// The sheet of the last completed recalculation.
    pub(super) fn print(&self, form: Form) -> Result<Reply, Memory>
        ensures step { (answer : Answers)
            → IfOk result (IsStep S.state answer self.now self.now (commands.Print form)) }
    {
        match self.calc.sheet() {
            Ok(cells) => Ok(Reply::Sheet {
                form,
                cells: SheetCells::from_vec(cells),
            }),
            Err(Memory) => Err(Memory),
        }
    }
}
