//! The values that come back for a host's asynchronous calls.

ghost use Rattle.std.specs.Prelude.{◌≡◌, ◌<◌, ◌≤◌, ◌+◌, ◌++◌, ◌∷◌, [], true, IfOk, IfErr, OnOk, OnErr};
ghost use Rattle.async_handles.specs.OpenCalls.{is_live};
ghost use Rattle.command_log.specs.Log.{accepted_entry};
ghost use Rattle.host_core.specs.HostState.{Answers};
ghost use Rattle.host_core.specs.Standing.{AsksForCall, IsAccepted, IsStep, KeepsNumbers, KeepsStates, StandsForSome, StandsIn, TellsCall};
ghost use Rattle.workbook.specs.declared.commands.Command.TheVariants as commands;

use super::round_books::RoundBook;
use addin_types::AddIns;
use cell_refs::Handle;
use cell_values::{Memory, Value};
use rtd_server::RtdServer;
use workbook::{Command, Entry, Reply};

#[tactic(none)]
impl<S: RtdServer + Drop> RoundBook<S> {
    /// Answers the return of a value, and puts it at the end of the answered commands. A refusal gives the value back.
    pub(super) fn take_return<F: AddIns>(
        &mut self,
        addins: &F,
        actor: u32,
        handle: Handle,
        value: Value,
    ) -> Result<Reply, Value>
        requires log_room { 0 < self.old.log.room }
        requires stands { StandsIn S.state F.answer self.old }
        ensures step { IfOk result (IsStep S.state F.answer self.old self.new
            (commands.Return handle value)) }
        ensures entries { OnOk result (self.new.log.entries ≡ self.old.log.entries
            ++ (accepted_entry actor handle value) ∷ []) }
        ensures log_room { OnOk result (self.old.log.room ≤ self.new.log.room + 1) }
        ensures round { self.new.round ≡ self.old.round }
        ensures room { self.new.events.room ≡ self.old.events.room }
        ensures back { IfErr result (λ back. back ≡ value) }
        ensures refused { OnErr result (KeepsStates S.state F.answer self.old self.new) }
        ensures same_numbers { OnErr result (KeepsNumbers self.old self.new) }
    {
        match self.asks_for(addins, &handle) {
            Ok(true) => {
                self.accept(actor, handle, value);
                Ok(Reply::Code(0))
            }
            Ok(false) => {
                self.note(Entry {
                    actor,
                    command: Command::Return { handle, value },
                });
                Ok(Reply::Code(256))
            }
            Err(Memory) => Err(value),
        }
    }

    /// Whether the call of a handle is open, where all that can be has been evaluated first; then there is room for its value.
    fn asks_for<F: AddIns>(&mut self, addins: &F, handle: &Handle) -> Result<bool, Memory>
        requires stands { StandsIn S.state F.answer self.old }
        ensures told { IfOk result (λ asks. TellsCall S.state F.answer self.old handle.now asks) }
        ensures asked { IfOk result (λ asks. asks ≡ true
            → AsksForCall S.state F.answer self.old self.new handle.now) }
        ensures kept { KeepsStates S.state F.answer self.old self.new }
        ensures numbers { KeepsNumbers self.old self.new }
    {
        if !self.running {
            return Ok(false);
        }
        match self.work_out(addins) {
            Ok(()) => match self.log.reserve(1) {
                Ok(()) => Ok(self.calc.is_open(handle)),
                Err(Memory) => Err(Memory),
            },
            Err(Memory) => Err(Memory),
        }
    }

    /// Accepts the value of an open call, for which there is room. It takes no memory.
    fn accept(&mut self, actor: u32, handle: Handle, value: Value)
        requires log_room { 0 < self.old.log.room }
        requires spare { 0 < self.old.log.spare }
        requires runs { self.old.running ≡ true }
        requires stands { StandsForSome S.state self.old }
        requires live { is_live self.old.calc.work.calls.calls handle ≡ true }
        ensures accepted { (answer : Answers)
            → IsAccepted S.state answer self.old self.new handle value }
        ensures entries { self.new.log.entries ≡ self.old.log.entries
            ++ (accepted_entry actor handle value) ∷ [] }
        ensures log_room { self.old.log.room ≤ self.new.log.room + 1 }
        ensures round { self.new.round ≡ self.old.round }
        ensures room { self.new.events.room ≡ self.old.events.room }
    {
        self.log.accept(actor, handle, value);
        self.rtd.forget(handle.cell);
        let _ = self.calc.redeem(&handle);
    }
}
