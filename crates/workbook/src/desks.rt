ghost use Rattle.std.specs.Prelude.{◌≡◌, ◌<◌, ℕ, List, IfErr, IfOk, IsTrue, OnOk, length};
ghost use Rattle.cell_values.specs.declared.values.Value.{Value as OneValue};
ghost use Rattle.workbook.specs.Desk.{DeskState, IsDeskFault, desk_reply, desk_with};
ghost use Rattle.workbook.specs.InForm.{IsInForm};

use super::commands::Command;
use super::replies::Reply;

/// Why a desk doesn't answer a command; it is given back.
#[derive(Drop)]
pub enum DeskFault {
    /// The history has as many entries as may be.
    Full(Command),
    Memory(Command),
}

/// Takes commands, and keeps those that it answered as its history.
pub trait Desk {
    // Session, limit, whether no server ever fails, and the history.
    ghost state: { Self → DeskState };

    // What the add-in functions answer. It is the same for all desks of a type.
    ghost answer: { List ℕ → List OneValue → OneValue };

    /// Answers a command, which is then the next entry of the history. Where no server fails, the reply is that of the step
    /// in the state that the history gives, from nothing. A refusal changes nothing that shows.
    fn act(&mut self, command: Command) -> Result<Reply, DeskFault>
        requires form { IsInForm command }
        ensures reply { IsTrue (state self.old).steady → IfOk result (λ reply. reply
            ≡ desk_reply answer (state self.old) command) }
        ensures entry { OnOk result (state self.new ≡ desk_with (state self.old) command) }
        ensures room { OnOk result (length (state self.old).history < (state self.old).limit) }
        ensures fault { IfErr result (λ fault. IsDeskFault (state self.old) command fault
            × (state self.new ≡ state self.old)) };
}
