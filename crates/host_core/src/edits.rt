//! A host's edits of its book.

ghost use Rattle.std.specs.Prelude.{◌≡◌, IfOk, OnErr};
ghost use Rattle.host_core.specs.HostState.{Answers};
ghost use Rattle.host_core.specs.Standing.{IsStep, KeepsNumbers, KeepsStates};
ghost use Rattle.workbook.specs.Step.{is_builtin};
ghost use Rattle.workbook.specs.declared.commands.Command.TheVariants as commands;

use super::round_books::RoundBook;
use addin_types::Registration;
use cell_refs::Cell;
use cell_values::{Memory, Name};
use functions::Function;
use rtd_server::RtdServer;
use workbook::{Content, Reply, SetFault};

#[tactic(none)]
impl<S: RtdServer + Drop> RoundBook<S> {
    /// Gives a cell this content.
    pub(super) fn set(&mut self, cell: Cell, content: Content) -> Result<Reply, Memory>
        ensures step { (answer : Answers)
            → IfOk result (IsStep S.state answer self.old self.new (commands.Set cell content)) }
        ensures refused { (answer : Answers)
            → OnErr result (KeepsStates S.state answer self.old self.new) }
        ensures numbers { KeepsNumbers self.old self.new }
    {
        if self.running {
            return Ok(Reply::Busy(self.round));
        }
        match self.calc.set(cell, content) {
            Ok(()) => Ok(Reply::Ok),
            Err(SetFault::CellLimit(_)) => Ok(Reply::CellLimit),
            Err(SetFault::FormulaLimit(_)) => Ok(Reply::FormulaLimit),
            Err(SetFault::Memory(_)) => Err(Memory),
        }
    }

    /// Takes the content of a cell away.
    pub(super) fn clear(&mut self, cell: Cell) -> Result<Reply, Memory>
        ensures step { (answer : Answers)
            → IfOk result (IsStep S.state answer self.old self.new (commands.Clear cell)) }
        ensures refused { (answer : Answers)
            → OnErr result (KeepsStates S.state answer self.old self.new) }
        ensures numbers { KeepsNumbers self.old self.new }
    {
        if self.running {
            return Ok(Reply::Busy(self.round));
        }
        match self.calc.clear(cell) {
            Ok(()) => Ok(Reply::Ok),
            Err(Memory) => Err(Memory),
        }
    }

    /// Registers a function, in place of any of that name.
    pub(super) fn register(
        &mut self,
        name: Name,
        registration: Registration,
    ) -> Result<Reply, Memory>
        ensures step { (answer : Answers) → IfOk result (IsStep S.state answer self.old self.new
            (commands.Register name registration)) }
        ensures refused { (answer : Answers)
            → OnErr result (KeepsStates S.state answer self.old self.new) }
        ensures numbers { KeepsNumbers self.old self.new }
    {
        if self.running {
            return Ok(Reply::Busy(self.round));
        }
        if is_reserved(&name) {
            return Ok(Reply::Builtin);
        }
        match self.calc.register(name, registration) {
            Ok(()) => Ok(Reply::Ok),
            Err(Memory) => Err(Memory),
        }
    }
}

/// Whether no function can be registered by this name: a built-in one has it, or RTD.
fn is_reserved(name: &Name) -> bool
    ensures { result ≡ is_builtin name.now }
{
    Function::of(name.as_str()).is_some() || name.as_str() == "RTD"
}
