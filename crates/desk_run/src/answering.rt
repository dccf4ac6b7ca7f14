//! Acts on the lines of a script and appends what they are answered with.

ghost use Rattle.std.specs.Prelude.{◌≡◌, ◌≢◌, ◌++◌, ◌⊎◌, [], ◌∷◌, Ok, Err, IfOk, IfErr, OnOk, OnErr, length, true};
ghost use Rattle.session_script.specs.Faults.{fault_text};
ghost use Rattle.session_script.specs.Script.{IsParsedInForm, line_said};
ghost use Rattle.sheet_print.specs.Replies.{bad_text, reply_text};
ghost use Rattle.workbook.specs.declared.commands.Command.TheVariants as commands;
ghost use Rattle.workbook.specs.Desk.{desk_with};
ghost use Rattle.workbook.specs.InForm.{IsInForm};
ghost use Rattle.desk_run.specs.Output.{commands_of_parsed, commands_said};
ghost use Rattle.desk_run.specs.Session.{HasActed, HasRefused, HasSaid, refusal_of};

use super::bad_lines::answer_bad;
use cell_values::Memory;
use session_script::{BadLine, Parsed, read_line};
use sheet_print::reply_text;
use std::alloc::Global;
use workbook::{BeginKind, Command, Desk, DeskFault, Reply};

/// Why a line isn't answered.
#[derive(Clone, Copy, Debug, PartialEq, Eq)]
pub enum Refusal {
    /// A command came, and the history of the desk is full.
    Full,
    /// Memory ran out.
    Memory,
}

impl From<Memory> for Refusal {
    ghost use Rattle.std.specs.Prelude.{◌≡◌};
    ghost use Rattle.desk_run.specs.declared.answering.Refusal.TheVariants as refusals;

    ghost from_gives = { λ _ refusal. refusal ≡ refusals.Memory };

    fn from(_error: Memory) -> Refusal {
        Refusal::Memory
    }
}

/// Acts on a line without its end and appends what it is answered with: up to the first command that the desk refuses.
/// Answers how many commands it says.
pub fn answer_line<D: Desk>(
    alloc: Global,
    desk: &mut D,
    line: &[u8],
    out: &mut Vec<u8>,
) -> Result<u64, Refusal>
    ensures said { OnOk result (HasSaid D.answer (line_said line.now) (D.state desk.old)
        (D.state desk.new) out.old.items out.new.items) }
    ensures count { IfOk result (λ count. count ≡ length (commands_said (line_said line.now))) }
    ensures refused { IfErr result (HasRefused D.answer (commands_said (line_said line.now))
        (D.state desk.old) (D.state desk.new) out.old.items out.new.items) }
{
    match read_line(alloc, line) {
        Ok(said) => answer_parsed(desk, said, out),
        Err(fault) => answer_fault(alloc, fault, out),
    }
}

/// Appends the reply to a bad line, which says no command.
pub fn answer_fault(alloc: Global, fault: BadLine, out: &mut Vec<u8>) -> Result<u64, Refusal>
    ensures ok { OnOk result ((fault ≢ BadLine.Memory)
        × (out.new.items ≡ out.old.items ++ bad_text (fault_text fault))) }
    ensures count { IfOk result (λ count. count ≡ 0) }
    ensures err { OnErr result (out.new.items ≡ out.old.items) }
    ensures memory { IfErr result (λ refusal. refusal ≡ Refusal.Memory) }
{
    if fault == BadLine::Memory {
        return Err(Refusal::Memory);
    }
    answer_bad(alloc, fault, out)?;
    Ok(0)
}

/// Acts on what a line says.
fn answer_parsed<D: Desk>(desk: &mut D, said: Parsed, out: &mut Vec<u8>) -> Result<u64, Refusal>
    requires form { IsParsedInForm said }
    ensures acted { OnOk result (HasActed D.answer (commands_of_parsed said) (D.state desk.old)
        (D.state desk.new) out.old.items out.new.items) }
    ensures count { IfOk result (λ count. count ≡ length (commands_of_parsed said)) }
    ensures refused { IfErr result (HasRefused D.answer (commands_of_parsed said)
        (D.state desk.old) (D.state desk.new) out.old.items out.new.items) }
{
    match said {
        Parsed::Empty => Ok(0),
        Parsed::One(command) => {
            act(desk, command, out)?;
            Ok(1)
        }
        Parsed::Calc(kind) => {
            calculate(desk, kind, out)?;
            Ok(2)
        }
    }
}

/// Begins a recalculation and settles it. Where the begin is the last command that is answered, its reply is appended.
fn calculate<D: Desk>(desk: &mut D, kind: BeginKind, out: &mut Vec<u8>) -> Result<(), Refusal>
    ensures acted { OnOk result (HasActed D.answer (commands_of_parsed (Parsed.Calc kind))
        (D.state desk.old) (D.state desk.new) out.old.items out.new.items) }
    ensures refused { IfErr result (HasRefused D.answer (commands_of_parsed (Parsed.Calc kind))
        (D.state desk.old) (D.state desk.new) out.old.items out.new.items) }
{
    act(desk, Command::Begin(kind), out)?;
    act(desk, Command::Settle, out)
}

/// Acts on a command and appends the reply's lines.
fn act<D: Desk>(desk: &mut D, command: Command, out: &mut Vec<u8>) -> Result<(), Refusal>
    requires form { IsInForm command }
    ensures acted { OnOk result (HasActed D.answer (command ∷ []) (D.state desk.old)
        (D.state desk.new) out.old.items out.new.items) }
    ensures refused { IfErr result (HasRefused D.answer (command ∷ []) (D.state desk.old)
        (D.state desk.new) out.old.items out.new.items) }
{
    match desk.act(command) {
        Ok(reply) => append(reply, out),
        Err(fault) => Err(refusal_at(fault)),
    }
}

/// Appends a reply's lines.
fn append(reply: Reply, out: &mut Vec<u8>) -> Result<(), Refusal>
    ensures ok { OnOk result (out.new.items ≡ out.old.items ++ reply_text reply) }
    ensures err { OnErr result (out.new.items ≡ out.old.items) }
    ensures memory { IfErr result (λ refusal. refusal ≡ Refusal.Memory) }
{
    reply_text(&reply, out)?;
    Ok(())
}

/// Why a line isn't answered whose command the desk gives back.
fn refusal_at(fault: DeskFault) -> Refusal
    ensures { result ≡ refusal_of fault }
{
    match fault {
        DeskFault::Full(_) => Refusal::Full,
        DeskFault::Memory(_) => Refusal::Memory,
    }
}
