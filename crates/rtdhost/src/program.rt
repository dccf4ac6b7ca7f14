//! The program: its words, the script that it reads, and the status that it ends with.

ghost use Rattle.std.specs.Process.{exit_status};
ghost use Rattle.std.specs.Prelude.{◌≡◌, ◌≢◌, ◌⊎◌, ◌<◌, ◌≤◌, ℕ, List, [], Some, IfErr, IfOk, OnOk, OnErr, length, take, drop, true, false};
ghost use Rattle.workbook.specs.State.{first_state};
ghost use Rattle.host_io.specs.declared.limits.TheConstants.{MAX_INPUT};
ghost use Rattle.host_io.specs.Count.{Rose};
ghost use Rattle.host_io.specs.Lines.{lines_of, whole_lines};
ghost use Rattle.desk_run.specs.Output.{commands_in, replies_from, replies_within};
ghost use Rattle.desk_run.specs.Run.{IsCaused};
ghost use Rattle.rtdhost.specs.Output.{output_of, program_terms};
ghost use Rattle.rtdhost.specs.Endings.{HasEnded, IsFaultCounted, status_of};
ghost use Rattle.rtdhost.specs.Program.{exit_code};
ghost use Rattle.rtdhost.specs.Session.{HasFinished, HasStopped};
ghost use Rattle.rtdhost.specs.Words.{is_run, texts, usage_line};
ghost use Rattle.host_io.specs.Sink.{Appends, AppendsPrefix};

use addin_types::SampleAddIns;
use desk_run::run_desk;
use host_core::{Host, PlainDesk};
use host_io::{RunFault, Sink, Source, put};
use rtd_server::FeedMaker;
use std::alloc::Global;
use std::process::ExitCode;

/// The most commands that are answered.
pub const MAX_COMMANDS: usize = 1_000_000;

/// How the program ends.
#[derive(Clone, Copy, Debug, PartialEq, Eq)]
pub enum Status {
    /// All was read, answered and handed on.
    Ok,
    /// The words are not the program's.
    Usage,
    /// The source failed.
    ReadFault,
    /// The sink failed.
    WriteFault,
    /// Memory ran out.
    Memory,
    /// A byte came after 67,108,864 bytes were taken.
    InputLimit,
    /// A command came after 1,000,000 were answered.
    SessionFull,
}

impl Status {
    /// The exit status of the process, from 0 to 7.
    pub fn code(self) -> u8
        ensures { result ≡ exit_code self }
    {
        match self {
            Status::Ok => 0,
            Status::Usage => 2,
            Status::ReadFault => 3,
            Status::WriteFault => 4,
            Status::Memory => 5,
            Status::InputLimit => 6,
            Status::SessionFull => 7,
        }
    }
}

/// Ends the process with the exit status of this status.
pub fn exit_with(status: Status) -> ExitCode
    ensures { exit_status result ≡ exit_code status }
{
    ExitCode::from(status.code())
}

/// Reads a script from `src` to its end, acts on each line, and writes the answers to `out`. The words are those behind
/// the program's name: the one word `run`; for all others the usage is written, and nothing is read.
///
/// Where the status is Ok, the bytes written are the answers that the defined steps give to the lines read, one after
/// the other, from an empty workbook on.
pub fn rtd_host_plain<I: Source, O: Sink>(
    alloc: Global,
    words: &[String],
    src: &mut I,
    out: &mut O,
) -> Status
    // With Ok all bytes were read, and what was written is the output that is defined for them.
    ensures ok_written { (input : List ℕ) → I.remaining src.old ≡ Some input → result ≡ Status.Ok
        → Appends (O.written out.old) (output_of (texts words.now) input) (O.written out.new) }
    ensures ok_read { (input : List ℕ) → I.remaining src.old ≡ Some input → result ≡ Status.Ok
        → I.remaining src.new ≡ Some [] }
    ensures ok_run { result ≡ Status.Ok → is_run (texts words.now) ≡ true }

    // All that was written is handed on with every status but WriteFault.
    ensures finished { (result ≡ Status.WriteFault) ⊎ (O.is_finished out.new ≡ true) }

    // Other words are answered by the usage, and nothing is read.
    ensures usage { result ≡ Status.Usage → is_run (texts words.now) ≡ false }
    ensures usage_line { result ≡ Status.Usage
        → Appends (O.written out.old) usage_line (O.written out.new) }
    ensures refused { is_run (texts words.now) ≡ false → (result ≡ Status.Usage)
        ⊎ (result ≡ Status.WriteFault) }
    ensures unread { is_run (texts words.now) ≡ false → src.new ≡ src.old }

    // Each failure that was counted in this call is answered, and none is answered that was not.
    ensures write_passed_on { (result ≡ Status.WriteFault) ⊎ (O.faults out.new ≡ O.faults out.old) }
    ensures read_passed_on { (result ≡ Status.ReadFault)
        ⊎ ((result ≡ Status.WriteFault) ⊎ (I.faults src.new ≡ I.faults src.old)) }
    ensures read_fault { result ≡ Status.ReadFault → Rose (I.faults src.old) (I.faults src.new) }
    ensures write_fault { result ≡ Status.WriteFault → Rose (O.faults out.old) (O.faults out.new) }

    // Before a failed read and at the limit, all whole lines of the bytes that were taken were answered, and these say no
    // more commands than are.
    ensures read_answered { (input : List ℕ) → I.remaining src.old ≡ Some input
        → result ≡ Status.ReadFault
        → (n : ℕ) × (I.remaining src.new ≡ Some (drop n input))
        × Appends (O.written out.old) (replies_from program_terms first_state (whole_lines (take n input)))
        (O.written out.new)
        × (commands_in (whole_lines (take n input)) ≤ program_terms.limit) }
    ensures limit { (input : List ℕ) → I.remaining src.old ≡ Some input → result ≡ Status.InputLimit
        → MAX_INPUT < length input }
    ensures limit_answered { (input : List ℕ) → I.remaining src.old ≡ Some input
        → result ≡ Status.InputLimit
        → Appends (O.written out.old) (replies_from program_terms first_state
        (whole_lines (take MAX_INPUT input))) (O.written out.new) }
    ensures limit_commands { (input : List ℕ) → I.remaining src.old ≡ Some input
        → result ≡ Status.InputLimit
        → commands_in (whole_lines (take MAX_INPUT input)) ≤ program_terms.limit }
    ensures within { (input : List ℕ) → I.remaining src.old ≡ Some input → result ≡ Status.Ok
        → length input ≤ MAX_INPUT }

    // A session is full exactly where the lines say more commands than are answered. The replies to those are written.
    ensures full { (input : List ℕ) → I.remaining src.old ≡ Some input
        → result ≡ Status.SessionFull
        → program_terms.limit < commands_in (lines_of input) }
    ensures full_answered { (input : List ℕ) → I.remaining src.old ≡ Some input
        → result ≡ Status.SessionFull
        → Appends (O.written out.old)
        (replies_within program_terms program_terms.limit first_state (lines_of input)) (O.written out.new) }
    ensures within_commands { (input : List ℕ) → I.remaining src.old ≡ Some input
        → result ≡ Status.Ok → commands_in (lines_of input) ≤ program_terms.limit }

    // With every status a prefix of the defined output was written, and nothing else.
    ensures prefix { (input : List ℕ) → I.remaining src.old ≡ Some input
        → AppendsPrefix (O.written out.old) (output_of (texts words.now) input)
        (O.written out.new) }

    // With no cause for another status it is Ok, or Memory, which alone has none.
    ensures complete { (input : List ℕ) → I.remaining src.old ≡ Some input
        → is_run (texts words.now) ≡ true → length input ≤ MAX_INPUT
        → commands_in (lines_of input) ≤ program_terms.limit
        → (Rose (I.faults src.old) (I.faults src.new) → ⊥)
        → (Rose (O.faults out.old) (O.faults out.new) → ⊥)
        → (result ≡ Status.Ok) ⊎ (result ≡ Status.Memory) }
{
    let status = respond(alloc, words, src, out);
    match out.finish() {
        Ok(()) => status,
        Err(_) => Status::WriteFault,
    }
}

/// Runs the script or writes the usage.
fn respond<I: Source, O: Sink>(alloc: Global, words: &[String], src: &mut I, out: &mut O) -> Status
    ensures ended { (input : List ℕ) → I.remaining src.old ≡ Some input
        → HasEnded result (texts words.now) input (O.written out.old) (I.remaining src.new)
        (O.written out.new) }
    ensures counted { IsFaultCounted result (I.faults src.old) (I.faults src.new) (O.faults out.old)
        (O.faults out.new) }
    ensures writes { O.faults out.old ≤ O.faults out.new }
    ensures ok { result ≡ Status.Ok → is_run (texts words.now) ≡ true }
    ensures usage { result ≡ Status.Usage → (is_run (texts words.now) ≡ false)
        × Appends (O.written out.old) usage_line (O.written out.new) }
    ensures refused { is_run (texts words.now) ≡ false → (src.new ≡ src.old)
        × ((result ≡ Status.Usage) ⊎ (result ≡ Status.WriteFault)) }
{
    if !is_run(words) {
        return refuse(out);
    }
    match run(alloc, src, out) {
        Ok(_) => Status::Ok,
        Err(stop) => status_at(stop),
    }
}

/// Reads a script to its end. Answers how many commands there were.
fn run<I: Source, O: Sink>(alloc: Global, src: &mut I, out: &mut O) -> Result<u64, RunFault>
    ensures finished { (input : List ℕ) → I.remaining src.old ≡ Some input
        → OnOk result (HasFinished input (O.written out.old) (I.remaining src.new)
        (O.written out.new)) }
    ensures stopped { (input : List ℕ) → I.remaining src.old ≡ Some input
        → IfErr result (λ stop. HasStopped stop input (O.written out.old) (I.remaining src.new)
        (O.written out.new)) }
    ensures steady { OnOk result ((I.faults src.new ≡ I.faults src.old)
        × (O.faults out.new ≡ O.faults out.old)) }
    ensures caused { IfErr result (λ stop. IsCaused stop (I.faults src.old) (I.faults src.new)
        (O.faults out.old) (O.faults out.new)) }
    ensures writes { O.faults out.old ≤ O.faults out.new }
{
    let mut desk = open_desk(alloc)?;
    run_desk(alloc, &mut desk, src, out)
}

/// A desk at a host without a book.
pub fn open_desk(alloc: Global) -> Result<PlainDesk<FeedMaker, SampleAddIns>, RunFault>
    ensures desk { IfOk result (λ desk. desk
        ≡ record { session = 1; limit = program_terms.limit; history = [] }) }
    ensures memory { IfErr result (λ stop. stop ≡ RunFault.Memory) }
{
    match Host::open(alloc, 1, MAX_COMMANDS, FeedMaker, SampleAddIns) {
        Ok(host) => Ok(PlainDesk::new(host)),
        Err(_) => Err(RunFault::Memory),
    }
}

/// Writes the usage.
fn refuse<O: Sink>(out: &mut O) -> Status
    ensures usage { result ≡ Status.Usage
        → Appends (O.written out.old) usage_line (O.written out.new) }
    ensures fault { result ≡ Status.WriteFault
        → AppendsPrefix (O.written out.old) usage_line (O.written out.new)
        × Rose (O.faults out.old) (O.faults out.new) }
    ensures either { (result ≡ Status.Usage) ⊎ (result ≡ Status.WriteFault) }
    ensures steady { result ≡ Status.Usage → O.faults out.new ≡ O.faults out.old }
    ensures writes { O.faults out.old ≤ O.faults out.new }
{
    match put(out, b"usage: rtdhost run\n") {
        Ok(()) => Status::Usage,
        Err(_) => Status::WriteFault,
    }
}

/// Whether the words are the one word `run`.
fn is_run(words: &[String]) -> bool
    ensures { result ≡ is_run (texts words.now) }
{
    match words {
        [word] => word.as_str() == "run",
        _ => false,
    }
}

/// The status of a session that stopped early.
fn status_at(stop: RunFault) -> Status
    ensures { result ≡ status_of stop }
{
    match stop {
        RunFault::Read => Status::ReadFault,
        RunFault::Write => Status::WriteFault,
        RunFault::Limit => Status::InputLimit,
        RunFault::Memory => Status::Memory,
        RunFault::Full => Status::SessionFull,
    }
}
