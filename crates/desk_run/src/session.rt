//! Reads a script line by line, acts on each line and writes what it is answered with.

ghost use Rattle.std.specs.Prelude.{◌≡◌, ◌+◌, ◌<◌, ◌≤◌, ◌⊎◌, ℕ, List, [], Option, None, Some, Ok, Err, IfOk, IfErr, IsOk, OnOk, OnErr, MatchOption, true, false, length};
ghost use Rattle.host_io.specs.declared.limits.TheConstants.{MAX_INPUT};
ghost use Rattle.host_io.specs.Count.{Rose};
ghost use Rattle.host_io.specs.LineReader.{given_out_count, IsTextOf};
ghost use Rattle.host_io.specs.Lines.{has_feed};
ghost use Rattle.host_io.specs.Sink.{Appends, AppendsPrefix};
ghost use Rattle.session_script.specs.Script.{line_said};
ghost use Rattle.desk_run.specs.Output.{commands_said};
ghost use Rattle.desk_run.specs.Run.{IsCaused};
ghost use Rattle.desk_run.specs.Session.{HasRefused, HasSaid, HasText, IsBetween, IsFinished, IsReadCaused, IsRefusal, IsStopped, Place, has_text, place, refused_stop, stop_of};

use super::answering::{Refusal, answer_fault, answer_line};
use host_io::{Line, LineFault, Lines, RunFault, Sink, Source, put};
use session_script::BadLine;
use std::alloc::Global;
use workbook::Desk;

/// With so many bytes and more, what is held is handed over though a whole line is at hand.
const MOST_HELD: usize = 65_536;

/// A reader of lines, and the answers that aren't handed over yet.
#[derive(Drop)]
pub struct Session {
    alloc: Global,
    lines: Lines,
    held: Vec<u8>,
}

impl Session {
    /// A session that has read nothing and holds nothing.
    pub fn new(alloc: Global) -> Session
        ensures lines { result.lines
            ≡ record { pending = []; taken = 0; ended = false; fault = None } }
        ensures held { result.held.items ≡ [] }
    {
        Session {
            alloc,
            lines: Lines::new(alloc),
            held: Vec::new(alloc),
        }
    }

    /// Acts on all lines that the source gives. Answers how many commands they say.
    pub fn read_all<D: Desk, I: Source, O: Sink>(
        &mut self,
        desk: &mut D,
        src: &mut I,
        out: &mut O,
    ) -> Result<u64, RunFault>
        requires new { self.old.lines
            ≡ record { pending = []; taken = 0; ended = false; fault = None } }
        requires none { self.old.held.items ≡ [] }
        ensures finished { OnOk result (IsFinished D.answer
            (place self.old.lines (D.state desk.old) [] (I.remaining src.old) (O.written out.old))
            (place self.new.lines (D.state desk.new) self.new.held.items (I.remaining src.new)
            (O.written out.new))) }
        ensures stopped { IfErr result (IsStopped D.answer
            (place self.old.lines (D.state desk.old) [] (I.remaining src.old) (O.written out.old))
            (place self.new.lines (D.state desk.new) self.new.held.items (I.remaining src.new)
            (O.written out.new))) }
        ensures count { IfOk result (λ count. length (D.state desk.new).history
            ≡ length (D.state desk.old).history + count) }
        ensures steady { OnOk result ((I.faults src.new ≡ I.faults src.old)
            × (O.faults out.new ≡ O.faults out.old)) }
        ensures caused { IfErr result (λ stop. IsCaused stop (I.faults src.old) (I.faults src.new)
            (O.faults out.old) (O.faults out.new)) }
        ensures reads { I.faults src.old ≤ I.faults src.new }
        ensures writes { O.faults out.old ≤ O.faults out.new }
    {
        let mut answered = 0;
        while let Some(count) = self.turn(desk, src, out)? {
            answered += count;
        }
        Ok(answered)
    }

    /// Acts on the next line. Answers how many commands it says, None at the end of the input.
    fn turn<D: Desk, I: Source, O: Sink>(
        &mut self,
        desk: &mut D,
        src: &mut I,
        out: &mut O,
    ) -> Result<Option<u64>, RunFault>
        requires fault { self.old.lines.fault ≡ None }
        ensures next { (start : Place) → IsBetween D.answer start
            (place self.old.lines (D.state desk.old) self.old.held.items (I.remaining src.old)
            (O.written out.old))
            → IfOk result (λ more. MatchOption more
            (IsFinished D.answer start (place self.new.lines (D.state desk.new)
            self.new.held.items (I.remaining src.new) (O.written out.new)))
            (λ count. IsBetween D.answer start (place self.new.lines (D.state desk.new)
            self.new.held.items (I.remaining src.new) (O.written out.new)))) }
        ensures stopped { (start : Place) → IsBetween D.answer start
            (place self.old.lines (D.state desk.old) self.old.held.items (I.remaining src.old)
            (O.written out.old))
            → IfErr result (IsStopped D.answer start (place self.new.lines (D.state desk.new)
            self.new.held.items (I.remaining src.new) (O.written out.new))) }
        ensures count { IfOk result (λ more. MatchOption more
            (D.state desk.new ≡ D.state desk.old)
            (λ count. (count ≤ 2) × (length (D.state desk.new).history
            ≡ length (D.state desk.old).history + count))) }
        ensures steady { OnOk result ((I.faults src.new ≡ I.faults src.old)
            × (O.faults out.new ≡ O.faults out.old)) }
        ensures caused { IfErr result (λ stop. IsCaused stop (I.faults src.old) (I.faults src.new)
            (O.faults out.old) (O.faults out.new)) }
        ensures reads { I.faults src.old ≤ I.faults src.new }
        ensures writes { O.faults out.old ≤ O.faults out.new }
        ensures fault { OnOk result (self.new.lines.fault ≡ None) }
        ensures advances { IfOk result (λ more. MatchOption more (Unit {0})
            (λ count. given_out_count self.old.lines < given_out_count self.new.lines)) }
        ensures within { OnOk result (given_out_count self.new.lines ≤ MAX_INPUT) }
    {
        self.hand_over_due(out)?;
        self.take_line(desk, src)
    }

    /// Acts on the next line and holds what it is answered with. Answers how many commands it says, None at the end of the
    /// input. Where the source is read for it, nothing is held: who gave the lines before has all that they are
    /// answered with.
    fn take_line<D: Desk, I: Source>(
        &mut self,
        desk: &mut D,
        src: &mut I,
    ) -> Result<Option<u64>, RunFault>
        requires fault { self.old.lines.fault ≡ None }
        requires given { (self.old.held.items ≡ []) ⊎ (has_feed self.old.lines.pending ≡ true) }
        ensures next { (start : Place) (written : Option (List ℕ)) → IsBetween D.answer start
            (place self.old.lines (D.state desk.old) self.old.held.items (I.remaining src.old)
            written)
            → IfOk result (λ more. MatchOption more
            (IsFinished D.answer start (place self.new.lines (D.state desk.new)
            self.new.held.items (I.remaining src.new) written))
            (λ count. IsBetween D.answer start (place self.new.lines (D.state desk.new)
            self.new.held.items (I.remaining src.new) written))) }
        ensures stopped { (start : Place) (written : Option (List ℕ)) → IsBetween D.answer start
            (place self.old.lines (D.state desk.old) self.old.held.items (I.remaining src.old)
            written)
            → IfErr result (IsStopped D.answer start (place self.new.lines (D.state desk.new)
            self.new.held.items (I.remaining src.new) written)) }
        ensures count { IfOk result (λ more. MatchOption more
            (D.state desk.new ≡ D.state desk.old)
            (λ count. (count ≤ 2) × (length (D.state desk.new).history
            ≡ length (D.state desk.old).history + count))) }
        ensures steady { OnOk result (I.faults src.new ≡ I.faults src.old) }
        ensures caused { IfErr result (λ stop. IsReadCaused stop (I.faults src.old)
            (I.faults src.new)) }
        ensures reads { I.faults src.old ≤ I.faults src.new }
        ensures fault { OnOk result (self.new.lines.fault ≡ None) }
        ensures advances { IfOk result (λ more. MatchOption more (Unit {0})
            (λ count. given_out_count self.old.lines < given_out_count self.new.lines)) }
        ensures within { OnOk result (given_out_count self.new.lines ≤ MAX_INPUT) }
    {
        match self.lines.next(src) {
            Ok(line) => self.answer(desk, line),
            Err(fault) => Err(stop_at(fault)),
        }
    }

    /// Acts on a line and holds what it is answered with; None at the end of the input.
    fn answer<D: Desk>(&mut self, desk: &mut D, line: Line) -> Result<Option<u64>, RunFault>
        ensures said { (text : List ℕ) → IsTextOf text line → OnOk result
            (HasSaid D.answer (line_said text) (D.state desk.old) (D.state desk.new)
            self.old.held.items self.new.held.items) }
        ensures count { (text : List ℕ) → IsTextOf text line → IfOk result (λ more. more
            ≡ Some (length (commands_said (line_said text)))) }
        ensures refused { (text : List ℕ) → IsTextOf text line → IfErr result (λ stop.
            (refusal : Refusal) × (stop ≡ refused_stop refusal)
            × HasRefused D.answer (commands_said (line_said text)) (D.state desk.old)
            (D.state desk.new) self.old.held.items self.new.held.items refusal) }
        ensures refusal { IfErr result IsRefusal }
        ensures end { has_text line ≡ false → (result ≡ Ok None)
            × (D.state desk.new ≡ D.state desk.old) × (self.new.held.items ≡ self.old.held.items) }
        ensures lines { self.new.lines ≡ self.old.lines }
    {
        match self.act_on(desk, line) {
            Ok(more) => Ok(more),
            Err(Refusal::Full) => Err(RunFault::Full),
            Err(Refusal::Memory) => Err(RunFault::Memory),
        }
    }

    /// Acts on a line and holds what it is answered with; None at the end of the input.
    fn act_on<D: Desk>(&mut self, desk: &mut D, line: Line) -> Result<Option<u64>, Refusal>
        ensures said { (text : List ℕ) → IsTextOf text line → OnOk result
            (HasSaid D.answer (line_said text) (D.state desk.old) (D.state desk.new)
            self.old.held.items self.new.held.items) }
        ensures count { (text : List ℕ) → IsTextOf text line → IfOk result (λ more. more
            ≡ Some (length (commands_said (line_said text)))) }
        ensures refused { (text : List ℕ) → IsTextOf text line → IfErr result
            (HasRefused D.answer (commands_said (line_said text)) (D.state desk.old)
            (D.state desk.new) self.old.held.items self.new.held.items) }
        ensures end { has_text line ≡ false → (result ≡ Ok None)
            × (D.state desk.new ≡ D.state desk.old) × (self.new.held.items ≡ self.old.held.items) }
        ensures lines { self.new.lines ≡ self.old.lines }
    {
        match line {
            Line::Bytes(text) => {
                let count = answer_line(self.alloc, desk, text.as_slice(), &mut self.held)?;
                Ok(Some(count))
            }
            Line::TooLong => {
                let count = answer_fault(self.alloc, BadLine::Long, &mut self.held)?;
                Ok(Some(count))
            }
            Line::End => Ok(None),
        }
    }

    /// Hands over what is held where no whole line is at hand, so that the source is read next, and where it is much.
    fn hand_over_due<O: Sink>(&mut self, out: &mut O) -> Result<(), RunFault>
        ensures due { OnOk result ((self.new.held.items ≡ [])
            ⊎ (has_feed self.new.lines.pending ≡ true)) }
        ensures text { (before : Option (List ℕ)) (text : List ℕ)
            → HasText before text self.old.held.items (O.written out.old)
            → OnOk result (HasText before text self.new.held.items (O.written out.new)) }
        ensures held { OnErr result (self.new.held.items ≡ []) }
        ensures prefix { OnErr result (AppendsPrefix (O.written out.old) self.old.held.items
            (O.written out.new)) }
        ensures steady { OnOk result (O.faults out.new ≡ O.faults out.old) }
        ensures failed { IfErr result (λ stop. (stop ≡ RunFault.Write)
            × Rose (O.faults out.old) (O.faults out.new)) }
        ensures writes { O.faults out.old ≤ O.faults out.new }
        ensures lines { self.new.lines ≡ self.old.lines }
    {
        if self.lines.has_line() && self.held.len() < MOST_HELD {
            return Ok(());
        }
        self.hand_over(out)
    }

    /// Hands over what is held.
    pub fn hand_over<O: Sink>(&mut self, out: &mut O) -> Result<(), RunFault>
        ensures held { self.new.held.items ≡ [] }
        ensures none { self.old.held.items ≡ [] → IsOk result × (out.new ≡ out.old) }
        ensures all { OnOk result (Appends (O.written out.old) self.old.held.items
            (O.written out.new)) }
        ensures prefix { OnErr result (AppendsPrefix (O.written out.old) self.old.held.items
            (O.written out.new)) }
        ensures steady { OnOk result (O.faults out.new ≡ O.faults out.old) }
        ensures failed { IfErr result (λ stop. (stop ≡ RunFault.Write)
            × Rose (O.faults out.old) (O.faults out.new)) }
        ensures writes { O.faults out.old ≤ O.faults out.new }
        ensures lines { self.new.lines ≡ self.old.lines }
    {
        if self.held.is_empty() {
            return Ok(());
        }
        let given = put(out, self.held.as_slice());
        self.held.clear();
        match given {
            Ok(()) => Ok(()),
            Err(_) => Err(RunFault::Write),
        }
    }
}

/// Why a reader that gives no more lines stops the session.
fn stop_at(fault: LineFault) -> RunFault
    ensures { result ≡ stop_of fault }
{
    match fault {
        LineFault::Read => RunFault::Read,
        LineFault::Limit => RunFault::Limit,
        LineFault::Memory => RunFault::Memory,
    }
}
