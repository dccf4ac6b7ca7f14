//! A script, from a source to a sink, over a desk.

ghost use Rattle.std.specs.Prelude.{◌≡◌, ◌+◌, ◌≤◌, IfErr, IfOk, OnOk, length};
ghost use Rattle.desk_run.specs.Run.{HasRun, HasRunPart, HasRunTo, IsCaused};

use super::session::Session;
use host_io::{RunFault, Sink, Source};
use std::alloc::Global;
use workbook::Desk;

/// Reads a script to its end, gives each command to the desk, and writes what each line is answered with. Answers how many
/// commands there were.
///
/// Replies are gathered while whole lines are at hand, and go to the sink before the source is read again.
///
/// Read, Write and Limit are those of the source and the sink. Full comes exactly where a command came and the history of
/// the desk was full.
pub fn run_desk<D: Desk, I: Source, O: Sink>(
    alloc: Global,
    desk: &mut D,
    src: &mut I,
    out: &mut O,
) -> Result<u64, RunFault>
    ensures finished { OnOk result (HasRun D.answer (I.remaining src.old) (I.remaining src.new)
        (D.state desk.old) (D.state desk.new) (O.written out.old) (O.written out.new)) }
    ensures stopped { IfErr result (HasRunTo D.answer (I.remaining src.old) (I.remaining src.new)
        (D.state desk.old) (D.state desk.new) (O.written out.old) (O.written out.new)) }
    ensures begun { IfErr result (λ stop. HasRunPart D.answer (I.remaining src.old)
        (D.state desk.old) (D.state desk.new) (O.written out.old) (O.written out.new)) }
    ensures count { IfOk result (λ count. length (D.state desk.new).history
        ≡ length (D.state desk.old).history + count) }
    ensures steady { OnOk result ((I.faults src.new ≡ I.faults src.old)
        × (O.faults out.new ≡ O.faults out.old)) }
    ensures caused { IfErr result (λ stop. IsCaused stop (I.faults src.old) (I.faults src.new)
        (O.faults out.old) (O.faults out.new)) }
    ensures reads { I.faults src.old ≤ I.faults src.new }
    ensures writes { O.faults out.old ≤ O.faults out.new }
{
    let mut session = Session::new(alloc);
    let answered = session.read_all(desk, src, out);
    session.hand_over(out)?;
    answered
}
