//! What no contract says: with ample memory no call is refused. Beside that, examples from outside.

ghost use Rattle.std.specs.Prelude.{IfOk};
ghost use Rattle.rtd_topics.specs.RtdState.{IsMoment};

use super::RtdTopics;
use cell_refs::Cell;
use cell_values::{ErrorKind, Name, Text, Texts, Topic, Value};
use rtd_server::{Feed, FeedMaker};
use std::alloc::Global;
use std::process::Abort;
use std::test::Fail;
use throttle::{Due, MAX_MOMENT};
use workbook::Moment;

/// What is done, and what is answered. Topics are of the server f.
#[derive(Clone, Copy)]
enum Step {
    /// A number is published for a topic.
    Publish(&'static str, i64),
    /// The server tells that it published.
    Notify,
    /// A pull, forced where it has no moment: how many topics change, and the rows of the cells that read them.
    Pull(Option<u64>, u64, &'static [u32]),
    /// Whether a pull is due at a moment.
    Due(u64, Due),
    /// A recalculation begins, and what the cells of these rows have read is forgotten.
    Begin(&'static [u32]),
    /// The cell of a row reads a topic, which has this number, or is `#N/A`.
    Read(&'static str, u32, Option<i64>),
    /// The recalculation is completed.
    Complete,
    /// The recalculation ends, and nothing of it is taken.
    Cancel,
}

/// The topic of the server f with one string.
fn topic(alloc: Global, text: &str) -> Result<Topic, Fail> {
    Ok(Topic {
        server: Name::new(alloc, "f")?,
        strings: Texts::new(vec![in alloc; Text::new(alloc, text)?]?)?,
    })
}

/// The cell of the first column in this row.
fn cell(row: u32) -> Cell {
    Cell {
        sheet: 1,
        row,
        col: 1,
    }
}

/// The cells of these rows.
fn cells(alloc: Global, rows: &[u32]) -> Result<Vec<Cell>, Fail> {
    let mut cells = Vec::new(alloc);
    for row in rows {
        cells.push(cell(*row))?;
    }
    Ok(cells)
}

/// Whether these cells are those of the rows; one may stand there twice.
fn are_cells(found: &[Cell], rows: &[u32]) -> bool {
    found.iter().all(|cell| rows.contains(&cell.row))
        && rows.iter().all(|row| found.contains(&cell(*row)))
}

/// The number, or `#N/A`.
fn number_or_na(number: Option<i64>) -> Value {
    match number {
        Some(n) => Value::Num(n),
        None => Value::Error(ErrorKind::Na),
    }
}

/// A moment, or a forced pull.
fn moment_of(at: Option<u64>) -> Result<Moment, Fail>
    ensures { IfOk result IsMoment }
{
    match at {
        Some(at) if at <= MAX_MOMENT => Ok(Moment::At(at)),
        Some(_) => Err(Fail::from("a moment that is too late")),
        None => Ok(Moment::Force),
    }
}

/// Adds a server of this name.
fn add(rtd: &mut RtdTopics<Feed>, name: &Name) -> Result<(), Fail> {
    if rtd.knows(name) {
        return Err(Fail::from("a known server"));
    }
    match rtd.make_server(&mut FeedMaker, name)? {
        Some(server) => {
            rtd.add_server(server);
            Ok(())
        }
        None => Err(Fail::from("a server that didn't start")),
    }
}

/// Real-time data with the server f.
fn new_rtd(alloc: Global) -> Result<RtdTopics<Feed>, Fail> {
    let mut rtd = RtdTopics::new(alloc);
    add(&mut rtd, &Name::new(alloc, "f")?)?;
    Ok(rtd)
}

/// Publishes a number for a topic.
fn publish(rtd: &mut RtdTopics<Feed>, alloc: Global, text: &str, n: i64) -> Result<bool, Fail> {
    let topic = topic(alloc, text)?;
    Ok(rtd.publish(&topic.server, &topic.strings, Value::Num(n))?)
}

/// Pulls, and compares what is told.
fn pull(
    rtd: &mut RtdTopics<Feed>,
    at: Option<u64>,
    changed: u64,
    rows: &[u32],
) -> Result<bool, Fail> {
    if rtd.is_running() {
        return Err(Fail::from("a pull in a recalculation"));
    }
    let moment = moment_of(at)?;
    let news = rtd.prepare_pull()?;
    rtd.take_pull(&moment);
    Ok(news.changed == changed && are_cells(&news.readers, rows))
}

/// Asks whether a pull is due, and compares it.
fn is_due(rtd: &RtdTopics<Feed>, at: u64, want: Due) -> Result<bool, Fail> {
    let moment = moment_of(Some(at))?;
    Ok(rtd.due(&moment) == want)
}

/// Begins a recalculation.
fn begin(rtd: &mut RtdTopics<Feed>, alloc: Global, forgotten: &[u32]) -> Result<bool, Fail> {
    if rtd.is_running() || rtd.round() == u64::MAX {
        return Err(Fail::from("a recalculation that can't begin"));
    }
    let cells = cells(alloc, forgotten)?;
    rtd.begin_round(rtd.round() + 1, &cells);
    Ok(true)
}

/// Ends the recalculation that runs.
fn end(rtd: &mut RtdTopics<Feed>, is_completed: bool) -> Result<bool, Fail> {
    if !rtd.is_running() {
        return Err(Fail::from("no recalculation runs"));
    }
    if is_completed {
        rtd.complete_round();
    } else {
        rtd.cancel_round();
    }
    Ok(true)
}

/// Reads a topic, and compares its value.
fn read(
    rtd: &mut RtdTopics<Feed>,
    alloc: Global,
    text: &str,
    row: u32,
    want: Option<i64>,
) -> Result<bool, Fail> {
    let topic = topic(alloc, text)?;
    let value = rtd.read_topic(&topic, cell(row))?;
    Ok(value == number_or_na(want))
}

/// Does a step: whether the answer is the one that is wanted.
fn is_answered(rtd: &mut RtdTopics<Feed>, alloc: Global, step: &Step) -> Result<bool, Fail> {
    match step {
        Step::Publish(text, n) => publish(rtd, alloc, text, *n),
        Step::Notify => Ok(rtd.notify(&Name::new(alloc, "f")?)),
        Step::Pull(at, changed, rows) => pull(rtd, *at, *changed, rows),
        Step::Due(at, want) => is_due(rtd, *at, *want),
        Step::Begin(rows) => begin(rtd, alloc, rows),
        Step::Read(text, row, want) => read(rtd, alloc, text, *row, *want),
        Step::Complete => end(rtd, true),
        Step::Cancel => end(rtd, false),
    }
}

/// Does steps on new real-time data.
fn take_steps(rt: &impl Abort, alloc: Global, steps: &[Step]) -> Result<(), Fail> {
    let mut rtd = new_rtd(alloc)?;
    for (place, step) in steps.iter().enumerate() {
        let is_right = is_answered(&mut rtd, alloc, step)?;
        assert!(rt; is_right, "step {place}");
    }
    Ok(())
}

#[test]
fn a_pull_takes_what_was_published(rt: HostRuntime) -> Result<(), Fail> {
    let steps = [
        Step::Publish("a", 5),
        Step::Begin(&[]),
        Step::Read("a", 1, Some(5)),
        Step::Read("a", 2, Some(5)),
        Step::Complete,
        Step::Publish("a", 6),
        Step::Pull(None, 0, &[]),
        Step::Read("a", 1, Some(5)),
        Step::Notify,
        Step::Pull(None, 1, &[1, 2]),
        Step::Read("a", 1, Some(6)),
        Step::Publish("a", 5),
        Step::Notify,
        Step::Pull(None, 1, &[1, 2]),
        // There and back again between two pulls is no change.
        Step::Publish("a", 6),
        Step::Publish("a", 5),
        Step::Notify,
        Step::Pull(None, 0, &[]),
        Step::Read("a", 1, Some(5)),
    ];
    take_steps(&rt, rt.alloc(), &steps)
}

#[test]
fn a_recalculation_sees_one_value_of_each_topic(rt: HostRuntime) -> Result<(), Fail> {
    let steps = [
        Step::Publish("a", 5),
        Step::Begin(&[]),
        Step::Publish("a", 6),
        Step::Publish("b", 7),
        Step::Read("a", 1, Some(5)),
        Step::Read("b", 1, None),
        Step::Publish("a", 8),
        Step::Read("a", 2, Some(5)),
        Step::Complete,
        Step::Notify,
        Step::Pull(None, 2, &[1, 2]),
        Step::Begin(&[1, 2]),
        Step::Read("a", 1, Some(8)),
        Step::Read("b", 1, Some(7)),
        Step::Complete,
    ];
    take_steps(&rt, rt.alloc(), &steps)
}

#[test]
fn a_topic_that_no_cell_reads_leaves(rt: HostRuntime) -> Result<(), Fail> {
    let steps = [
        Step::Publish("a", 5),
        Step::Publish("b", 5),
        Step::Begin(&[]),
        Step::Read("a", 1, Some(5)),
        Step::Read("b", 2, Some(5)),
        Step::Complete,
        Step::Begin(&[1]),
        Step::Complete,
        Step::Read("a", 1, None),
        Step::Read("b", 2, Some(5)),
        Step::Publish("a", 6),
        Step::Publish("b", 6),
        Step::Notify,
        Step::Pull(None, 1, &[2]),
    ];
    take_steps(&rt, rt.alloc(), &steps)
}

#[test]
fn nothing_of_a_cancelled_recalculation_is_taken(rt: HostRuntime) -> Result<(), Fail> {
    let steps = [
        Step::Publish("a", 5),
        Step::Begin(&[]),
        Step::Read("a", 1, Some(5)),
        Step::Complete,
        Step::Begin(&[1]),
        Step::Read("b", 1, None),
        Step::Cancel,
        Step::Publish("a", 6),
        Step::Publish("b", 6),
        Step::Notify,
        Step::Pull(None, 1, &[1]),
        Step::Read("a", 1, Some(6)),
        Step::Read("b", 1, None),
    ];
    take_steps(&rt, rt.alloc(), &steps)
}

#[test]
fn a_forced_pull_leaves_no_moment(rt: HostRuntime) -> Result<(), Fail> {
    let steps = [
        Step::Due(0, Due::Now),
        Step::Pull(Some(1_000), 0, &[]),
        Step::Due(1_500, Due::Early(1_500)),
        Step::Pull(None, 0, &[]),
        Step::Due(2_999, Due::Early(1)),
        Step::Due(3_000, Due::Now),
    ];
    take_steps(&rt, rt.alloc(), &steps)
}
