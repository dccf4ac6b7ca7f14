//! What no contract says: the order in which the chain is left, how often a topic is read, and that with ample memory
//! nothing is refused; and each rule once on a sheet of few cells.

ghost use Rattle.std.specs.Prelude.{◌<◌, IfOk, OnOk};
ghost use Rattle.topic_source.specs.Source.{no_topics};
ghost use Rattle.calc_round.specs.Samples.{IsUnderWay, IsUnevaluated, IsUnread, echo_state};

use super::sample_rounds::{
    Accepted, Echo, Round, Sheet, Texts, accept, begin_round, cell, empty_sheet, enter, handle,
    recalculate, round_of,
};
use super::{Memory, OpenWork};
use cell_values::{Value, read_value};
use std::alloc::Global;
use std::process::Abort;
use std::test::Fail;
use topic_source::{NoTopics, TopicSource};

/// The values of rows, as words; None where a row has none.
type Words<'a> = &'a [(u32, Option<&'static str>)];

/// Calls of rows by their sites, each with its argument.
type Calls<'a> = &'a [(u32, u16, i64)];

/// A sheet with an accepted value, and what its recalculation comes to: the values of the rows, the open calls, and the
/// order of the chain.
#[derive(Clone, Copy)]
struct Case<'a> {
    texts: Texts<'a>,
    accepted: Accepted,
    words: Words<'a>,
    calls: Calls<'a>,
    order: &'a [u32],
}

/// Asserts what is present of the rows.
fn assert_words(
    rt: &impl Abort,
    alloc: Global,
    sheet: &Sheet,
    words: Words<'_>,
) -> Result<(), Fail> {
    for (row, word) in words {
        let wanted = match word {
            None => None,
            Some(word) => Some(read_value(alloc, word)?),
        };
        assert_eq!(*rt;
            sheet.store.present(cell(*row)),
            Some(wanted.as_ref()),
            "row {row}"
        );
    }
    Ok(())
}

/// Asserts which rows' cells stand in the chain, in its order.
fn assert_order(rt: &impl Abort, alloc: Global, sheet: &Sheet, order: &[u32]) -> Result<(), Fail> {
    let listed = sheet.chain.list(alloc)?;
    assert_eq!(*rt; listed.len(), order.len());
    for (found, row) in listed.iter().zip(order) {
        assert_eq!(*rt; *found, cell(*row));
    }
    Ok(())
}

/// Asserts which calls are open, each of one argument.
fn assert_calls(rt: &impl Abort, work: &OpenWork, wanted: Calls<'_>) -> Result<(), Memory> {
    let calls = work.calls.list()?;
    assert_eq!(*rt; calls.len(), wanted.len());
    for (call, (row, site, n)) in calls.iter().zip(wanted) {
        assert_eq!(*rt; call.handle, handle(*row, *site));
        assert_eq!(*rt; call.name.as_str(), "SLOW");
        assert_eq!(*rt; call.args.as_slice().first(), Some(&Value::Num(*n)));
    }
    Ok(())
}

/// Asserts what a recalculation has come to.
fn assert_round(
    rt: &impl Abort,
    alloc: Global,
    round: &Round,
    case: &Case<'_>,
) -> Result<(), Fail> {
    assert_words(rt, alloc, &round.sheet, case.words)?;
    assert_calls(rt, &round.work, case.calls)?;
    assert_order(rt, alloc, &round.sheet, case.order)
}

/// Recalculates the sheet of a case twice.
fn assert_case<T: TopicSource>(
    rt: &impl Abort,
    alloc: Global,
    topics: &mut T,
    case: &Case<'_>,
) -> Result<(), Fail>
    requires { IsUnread (T.state topics.old) }
{
    let mut round = round_of(alloc, case.texts, case.accepted, topics)?;
    assert_twice(rt, alloc, &mut round, topics, case)
}

/// Recalculates twice; the second time changes nothing.
fn assert_twice<T: TopicSource>(
    rt: &impl Abort,
    alloc: Global,
    round: &mut Round,
    topics: &mut T,
    case: &Case<'_>,
) -> Result<(), Fail>
    requires { IsUnderWay round.old.sheet.book round.old.log round.old.sheet.store
        round.old.sheet.chain round.old.work (T.state topics.old) }
{
    recalculate(alloc, round, topics)?;
    assert_round(rt, alloc, round, case)?;
    recalculate(alloc, round, topics)?;
    assert_round(rt, alloc, round, case)
}

/// The same of all cases, over a source without topics.
fn assert_cases(rt: &impl Abort, alloc: Global, cases: &[Case<'_>]) -> Result<(), Fail> {
    for case in cases {
        assert_case(rt, alloc, &mut NoTopics, case)?;
    }
    Ok(())
}

#[test]
fn a_cell_has_its_value_or_is_circular(rt: HostRuntime) -> Result<(), Fail> {
    let cases = [
        Case {
            texts: &[
                (1, "=A2"),
                (2, "=A1"),
                (3, "=IF(TRUE,1,A1)"),
                (4, "=A5"),
                (5, "=2"),
            ],
            accepted: None,
            words: &[
                (1, None),
                (2, None),
                (3, None),
                (4, Some("2")),
                (5, Some("2")),
            ],
            calls: &[],
            order: &[1, 2, 3, 5, 4],
        },
        // An area has texts and blanks.
        Case {
            texts: &[
                (1, "=SUM(A2:A6)"),
                (2, "3"),
                (3, "\"x\""),
                (4, "=A2+1"),
                (6, "=A5"),
                (7, "=COUNTA(A2:A6)"),
            ],
            accepted: None,
            words: &[
                (1, Some("7")),
                (2, Some("3")),
                (3, Some("\"x\"")),
                (4, Some("4")),
                (6, Some("0")),
                (7, Some("4")),
            ],
            calls: &[],
            order: &[4, 6, 1, 7],
        },
        // Neither the topic's server nor the name is known.
        Case {
            texts: &[
                (1, "=RTD(\"server\",\"\",\"x\")"),
                (2, "=IFNA(A1,5)"),
                (3, "=TRIPLE(2)"),
            ],
            accepted: None,
            words: &[(1, Some("#N/A")), (2, Some("5")), (3, Some("#NAME?"))],
            calls: &[],
            order: &[1, 2, 3],
        },
    ];
    assert_cases(&rt, rt.alloc(), &cases)
}

#[test]
fn a_cell_that_asks_has_a_call_and_its_reader_waits(rt: HostRuntime) -> Result<(), Fail> {
    let cases = [
        Case {
            texts: &[
                (1, "=A2+1"),
                (2, "=SLOW(DOUBLE(2))"),
                (3, "=IF(TRUE,DOUBLE(3),SLOW(9))"),
                (4, "=SLOW(A1)"),
            ],
            accepted: None,
            words: &[(1, None), (2, None), (3, Some("6")), (4, None)],
            calls: &[(2, 1, 4)],
            order: &[2, 1, 3, 4],
        },
        // The call around an accepted one is asked for.
        Case {
            texts: &[(1, "=SLOW(SLOW(1))"), (2, "=SLOW(SLOW(1))")],
            accepted: Some((1, 2, 5)),
            words: &[(1, None), (2, None)],
            calls: &[(1, 1, 5), (2, 2, 1)],
            order: &[1, 2],
        },
    ];
    assert_cases(&rt, rt.alloc(), &cases)
}

/// Asserts the readings of a source, each by the first string of its topic and the row of its cell.
fn assert_readings(rt: &impl Abort, source: &Echo, wanted: &[(&'static str, u32)]) {
    assert_eq!(*rt; source.readings.len(), wanted.len());
    for ((topic, reader), (string, row)) in source.readings.iter().zip(wanted) {
        match topic.strings.as_slice() {
            [] => {}
            [first, ..] => assert_eq!(*rt; first.as_str(), *string),
        }
        assert_eq!(*rt; *reader, cell(*row));
    }
}

/// A source that refuses so many readings first.
fn echo(alloc: Global, refusals: u32) -> Echo
    ensures { IsUnread (echo_state result.readings.items) }
{
    Echo {
        readings: Vec::new(alloc),
        refusals,
    }
}

#[test]
fn each_topic_that_is_needed_is_read_once_for_its_cell(rt: HostRuntime) -> Result<(), Fail> {
    let case = Case {
        texts: &[
            (1, "=RTD(\"feed\",\"\",\"px\")&RTD(\"feed\",\"\",\"vol\")"),
            (
                2,
                "=IF(TRUE,RTD(\"feed\",\"\",\"px\"),RTD(\"feed\",\"\",\"vol\"))",
            ),
            (3, "=RTD(\"feed\",\"\",\"px\")&RTD(\"feed\",\"\",\"px\")"),
        ],
        accepted: None,
        words: &[
            (1, Some("\"pxvol\"")),
            (2, Some("\"px\"")),
            (3, Some("\"pxpx\"")),
        ],
        calls: &[],
        order: &[1, 2, 3],
    };
    let mut source = echo(rt.alloc(), 0);
    assert_case(&rt, rt.alloc(), &mut source, &case)?;
    assert_readings(&rt, &source, &[("px", 1), ("vol", 1), ("px", 2), ("px", 3)]);
    Ok(())
}

/// Recalculates in vain, and again.
fn assert_repeated(
    rt: &impl Abort,
    alloc: Global,
    round: &mut Round,
    source: &mut Echo,
) -> Result<(), Fail>
    requires { IsUnderWay round.old.sheet.book round.old.log round.old.sheet.store
        round.old.sheet.chain round.old.work (echo_state source.old.readings.items) }
{
    assert!(*rt; recalculate(alloc, round, source).is_err());
    recalculate(alloc, round, source)?;
    let words = &[(1, Some("\"px\"")), (2, Some("\"px\"")), (3, Some("2"))];
    assert_words(rt, alloc, &round.sheet, words)
}

#[test]
fn a_refusal_can_be_repeated(rt: HostRuntime) -> Result<(), Fail> {
    let mut source = echo(rt.alloc(), 1);
    let texts = &[(1, "=A2"), (2, "=RTD(\"feed\",\"\",\"px\")"), (3, "=2")];
    let mut round = round_of(rt.alloc(), texts, None, &source)?;
    assert_repeated(&rt, rt.alloc(), &mut round, &mut source)
}

/// Recalculates, accepts a value, and recalculates again.
fn assert_goes_on(rt: &impl Abort, alloc: Global, round: &mut Round) -> Result<(), Fail>
    requires under_way { IsUnderWay round.old.sheet.book round.old.log round.old.sheet.store
        round.old.sheet.chain round.old.work no_topics }
    requires room { 0 < round.old.log.room }
{
    recalculate(alloc, round, &mut NoTopics)?;
    assert_calls(rt, &round.work, &[(1, 1, 3)])?;
    accept(round, 1, Value::Num(8))?;
    assert_calls(rt, &round.work, &[])?;
    recalculate(alloc, round, &mut NoTopics)?;
    assert_calls(rt, &round.work, &[(3, 1, 9)])?;
    let words = &[(1, Some("8")), (2, Some("9")), (3, None)];
    assert_words(rt, alloc, &round.sheet, words)
}

#[test]
fn a_recalculation_goes_on_where_a_value_is_accepted(rt: HostRuntime) -> Result<(), Fail> {
    let texts = &[(1, "=SLOW(3)"), (2, "=A1+1"), (3, "=SLOW(A2)")];
    let mut round = round_of(rt.alloc(), texts, None, &NoTopics)?;
    assert_goes_on(&rt, rt.alloc(), &mut round)
}

/// Enters a formula that names the cell of the next row.
fn enter_backward(alloc: Global, sheet: &mut Sheet, row: u32) -> Result<(), Fail>
    requires start { IsUnevaluated sheet.old.book.contents sheet.old.store sheet.old.chain }
    requires row { row < 200 }
    ensures { OnOk result (IsUnevaluated sheet.new.book.contents sheet.new.store
        sheet.new.chain) }
{
    let text = format!(in alloc; "=A{}", row + 1)?;
    enter(alloc, sheet, row, text.as_str())
}

/// A sheet of 200 cells of which each names the next.
fn backward_sheet(alloc: Global) -> Result<Sheet, Fail>
    ensures { IfOk result (λ sheet. IsUnevaluated sheet.book.contents sheet.store sheet.chain) }
{
    let mut sheet = empty_sheet(alloc)?;
    for row in 1..200 {
        enter_backward(alloc, &mut sheet, row)?;
    }
    enter(alloc, &mut sheet, 200, "=7")?;
    Ok(sheet)
}

/// Asserts that they have the value of the last, and stand in the chain the last first.
fn assert_forward(rt: &impl Abort, alloc: Global, sheet: &Sheet) -> Result<(), Fail> {
    let listed = sheet.chain.list(alloc)?;
    assert_eq!(*rt; listed.len(), 200);
    for (found, row) in listed.iter().zip(1..=200) {
        assert_eq!(*rt; *found, cell(201_u32.saturating_sub(row)));
        assert_eq!(*rt; sheet.store.present(*found), Some(Some(&Value::Num(7))));
    }
    Ok(())
}

/// A recalculation of them begins.
fn backward_round(alloc: Global) -> Result<Round, Fail>
    ensures { IfOk result (λ round. IsUnderWay round.sheet.book round.log round.sheet.store
        round.sheet.chain round.work no_topics) }
{
    let sheet = backward_sheet(alloc)?;
    begin_round(alloc, sheet, None, &NoTopics)
}

/// Recalculates them.
fn assert_chain(rt: &impl Abort, alloc: Global, round: &mut Round) -> Result<(), Fail>
    requires { IsUnderWay round.old.sheet.book round.old.log round.old.sheet.store
        round.old.sheet.chain round.old.work no_topics }
{
    recalculate(alloc, round, &mut NoTopics)?;
    assert_forward(rt, alloc, &round.sheet)
}

#[test]
fn a_chain_written_backward_is_put_in_order(rt: HostRuntime) -> Result<(), Fail> {
    let mut round = backward_round(rt.alloc())?;
    assert_chain(&rt, rt.alloc(), &mut round)
}
