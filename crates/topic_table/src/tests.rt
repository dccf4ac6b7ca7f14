//! What no contract says: with ample memory no call is refused. Beside that, examples from outside, and ten thousand
//! topics that leave together.

use super::{Cell, Topic, Topics, Value};
use cell_values::{Name, Text, Texts};
use std::alloc::Global;
use std::process::Abort;
use std::test::Fail;

/// The topic of the server f with one string.
fn topic(alloc: Global, text: &str) -> Result<Topic, Fail> {
    Ok(Topic {
        server: Name::new(alloc, "f")?,
        strings: Texts::new(vec![in alloc; Text::new(alloc, text)?]?)?,
    })
}

/// The cell of the first column in this row.
fn cell(row: u32) -> Cell {
    Cell {
        sheet: 1,
        row,
        col: 1,
    }
}

/// Connects a topic with a number, and gives its id.
fn connect(
    table: &mut Topics,
    alloc: Global,
    text: &str,
    number: i64,
    round: u64,
) -> Result<u64, Fail> {
    let topic = topic(alloc, text)?;
    let None = table.find(&topic) else {
        return Err(Fail::from("a topic that is there"));
    };
    match table.connect(topic, Value::Num(number), round) {
        Ok(id) => Ok(id),
        Err(_) => Err(Fail::from("a refused topic")),
    }
}

/// Notes that the cell of a row reads the topic of an id.
fn read(table: &mut Topics, id: u64, row: u32) -> Result<(), Fail> {
    let Some(_) = table.topic(id) else {
        return Err(Fail::from("a stranger"));
    };
    table.read_by(id, cell(row))?;
    Ok(())
}

/// Forgets the readings of the cells of these rows.
fn start(table: &mut Topics, alloc: Global, rows: &[u32]) -> Result<(), Fail> {
    let mut cells = Vec::new(alloc);
    for row in rows {
        cells.push(cell(*row))?;
    }
    table.start_round(&cells);
    Ok(())
}

/// Whether the kept readers of the topic of an id are the cells of these rows.
fn has_readers(table: &Topics, id: u64, rows: &[u32]) -> bool {
    let readers = table.readers(id);
    if readers.len() != rows.len() {
        return false;
    }
    for row in rows {
        if !readers.contains(&cell(*row)) {
            return false;
        }
    }
    true
}

/// Whether the value of the topic of an id is this number.
fn has_value(table: &Topics, id: u64, number: i64) -> bool {
    match table.value(id) {
        Some(value) => *value == Value::Num(number),
        None => false,
    }
}

/// The id of a topic.
fn find(table: &Topics, alloc: Global, text: &str) -> Result<Option<u64>, Fail> {
    Ok(table.find(&topic(alloc, text)?))
}

/// The id of a topic that leaves.
fn id_out(out: Option<(Topic, u64)>) -> Option<u64> {
    match out {
        Some((_topic, id)) => Some(id),
        None => None,
    }
}

/// What is done to a table, and what it answers.
#[derive(Clone, Copy)]
enum Step {
    Reserve(u64),
    Connect(&'static str, u64, u64),
    Find(&'static str, Option<u64>),
    Take(u64, i64, bool),
    Value(u64, i64),
    Read(u64, u32),
    HasRead(u64, u32, bool),
    Readers(u64, &'static [u32]),
    Start(&'static [u32]),
    Keep,
    Restore,
    PopUnread(Option<u64>),
    PopSince(u64, Option<u64>),
}

/// Does a step: whether the answer is the one that is wanted.
fn is_answered(table: &mut Topics, alloc: Global, step: &Step) -> Result<bool, Fail> {
    match step {
        Step::Reserve(want) => Ok(table.reserve()? == *want),
        Step::Connect(text, round, want) => Ok(connect(table, alloc, text, 5, *round)? == *want),
        Step::Take(id, number, want) => Ok(table.take(*id, Value::Num(*number)) == *want),
        Step::PopUnread(want) => Ok(id_out(table.pop_unread()) == *want),
        Step::PopSince(round, want) => Ok(id_out(table.pop_since(*round)) == *want),
        Step::Find(..) | Step::Value(..) | Step::HasRead(..) | Step::Readers(..) => {
            is_shown(table, alloc, step)
        }
        change => is_done(table, alloc, change),
    }
}

/// Whether the table shows what a step wants.
fn is_shown(table: &Topics, alloc: Global, step: &Step) -> Result<bool, Fail> {
    match step {
        Step::Find(text, want) => Ok(find(table, alloc, text)? == *want),
        Step::Value(id, number) => Ok(has_value(table, *id, *number)),
        Step::HasRead(id, row, want) => Ok(table.has_read(*id, cell(*row)) == *want),
        Step::Readers(id, rows) => Ok(has_readers(table, *id, rows)),
        _ => Ok(false),
    }
}

/// Does a step of readers, which answers nothing: whether it is one.
fn is_done(table: &mut Topics, alloc: Global, step: &Step) -> Result<bool, Fail> {
    match step {
        Step::Read(id, row) => read(table, *id, *row)?,
        Step::Start(rows) => start(table, alloc, rows)?,
        Step::Keep => table.keep_round(),
        Step::Restore => table.drop_round(),
        _ => return Ok(false),
    }
    Ok(true)
}

/// Does steps on a new table.
fn take_steps(rt: &impl Abort, alloc: Global, steps: &[Step]) -> Result<(), Fail> {
    let mut table = Topics::new(alloc);
    for step in steps {
        let is_right = is_answered(&mut table, alloc, step)?;
        assert!(rt; is_right);
    }
    Ok(())
}

#[test]
fn the_first_topic_is_connected_and_read(rt: HostRuntime) -> Result<(), Fail> {
    let steps = [
        Step::Reserve(1),
        Step::Connect("a", 1, 1),
        Step::Read(1, 1),
        Step::HasRead(1, 1, true),
        Step::Readers(1, &[]),
        Step::Find("a", Some(1)),
        Step::Find("b", None),
    ];
    take_steps(&rt, rt.alloc(), &steps)
}

#[test]
fn a_topic_takes_values(rt: HostRuntime) -> Result<(), Fail> {
    let steps = [
        Step::Connect("a", 1, 1),
        Step::Take(1, 5, false),
        Step::Take(1, 6, true),
        Step::Take(2, 6, false),
        Step::Value(1, 6),
    ];
    take_steps(&rt, rt.alloc(), &steps)
}

#[test]
fn a_round_that_is_dropped_moves_no_reader(rt: HostRuntime) -> Result<(), Fail> {
    let steps = [
        Step::Connect("a", 1, 1),
        Step::Connect("b", 1, 2),
        Step::Read(1, 1),
        Step::Keep,
        Step::Start(&[1, 9]),
        Step::HasRead(1, 1, false),
        Step::Readers(1, &[1]),
        Step::Read(2, 1),
        Step::Restore,
        Step::HasRead(1, 1, true),
        Step::HasRead(2, 1, false),
    ];
    take_steps(&rt, rt.alloc(), &steps)
}

#[test]
fn readers_move_between_topics(rt: HostRuntime) -> Result<(), Fail> {
    let steps = [
        Step::Connect("a", 1, 1),
        Step::Connect("b", 1, 2),
        Step::Read(1, 1),
        Step::Read(2, 2),
        Step::Keep,
        Step::Start(&[1]),
        Step::Read(2, 1),
        Step::Keep,
        Step::Readers(1, &[]),
        Step::Readers(2, &[1, 2]),
        Step::PopUnread(Some(1)),
        Step::PopUnread(None),
        Step::Find("a", None),
        Step::Connect("a", 2, 3),
    ];
    take_steps(&rt, rt.alloc(), &steps)
}

#[test]
fn topics_of_a_round_leave_in_order(rt: HostRuntime) -> Result<(), Fail> {
    let steps = [
        Step::Connect("a", 1, 1),
        Step::Connect("b", 2, 2),
        Step::Connect("c", 1, 3),
        Step::Connect("d", 2, 4),
        Step::PopSince(2, Some(2)),
        Step::PopSince(2, Some(4)),
        Step::PopSince(2, None),
        Step::Find("c", Some(3)),
        Step::Find("d", None),
    ];
    take_steps(&rt, rt.alloc(), &steps)
}

/// Connects ten thousand topics, each read by a cell of its own.
fn connect_many(table: &mut Topics, alloc: Global) -> Result<(), Fail> {
    for row in 0..10_000u32 {
        let text = format!(in alloc; "{row}")?;
        let id = connect(table, alloc, text.as_str(), 5, 1)?;
        read(table, id, row)?;
    }
    table.keep_round();
    Ok(())
}

/// Has the ten thousand cells read nothing any more.
fn forget_many(table: &mut Topics, alloc: Global) -> Result<(), Fail> {
    let mut cells = Vec::new(alloc);
    for row in 0..10_000u32 {
        cells.push(cell(row))?;
    }
    table.start_round(&cells);
    table.keep_round();
    Ok(())
}

/// How many unread topics leave in the order of their ids.
fn pop_many(table: &mut Topics) -> u64 {
    for n in 0..20_000u64 {
        if id_out(table.pop_unread()) != Some(n + 1) {
            return n;
        }
    }
    20_000
}

/// How many of ten thousand topics leave while each is read, and how many once none is.
fn leave_twice(alloc: Global) -> Result<(u64, u64), Fail> {
    let mut table = Topics::new(alloc);
    connect_many(&mut table, alloc)?;
    let read = pop_many(&mut table);
    forget_many(&mut table, alloc)?;
    Ok((read, pop_many(&mut table)))
}

#[test]
fn ten_thousand_topics_leave_together(rt: HostRuntime) -> Result<(), Fail> {
    let (read, unread) = leave_twice(rt.alloc())?;
    assert_eq!(rt; read, 0);
    assert_eq!(rt; unread, 10_000);
    Ok(())
}
