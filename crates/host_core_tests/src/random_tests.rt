//! Random lists of commands, each answer compared with what an oracle says that evaluates from nothing.

ghost use Rattle.std.specs.Prelude.{IfOk};
ghost use Rattle.workbook.specs.InForm.{IsInForm};

use super::random_oracle::Oracle;
use super::random_steps::{Asked, Asking, Dice, Do, ROWS, Says, Shape, Shown, Ticket};
use super::random_topics::server_of;
use super::samples::{
    number_command, publish_command, pull_command, register_command, return_command,
    throttle_command,
};
use addin_types::{Call, SampleAddIns};
use cell_refs::{Cell, Handle};
use cell_values::{Event, Name, Value};
use formula_parse::{Tree, parse};
use host_core::{Host, PlainDesk};
use rtd_server::FeedMaker;
use std::alloc::Global;
use std::process::Abort;
use std::test::Fail;
use workbook::{Command, Content, Desk, DeskFault, Form, Reply};

/// The cell of a row of the first column.
fn cell(row: usize) -> Cell {
    let row = match row {
        0 => 1,
        1 => 2,
        2 => 3,
        3 => 4,
        4 => 5,
        _ => 6,
    };
    Cell {
        sheet: 1,
        row,
        col: 1,
    }
}

/// The handle of a call.
fn handle(ticket: Ticket) -> Handle {
    Handle {
        session: ticket.session,
        round: ticket.round,
        cell: cell(ticket.row),
        site: ticket.site,
    }
}

/// The name of a server.
fn server_name(server: usize) -> &'static str {
    match server {
        0 => "first",
        _ => "second",
    }
}

/// The string of a topic.
fn string_of(topic: usize) -> &'static str {
    match topic {
        0 | 2 => "a",
        _ => "b",
    }
}

/// The formula of a shape that has one.
fn tree_of(alloc: Global, shape: Shape) -> Result<Tree, Fail> {
    let text = match shape {
        Shape::Absent => format!(in alloc; "=0")?,
        Shape::Number(number) => format!(in alloc; "={}", number)?,
        Shape::Plus(row, number) => format!(in alloc; "=A{}+{}", cell(row).row, number)?,
        Shape::Sum(first, second) => {
            format!(in alloc; "=A{}+A{}", cell(first).row, cell(second).row)?
        }
        Shape::Total(last) => format!(in alloc; "=SUM(A1:A{})", cell(last).row)?,
        Shape::Choice(row, number, other) => {
            let (row, other) = (cell(row).row, cell(other).row);
            format!(in alloc; "=IF(A{}>{},A{},{})", row, number, other, number)?
        }
        Shape::Quote(topic, number) => format!(in alloc;
            "=IFERROR(RTD(\"{}\",\"\",\"{}\"),-100)+{}",
            server_name(server_of(topic)),
            string_of(topic),
            number
        )?,
        Shape::Call(row, number) => {
            format!(in alloc; "=IFERROR(SLOW(A{}),-50)+{}", cell(row).row, number)?
        }
        Shape::Nested(row) => format!(in alloc; "=IFERROR(SLOW(SLOW(A{})),-50)", cell(row).row)?,
        Shape::Branch(row, number, other) => {
            let (row, other) = (cell(row).row, cell(other).row);
            format!(in alloc;
                "=IF(A{}>{},IFERROR(SLOW(A{}),-50),{})",
                row, number, other, number
            )?
        }
    };
    Ok(parse(alloc, text.as_str())?)
}

/// The command of what is done.
fn command_of(alloc: Global, what: Do) -> Result<Command, Fail>
    ensures { IfOk result IsInForm }
{
    match what {
        Do::Set(row, Shape::Number(number)) => number_command(cell(row), number),
        Do::Set(row, shape) => Ok(Command::Set {
            cell: cell(row),
            content: Content::Formula(tree_of(alloc, shape)?),
        }),
        Do::Clear(row) => Ok(Command::Clear(cell(row))),
        Do::Register(true) => register_command(alloc, ">QX"),
        Do::Register(false) => register_command(alloc, "QQ"),
        Do::Return(ticket, number) => return_command(handle(ticket), number),
        Do::Listen => Ok(Command::Listen(Name::new(alloc, "app")?)),
        Do::Events => Ok(Command::Events(Name::new(alloc, "app")?)),
        Do::Begin(kind) => Ok(Command::Begin(kind)),
        Do::Settle => Ok(Command::Settle),
        Do::Cancel => Ok(Command::Cancel),
        Do::Print => Ok(Command::Print(Form::Lines)),
        Do::Server(server) => Ok(Command::Server(Name::new(alloc, server_name(server))?)),
        Do::Publish(topic, number) => publish_command(
            alloc,
            server_name(server_of(topic)),
            string_of(topic),
            number,
        ),
        Do::Notify(server) => Ok(Command::Notify(Name::new(alloc, server_name(server))?)),
        Do::Throttle(interval) => throttle_command(interval),
        Do::Pull(moment) => pull_command(moment),
    }
}

/// What the cells of a sheet show in a row.
fn seen_at(cells: &[(Cell, Option<Value>)], row: usize) -> Shown {
    for (at, value) in cells {
        if *at == cell(row) {
            return match value {
                Some(Value::Num(number)) => Some(Some(*number)),
                Some(_) => Some(Some(i64::MAX)),
                None => Some(None),
            };
        }
    }
    None
}

/// Whether a sheet shows this, and no more.
fn shows(cells: &[(Cell, Option<Value>)], wanted: &[Shown; ROWS]) -> bool {
    let mut count = 0_usize;
    for (row, shown) in wanted.iter().enumerate() {
        if seen_at(cells, row) != *shown {
            return false;
        }
        if shown.is_some() {
            count = count.wrapping_add(1);
        }
    }
    count == cells.len()
}

/// Whether a call is this one.
fn is_call(call: &Call, asked: Asked, round: u64) -> bool {
    let wanted = Ticket {
        session: 1,
        round,
        row: asked.row,
        site: asked.site,
    };
    let args = call.args.as_slice();
    call.handle == handle(wanted)
        && args.len() == 1
        && matches!(args[0], Value::Num(number) if number == asked.argument)
}

/// Whether calls are these, in cell order, and no more.
fn are_calls(calls: &[Call], asking: &Asking, round: u64) -> bool {
    let mut rest = calls.iter();
    for asked in asking {
        if let Some(asked) = asked {
            match rest.next() {
                Some(call) if is_call(call, *asked, round) => {}
                _ => return false,
            }
        }
    }
    rest.next().is_none()
}

/// How many of these recalculations ended.
fn ended(events: &[Event]) -> usize {
    events
        .iter()
        .filter(|event| matches!(event, Event::Ended(_)))
        .count()
}

/// Whether a reply that has a number, or none, is this one.
fn is_plain_reply(reply: &Reply, wanted: &Says) -> bool {
    match (reply, wanted) {
        (Reply::Ok, Says::Ok) => true,
        (Reply::Idle, Says::Idle) => true,
        (Reply::Known, Says::Known) => true,
        (Reply::NoServer, Says::NoServer) => true,
        (Reply::NoListener, Says::NoListener) => true,
        (Reply::Nothing, Says::Nothing) => true,
        (Reply::Manual, Says::Manual) => true,
        (Reply::Busy(found), Says::Busy(round)) => found == round,
        (Reply::Begun(found), Says::Begun(round)) => found == round,
        (Reply::Early(found), Says::Early(wait)) => found == wait,
        (Reply::Cancelled(found), Says::Cancelled(round)) => found == round,
        (Reply::Code(found), Says::Code(code)) => found == code,
        _ => false,
    }
}

/// Whether a reply is this one.
fn is_reply(reply: &Reply, wanted: &Says) -> bool {
    match (reply, wanted) {
        (Reply::Done { round, cells }, Says::Done(number, count)) => {
            round == number && cells == count
        }
        (Reply::Waiting { round, calls }, Says::Waiting(number, asking)) => {
            round == number && are_calls(calls.as_slice(), asking, *number)
        }
        (Reply::Pulled { changed, failed: _ }, Says::Pulled(count)) => changed == count,
        (Reply::Events(events), Says::Events(completed, cancelled)) => {
            let ended = ended(events.as_slice());
            ended == *completed && events.as_slice().len() == ended.wrapping_add(*cancelled)
        }
        (Reply::Sheet { form: _, cells }, Says::Shows(rows)) => shows(cells.as_slice(), rows),
        _ => is_plain_reply(reply, wanted),
    }
}

/// Whether an answer is this one.
fn is_answer(answer: &Result<Reply, DeskFault>, wanted: &Says) -> bool {
    match answer {
        Ok(reply) => is_reply(reply, wanted),
        Err(DeskFault::Full(_)) => matches!(wanted, Says::Full),
        Err(DeskFault::Memory(_)) => false,
    }
}

/// Plays one list of commands.
fn play(rt: &impl Abort, alloc: Global, dice: &mut Dice, list: u64) -> Result<(), Fail> {
    let room = match dice.roll(8) {
        0 => 5,
        _ => 60,
    };
    let host = Host::open(alloc, 1, room, FeedMaker, SampleAddIns)?;
    let mut desk = PlainDesk::new(host);
    let mut oracle = Oracle::new(room as u64);
    for place in 0..50 {
        let what = dice.step(oracle.round());
        let wanted = oracle.answer(what);
        let answer = desk.act(command_of(alloc, what)?);
        assert!(*rt; is_answer(&answer, &wanted), "list {list}, command {place}");
    }
    Ok(())
}

#[test]
fn random_commands_are_answered_as_from_nothing(rt: HostRuntime) -> Result<(), Fail> {
    let mut dice = Dice { state: 2_024 };
    for list in 0..1_200 {
        play(&rt, rt.alloc(), &mut dice, list)?;
    }
    Ok(())
}
