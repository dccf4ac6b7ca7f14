use super::{bad_text, reply_text};
use addin_types::Call;
use cell_refs::{Cell, Handle};
use cell_values::{Event, Name, read_value};
use functions::Values;
use std::alloc::Global;
use std::test::Fail;
use workbook::{Calls, EventList, Form, Names, Reply, SheetCells};

/// The names of words, with a space between two.
fn names_of(alloc: Global, words: &str) -> Result<Names, Fail> {
    let mut names = Vec::new(alloc);
    if !words.is_empty() {
        for word in words.split(' ') {
            names.push(Name::new(alloc, word)?)?;
        }
    }
    Ok(Names::from_vec(names))
}

/// The values of words, with a `|` between two.
fn values_of(alloc: Global, words: &str) -> Result<Values, Fail> {
    let mut values = Vec::new(alloc);
    if !words.is_empty() {
        for word in words.split('|') {
            values.push(read_value(alloc, word)?)?;
        }
    }
    Ok(Values::new(values))
}

/// The calls at the first sites of cells of column A, for each its row, its name and its values.
fn calls_of(alloc: Global, list: &[(u32, &str, &str)]) -> Result<Calls, Fail> {
    let mut calls = Vec::new(alloc);
    for (row, name, words) in list {
        let cell = Cell {
            sheet: 1,
            row: *row,
            col: 1,
        };
        let handle = Handle {
            session: 1,
            round: 1,
            cell,
            site: 1,
        };
        let name = Name::new(alloc, name)?;
        let args = values_of(alloc, words)?;
        calls.push(Call { handle, name, args })?;
    }
    Ok(Calls::from_vec(calls))
}

/// What cells of the first row show, for each its sheet, its column and its value word; `-` is a circular cell.
fn sheet_of(alloc: Global, form: Form, list: &[(u8, u16, &str)]) -> Result<Reply, Fail> {
    let mut cells = Vec::new(alloc);
    for (sheet, col, word) in list {
        let cell = Cell {
            sheet: *sheet,
            row: 1,
            col: *col,
        };
        let shown = if *word == "-" {
            None
        } else {
            Some(read_value(alloc, word)?)
        };
        cells.push((cell, shown))?;
    }
    let cells = SheetCells::from_vec(cells);
    Ok(Reply::Sheet { form, cells })
}

/// Whether the lines of a reply, appended to others, are these.
fn has_lines(alloc: Global, reply: &Reply, want: &str) -> Result<bool, Fail> {
    let mut out = Vec::from_slice(alloc, b"before\n")?;
    reply_text(reply, &mut out)?;
    Ok(out.as_slice().strip_prefix(b"before\n") == Some(want.as_bytes()))
}

#[test]
fn a_reply_of_one_line(rt: HostRuntime) -> Result<(), Fail> {
    let table = [
        (Reply::Ok, "ok\n"),
        (Reply::Known, "known\n"),
        (Reply::Builtin, "builtin\n"),
        (Reply::NoServer, "no server\n"),
        (Reply::NoListener, "no listener\n"),
        (Reply::Idle, "idle\n"),
        (Reply::Nothing, "nothing\n"),
        (Reply::Manual, "manual\n"),
        (Reply::CellLimit, "full cells\n"),
        (Reply::FormulaLimit, "full formulas\n"),
        (Reply::Busy(7), "busy 7\n"),
        (Reply::Early(1_999), "early 1999\n"),
        (Reply::Begun(1), "begun 1\n"),
        (Reply::Cancelled(2), "cancelled 2\n"),
        (Reply::Code(0), "0\n"),
        (Reply::Code(256), "256\n"),
        (
            Reply::Done {
                round: 3,
                cells: 40,
            },
            "done 3 cells 40\n",
        ),
    ];
    for (reply, want) in table {
        assert!(rt; has_lines(rt.alloc(), &reply, want)?);
    }
    Ok(())
}

#[test]
fn servers_that_failed_are_named(rt: HostRuntime) -> Result<(), Fail> {
    let alloc = rt.alloc();
    let unstarted = Reply::Failed(Name::new(alloc, "f")?);
    assert!(rt; has_lines(alloc, &unstarted, "failed f\n")?);
    let table = [
        (0, "", "pulled 0\n"),
        (1, "f", "pulled 1\n failed f\n"),
        (12, "f g.2", "pulled 12\n failed f\n failed g.2\n"),
    ];
    for (changed, words, want) in table {
        let failed = names_of(alloc, words)?;
        let reply = Reply::Pulled { changed, failed };
        assert!(rt; has_lines(alloc, &reply, want)?);
    }
    Ok(())
}

#[test]
fn calls_that_are_waited_for_are_listed(rt: HostRuntime) -> Result<(), Fail> {
    let table: [(u64, &[(u32, &str, &str)], &str); 2] = [
        (
            1,
            &[(1, "SLOW", "2")],
            "waiting 1 count 1\n 1:A1#1 SLOW(2)\n",
        ),
        (
            5,
            &[(1, "F", "1|\"a\""), (7, "G", "")],
            "waiting 5 count 2\n 1:A1#1 F(1,\"a\")\n 1:A7#1 G()\n",
        ),
    ];
    for (round, list, want) in table {
        let calls = calls_of(rt.alloc(), list)?;
        let reply = Reply::Waiting { round, calls };
        assert!(rt; has_lines(rt.alloc(), &reply, want)?);
    }
    Ok(())
}

#[test]
fn events_are_listed(rt: HostRuntime) -> Result<(), Fail> {
    let table: [(&[Event], &str); 3] = [
        (&[], "end\n"),
        (
            &[Event::Ended(1), Event::Ended(2)],
            " ended 1\n ended 2\nend\n",
        ),
        (&[Event::Cancelled(3)], " cancelled 3\nend\n"),
    ];
    for (list, want) in table {
        let events = Vec::from_slice(rt.alloc(), list)?;
        let reply = Reply::Events(EventList::from_vec(events));
        assert!(rt; has_lines(rt.alloc(), &reply, want)?);
    }
    Ok(())
}

#[test]
fn a_sheet_is_shown_in_its_form(rt: HostRuntime) -> Result<(), Fail> {
    let table: [(Form, &[(u8, u16, &str)], &str); 5] = [
        (Form::Lines, &[], "end\n"),
        (
            Form::Lines,
            &[
                (1, 27, "-5"),
                (1, 28, "\"a,b\""),
                (2, 1, "-"),
                (64, 1, "#N/A"),
            ],
            "AA1=-5\nAB1=\"a,b\"\nSheet2!A1=#CIRC!\nSheet64!A1=#N/A\nend\n",
        ),
        (Form::Csv, &[], "end\n"),
        (
            Form::Csv,
            &[(1, 1, "2"), (1, 2, "\"a,b\""), (1, 3, "#DIV/0!")],
            "A1,number,2\nB1,text,\"a,b\"\nC1,error,#DIV/0!\nend\n",
        ),
        (
            Form::Csv,
            &[
                (1, 1, "\"5\"\" x\""),
                (1, 2, "\" plain \""),
                (1, 3, "\"\""),
                (1, 4, "TRUE"),
                (1, 5, "FALSE"),
                (3, 2, "-"),
            ],
            "A1,text,\"5\"\" x\"\nB1,text, plain \nC1,text,\nD1,bool,TRUE\nE1,bool,FALSE\n\
             Sheet3!B1,circular,#CIRC!\nend\n",
        ),
    ];
    for (form, list, want) in table {
        let reply = sheet_of(rt.alloc(), form, list)?;
        assert!(rt; has_lines(rt.alloc(), &reply, want)?);
    }
    Ok(())
}

#[test]
fn a_bad_line_has_its_word(rt: HostRuntime) -> Result<(), Fail> {
    let mut out = Vec::new(rt.alloc());
    bad_text("later", &mut out)?;
    assert_eq!(rt; out.as_slice(), b"bad later\n".as_slice());
    Ok(())
}
