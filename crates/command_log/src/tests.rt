//! What no contract says: with ample memory no call is refused. Beside that, the accepted values of two cells.

ghost use Rattle.std.specs.Prelude.{◌<◌, ◌≤◌, ◌+◌};

use super::{Cell, Command, CommandLog, Entry, Handle, Value};
use std::alloc::Global;
use std::test::Fail;

/// The cell of the first column in this row.
fn cell(row: u32) -> Cell {
    Cell {
        sheet: 1,
        row,
        col: 1,
    }
}

/// Accepts a number for a site of the cell of a row.
fn accept(log: &mut CommandLog, row: u32, site: u16, number: i64) -> Result<(), Fail>
    requires { 0 < log.old.room }
    ensures { log.old.room ≤ log.new.room + 1 }
{
    log.reserve(1)?;
    let handle = Handle {
        session: 1,
        round: 1,
        cell: cell(row),
        site,
    };
    log.accept(0, handle, Value::Num(number));
    Ok(())
}

/// Puts another command at the end.
fn push(log: &mut CommandLog)
    requires { 0 < log.old.room }
    ensures { log.old.room ≤ log.new.room + 1 }
{
    log.push(Entry {
        actor: 0,
        command: Command::Settle,
    });
}

/// Whether the accepted values of the cell of a row are these, with their sites.
fn has_results(
    log: &CommandLog,
    alloc: Global,
    row: u32,
    wanted: &[(u16, i64)],
) -> Result<bool, Fail> {
    let results = log.results(alloc, cell(row))?;
    if results.len() != wanted.len() {
        return Ok(false);
    }
    for ((site, value), (place, number)) in results.iter().zip(wanted) {
        if site != place || *value != Value::Num(*number) {
            return Ok(false);
        }
    }
    Ok(true)
}

#[test]
fn accepted_values_are_found_by_cell_and_site(rt: HostRuntime) -> Result<(), Fail> {
    let alloc = rt.alloc();
    let mut log = CommandLog::open(alloc, 4)?;
    accept(&mut log, 1, 1, 5)?;
    accept(&mut log, 2, 1, 7)?;
    push(&mut log);
    accept(&mut log, 1, 2, 6)?;
    assert!(rt; has_results(&log, alloc, 1, &[(2, 6), (1, 5)])?);
    assert!(rt; has_results(&log, alloc, 2, &[(1, 7)])?);
    assert!(rt; has_results(&log, alloc, 3, &[])?);
    assert!(rt; log.has_result(cell(1), 1));
    assert!(rt; !log.has_result(cell(2), 2));
    log.forget(&[cell(1), cell(3)]);
    assert!(rt; has_results(&log, alloc, 1, &[])?);
    assert!(rt; has_results(&log, alloc, 2, &[(1, 7)])?);
    assert_eq!(rt; log.len(), 4);
    assert_eq!(rt; log.into_entries().len(), 4);
    Ok(())
}
