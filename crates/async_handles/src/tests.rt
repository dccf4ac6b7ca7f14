use super::{Call, Cell, Handle, Handles, Memory};
use cell_values::{Name, Value};
use functions::Values;
use std::alloc::Global;
use std::process::Abort;
use std::test::Fail;

/// A cell of column A or B on the first sheet.
fn cell(row: u32, col: u16) -> Cell {
    Cell { sheet: 1, row, col }
}

/// A handle of session 7.
fn handle(round: u64, cell: Cell, site: u16) -> Handle {
    Handle {
        session: 7,
        round,
        cell,
        site,
    }
}

/// Opens the call `SLOW(row)` of a cell that has none.
fn issue(
    alloc: Global,
    handles: &mut Handles,
    round: u64,
    cell: Cell,
    site: u16,
) -> Result<Handle, Fail> {
    handles.reserve(1)?;
    if handles.handle_of(cell).is_some() {
        return Err(Fail::from("a cell with a live handle"));
    }
    let name = Name::new(alloc, "SLOW")?;
    let mut args = Vec::new(alloc);
    args.push(Value::Num(i64::from(cell.row)))?;
    Ok(handles.issue(round, cell, site, name, Values::new(args)))
}

/// Compares a call with that of a handle.
fn assert_call(rt: &impl Abort, call: &Call, wanted: Handle) {
    assert_eq!(rt; call.handle, wanted);
    assert_eq!(rt; call.name.as_str(), "SLOW");
    assert_eq!(rt; call.args.as_slice().len(), 1);
    for arg in call.args.as_slice() {
        assert!(rt; *arg == Value::Num(i64::from(wanted.cell.row)));
    }
}

/// Compares the open calls with those of handles.
fn assert_listed(rt: &impl Abort, handles: &Handles, wanted: &[Handle]) -> Result<(), Memory> {
    let list = handles.list()?;
    assert_eq!(rt; list.len(), wanted.len());
    assert_eq!(rt; handles.live(), wanted.len());
    for (call, handle) in list.iter().zip(wanted) {
        assert_call(rt, call, *handle);
    }
    Ok(())
}

/// Compares the next call that wasn't served.
fn assert_next(
    rt: &impl Abort,
    handles: &mut Handles,
    wanted: Option<Handle>,
) -> Result<(), Memory> {
    match (handles.next_unserved()?, wanted) {
        (Some(call), Some(handle)) => assert_call(rt, &call, handle),
        (None, None) => {}
        _ => assert!(rt; false, "another call, or none"),
    }
    Ok(())
}

/// Compares what redeeming a handle answers.
fn assert_redeemed(
    rt: &impl Abort,
    handles: &mut Handles,
    handle: Handle,
    wanted: Option<(Cell, u16)>,
) {
    let redeemed = handles.redeem(&handle);
    assert_eq!(rt; redeemed, wanted);
}

/// Compares the first live handle.
fn assert_first(rt: &impl Abort, handles: &Handles, wanted: Option<Handle>) {
    let first = handles.first();
    assert_eq!(rt; first, wanted);
}

/// Compares the live handle of a cell.
fn assert_handle_of(rt: &impl Abort, handles: &Handles, cell: Cell, wanted: Option<Handle>) {
    let found = handles.handle_of(cell);
    assert_eq!(rt; found, wanted);
}

/// Opens, serves and redeems a call of each row, after all are open.
fn open_many(rt: &impl Abort, alloc: Global, handles: &mut Handles, rows: u32) -> Result<(), Fail> {
    for row in 0..rows {
        issue(alloc, handles, 1, cell(row, 1), 1)?;
    }
    let list = handles.list()?;
    assert_eq!(rt; list.len(), rows as usize);
    for row in 0..rows {
        let wanted = handle(1, cell(row, 1), 1);
        assert_first(rt, handles, Some(wanted));
        assert_next(rt, handles, Some(wanted))?;
        assert_redeemed(rt, handles, wanted, Some((wanted.cell, 1)));
    }
    Ok(())
}

#[test]
fn a_call_is_served_once(rt: HostRuntime) -> Result<(), Fail> {
    let mut handles = Handles::new(rt.alloc(), 7);
    let first = issue(rt.alloc(), &mut handles, 1, cell(1, 1), 1)?;
    assert_eq!(rt; first, handle(1, cell(1, 1), 1));
    assert_listed(&rt, &handles, &[first])?;
    assert_next(&rt, &mut handles, Some(first))?;
    assert_next(&rt, &mut handles, None)?;
    Ok(())
}

#[test]
fn calls_come_in_cell_order(rt: HostRuntime) -> Result<(), Fail> {
    let mut handles = Handles::new(rt.alloc(), 7);
    assert_first(&rt, &handles, None);
    let third = issue(rt.alloc(), &mut handles, 4, cell(2, 1), 1)?;
    let second = issue(rt.alloc(), &mut handles, 4, cell(1, 2), 3)?;
    assert_listed(&rt, &handles, &[second, third])?;
    assert_next(&rt, &mut handles, Some(second))?;
    let first = issue(rt.alloc(), &mut handles, 4, cell(1, 1), 2)?;
    assert_first(&rt, &handles, Some(first));
    assert_listed(&rt, &handles, &[first, second, third])?;
    assert_next(&rt, &mut handles, Some(first))?;
    assert_next(&rt, &mut handles, Some(third))?;
    assert_next(&rt, &mut handles, None)?;
    Ok(())
}

#[test]
fn only_a_live_handle_is_redeemed(rt: HostRuntime) -> Result<(), Fail> {
    let mut handles = Handles::new(rt.alloc(), 7);
    let live = issue(rt.alloc(), &mut handles, 4, cell(2, 1), 5)?;
    assert_redeemed(&rt, &mut handles, Handle { session: 8, ..live }, None);
    assert_redeemed(&rt, &mut handles, handle(3, cell(2, 1), 5), None);
    assert_redeemed(&rt, &mut handles, handle(4, cell(1, 1), 5), None);
    assert_redeemed(&rt, &mut handles, handle(4, cell(2, 1), 6), None);
    assert_handle_of(&rt, &handles, cell(2, 1), Some(live));
    assert_redeemed(&rt, &mut handles, live, Some((cell(2, 1), 5)));
    assert_redeemed(&rt, &mut handles, live, None);
    assert_handle_of(&rt, &handles, cell(2, 1), None);
    let again = issue(rt.alloc(), &mut handles, 4, cell(2, 1), 6)?;
    assert_redeemed(&rt, &mut handles, live, None);
    assert_listed(&rt, &handles, &[again])?;
    Ok(())
}

#[test]
fn a_cancel_ends_all_calls(rt: HostRuntime) -> Result<(), Fail> {
    let mut handles = Handles::new(rt.alloc(), 7);
    let first = issue(rt.alloc(), &mut handles, 4, cell(2, 1), 1)?;
    issue(rt.alloc(), &mut handles, 4, cell(1, 2), 1)?;
    handles.cancel_all();
    assert_listed(&rt, &handles, &[])?;
    assert_first(&rt, &handles, None);
    assert_next(&rt, &mut handles, None)?;
    assert_redeemed(&rt, &mut handles, first, None);
    let again = issue(rt.alloc(), &mut handles, 5, cell(2, 1), 1)?;
    assert_next(&rt, &mut handles, Some(again))?;
    Ok(())
}

#[test]
fn many_calls_take_little_time(rt: HostRuntime) -> Result<(), Fail> {
    let mut handles = Handles::new(rt.alloc(), 7);
    handles.reserve(20_000)?;
    open_many(&rt, rt.alloc(), &mut handles, 20_000)?;
    assert_eq!(rt; handles.live(), 0);
    Ok(())
}
