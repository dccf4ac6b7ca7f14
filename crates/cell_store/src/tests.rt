use super::CellStore;
use cell_refs::{Area, COLUMNS, Cell, ROWS};
use cell_values::{ErrorKind, Text, Value};
use std::alloc::Global;
use std::process::Abort;
use std::test::Fail;

/// The numbers of rows of the first column; None where a row has no number.
type Rows = &'static [(u32, Option<i64>)];

/// A change of a store, by row of the first column.
#[derive(Clone, Copy)]
enum Change {
    Put(u32, Option<i64>),
    Remove(u32),
    Touch(u32),
    Empty(u32),
    Finish(u32, i64),
    Complete,
}

/// A cell of the first sheet.
fn cell(row: u32, col: u16) -> Cell {
    Cell { sheet: 1, row, col }
}

/// An area, by its sheet, top row, left column, bottom row and right column.
fn area(sheet: u8, top: u32, left: u16, bottom: u32, right: u16) -> Area {
    Area {
        sheet,
        top,
        left,
        bottom,
        right,
    }
}

/// Makes a change to the store.
fn make(store: &mut CellStore, change: &Change) -> Result<(), Fail> {
    match change {
        Change::Put(row, None) => store.put(cell(*row, 1), None)?,
        Change::Put(row, Some(n)) => store.put(cell(*row, 1), Some(Value::Num(*n)))?,
        Change::Remove(row) => store.remove(cell(*row, 1))?,
        Change::Touch(row) => store.touch(cell(*row, 1))?,
        Change::Empty(row) => {
            let cell = cell(*row, 1);
            if store.present(cell).is_some() && store.is_touched(cell) {
                store.empty(cell);
            }
        }
        Change::Finish(row, n) => {
            let cell = cell(*row, 1);
            if store.present(cell).is_some() && store.is_touched(cell) {
                store.finish(cell, Value::Num(*n));
            }
        }
        Change::Complete => store.complete(),
    }
    Ok(())
}

/// The rows as entries of a sheet.
fn entries(alloc: Global, rows: Rows) -> Result<Vec<(Cell, Option<Value>)>, Fail> {
    let mut entries = Vec::new(alloc);
    for (row, number) in rows {
        let value = match number {
            None => None,
            Some(n) => Some(Value::Num(*n)),
        };
        entries.push((cell(*row, 1), value))?;
    }
    Ok(entries)
}

/// Asserts what is present of the first rows.
fn assert_present(rt: &impl Abort, store: &CellStore, rows: Rows, step: usize) {
    for row in 1..=4 {
        let mut wanted = None;
        for (other, number) in rows {
            if *other == row {
                wanted = Some(*number);
            }
        }
        let found = match store.present(cell(row, 1)) {
            Some(Some(Value::Num(n))) => Some(Some(*n)),
            Some(_) => Some(None),
            None => None,
        };
        assert_eq!(rt; found, wanted, "row {row} after step {step}");
    }
}

#[test]
fn the_sheet_shows_what_was_present_at_the_last_completion(rt: HostRuntime) -> Result<(), Fail> {
    let steps: [(Change, Rows, Rows); 22] = [
        (Change::Put(1, Some(10)), &[(1, Some(10))], &[]),
        (Change::Put(2, None), &[(1, Some(10)), (2, None)], &[]),
        (Change::Finish(2, 20), &[(1, Some(10)), (2, Some(20))], &[]),
        (
            Change::Complete,
            &[(1, Some(10)), (2, Some(20))],
            &[(1, Some(10)), (2, Some(20))],
        ),
        (
            Change::Put(1, Some(11)),
            &[(1, Some(11)), (2, Some(20))],
            &[(1, Some(10)), (2, Some(20))],
        ),
        (
            Change::Put(1, Some(12)),
            &[(1, Some(12)), (2, Some(20))],
            &[(1, Some(10)), (2, Some(20))],
        ),
        (
            Change::Remove(2),
            &[(1, Some(12))],
            &[(1, Some(10)), (2, Some(20))],
        ),
        (
            Change::Put(3, None),
            &[(1, Some(12)), (3, None)],
            &[(1, Some(10)), (2, Some(20))],
        ),
        (
            Change::Complete,
            &[(1, Some(12)), (3, None)],
            &[(1, Some(12)), (3, None)],
        ),
        (
            Change::Finish(3, 29),
            &[(1, Some(12)), (3, None)],
            &[(1, Some(12)), (3, None)],
        ),
        (
            Change::Put(3, None),
            &[(1, Some(12)), (3, None)],
            &[(1, Some(12)), (3, None)],
        ),
        (
            Change::Finish(3, 30),
            &[(1, Some(12)), (3, Some(30))],
            &[(1, Some(12)), (3, None)],
        ),
        (
            Change::Remove(1),
            &[(3, Some(30))],
            &[(1, Some(12)), (3, None)],
        ),
        (
            Change::Put(1, Some(5)),
            &[(1, Some(5)), (3, Some(30))],
            &[(1, Some(12)), (3, None)],
        ),
        (
            Change::Remove(4),
            &[(1, Some(5)), (3, Some(30))],
            &[(1, Some(12)), (3, None)],
        ),
        (
            Change::Complete,
            &[(1, Some(5)), (3, Some(30))],
            &[(1, Some(5)), (3, Some(30))],
        ),
        (
            Change::Empty(1),
            &[(1, Some(5)), (3, Some(30))],
            &[(1, Some(5)), (3, Some(30))],
        ),
        (
            Change::Touch(1),
            &[(1, Some(5)), (3, Some(30))],
            &[(1, Some(5)), (3, Some(30))],
        ),
        (
            Change::Empty(1),
            &[(1, None), (3, Some(30))],
            &[(1, Some(5)), (3, Some(30))],
        ),
        (
            Change::Touch(1),
            &[(1, None), (3, Some(30))],
            &[(1, Some(5)), (3, Some(30))],
        ),
        (
            Change::Touch(4),
            &[(1, None), (3, Some(30))],
            &[(1, Some(5)), (3, Some(30))],
        ),
        (
            Change::Complete,
            &[(1, None), (3, Some(30))],
            &[(1, None), (3, Some(30))],
        ),
    ];
    let mut store = CellStore::new(rt.alloc());
    for (step, (change, present, shown)) in steps.iter().enumerate() {
        make(&mut store, change)?;
        assert_present(&rt, &store, present, step);
        let sheet = store.sheet(rt.alloc())?;
        let wanted = entries(rt.alloc(), shown)?;
        assert_eq!(rt; sheet.as_slice(), wanted.as_slice(), "after step {step}");
    }
    Ok(())
}

/// The text 'b'.
fn text(alloc: Global) -> Result<Value, Fail> {
    let text = Text::new(alloc, "b").map_err(|_| "no memory")?;
    Ok(Value::Text(text))
}

/// A store with cells on two sheets, of which the one in row 4 and column 4 of the first lacks a value.
fn filled(alloc: Global) -> Result<CellStore, Fail> {
    let mut store = CellStore::new(alloc);
    store.put(cell(5, 1), Some(Value::Bool(true)))?;
    store.put(cell(1, 1), Some(Value::Num(1)))?;
    store.put(cell(2, 2), Some(text(alloc)?))?;
    store.put(cell(1, 3), Some(Value::Error(ErrorKind::Div0)))?;
    store.put(cell(4, 4), None)?;
    store.put(cell(ROWS, 2), Some(Value::Blank))?;
    let far = Cell {
        sheet: 2,
        row: 3,
        col: COLUMNS,
    };
    store.put(far, Some(Value::Num(9)))?;
    Ok(store)
}

/// The entry of a cell of the store that has a value, by a letter of its own.
fn entry(alloc: Global, letter: char) -> Result<(Cell, Value), Fail> {
    let far = Cell {
        sheet: 2,
        row: 3,
        col: COLUMNS,
    };
    match letter {
        'a' => Ok((cell(1, 1), Value::Num(1))),
        'b' => Ok((cell(1, 3), Value::Error(ErrorKind::Div0))),
        'c' => Ok((cell(2, 2), text(alloc)?)),
        'd' => Ok((cell(5, 1), Value::Bool(true))),
        'e' => Ok((cell(ROWS, 2), Value::Blank)),
        _ => Ok((far, Value::Num(9))),
    }
}

#[test]
fn the_values_of_areas_are_gathered_each_once_in_cell_order(rt: HostRuntime) -> Result<(), Fail> {
    let store = filled(rt.alloc())?;
    let rows: [(&[Area], &str); 9] = [
        (&[], ""),
        (&[area(1, 1, 1, 2, 2)], "ac"),
        (&[area(1, 1, 1, 2, 3)], "abc"),
        (&[area(1, 1, 2, 5, 3), area(1, 1, 1, 2, 2)], "abc"),
        (&[area(1, 2, 2, 2, 2), area(1, 2, 2, 2, 2)], "c"),
        (&[area(1, 1, 2, ROWS, 2)], "ce"),
        (&[area(2, 1, 1, ROWS, COLUMNS), area(1, 5, 1, 5, 1)], "df"),
        (
            &[area(1, 1, 1, ROWS, 3), area(2, 3, COLUMNS, 3, COLUMNS)],
            "abcdef",
        ),
        (&[area(3, 1, 1, ROWS, COLUMNS)], ""),
    ];
    for (areas, letters) in rows {
        let Some(gathered) = store.gather(rt.alloc(), areas)? else {
            return Err(Fail::from("a cell has no value"));
        };
        let mut wanted = Vec::new(rt.alloc());
        for letter in letters.chars() {
            wanted.push(entry(rt.alloc(), letter)?)?;
        }
        assert_eq!(rt; gathered.as_slice(), wanted.as_slice(), "of {letters}");
    }
    Ok(())
}

#[test]
fn a_cell_without_a_value_is_found_and_nothing_is_gathered(rt: HostRuntime) -> Result<(), Fail> {
    let mut store = filled(rt.alloc())?;
    store.put(cell(4, 2), None)?;
    let other = Cell {
        sheet: 2,
        row: 1,
        col: 1,
    };
    store.put(other, None)?;
    let sheets = [area(2, 1, 1, ROWS, COLUMNS), area(1, 1, 1, ROWS, COLUMNS)];
    let rows: [(&[Area], Option<Cell>, Option<Cell>); 9] = [
        (&sheets, None, Some(cell(4, 2))),
        (&sheets, Some(cell(4, 2)), Some(cell(4, 4))),
        (&sheets, Some(cell(4, 3)), Some(cell(4, 4))),
        (&sheets, Some(cell(4, 4)), Some(other)),
        (&sheets, Some(other), None),
        (&[area(1, 1, 3, 9, 9)], None, Some(cell(4, 4))),
        (
            &[area(1, 1, 1, 3, 9), area(1, 4, 4, 4, 4)],
            None,
            Some(cell(4, 4)),
        ),
        (&[area(1, 1, 1, 3, 9)], None, None),
        (&[], None, None),
    ];
    for (areas, after, wanted) in rows {
        assert_eq!(rt; store.next_unknown(areas, after), wanted, "after {after:?}");
        if after.is_none() {
            let gathered = store.gather(rt.alloc(), areas)?;
            assert_eq!(rt; gathered.is_some(), wanted.is_none(), "before {wanted:?}");
        }
    }
    Ok(())
}
