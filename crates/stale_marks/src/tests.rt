use super::Marks;
use cell_refs::{Area, Cell};
use dep_table::DepTable;
use std::process::Abort;
use std::test::Fail;

/// A cell of the first column of the first sheet.
fn cell(row: u32) -> Cell {
    Cell {
        sheet: 1,
        row,
        col: 1,
    }
}

/// Makes a cell the reader of the rows from one to another.
fn put(
    rt: &HostRuntime,
    table: &mut DepTable,
    reader: u32,
    top: u32,
    bottom: u32,
) -> Result<(), Fail> {
    let area = Area {
        sheet: 1,
        top,
        left: 1,
        bottom,
        right: 1,
    };
    let areas = vec![in rt.alloc(); area]?;
    table.put(cell(reader), areas).map_err(|_| "no memory")?;
    Ok(())
}

/// Asserts which of the first rows are marked.
fn assert_marked(rt: &impl Abort, marks: &Marks, wanted: &[u32], after: &str) {
    assert_eq!(rt; marks.count(), wanted.len(), "{after}");
    for row in 1..=12 {
        assert_eq!(rt;
            marks.is_stale(cell(row)),
            wanted.contains(&row),
            "row {row} {after}"
        );
    }
}

#[test]
fn all_from_which_a_cell_is_reached_are_marked(rt: HostRuntime) -> Result<(), Fail> {
    let mut table = DepTable::new(rt.alloc());
    // 2 reads 1, 3 reads 2, 4 reads 1 to 3, 5 and 6 read each other and 5 reads 4, 7 reads 8.
    for (reader, top, bottom) in [
        (2, 1, 1),
        (3, 2, 2),
        (4, 1, 3),
        (5, 4, 6),
        (6, 5, 5),
        (7, 8, 8),
    ] {
        put(&rt, &mut table, reader, top, bottom)?;
    }
    let mut marks = Marks::new(rt.alloc());
    marks.mark(&table, cell(9))?;
    assert_marked(&rt, &marks, &[], "after a cell that nothing names");
    marks.mark(&table, cell(8))?;
    assert_marked(&rt, &marks, &[7], "after a constant");
    marks.mark(&table, cell(6))?;
    assert_marked(&rt, &marks, &[5, 6, 7], "after a cell on a circle");
    marks.mark(&table, cell(1))?;
    assert_marked(
        &rt,
        &marks,
        &[2, 3, 4, 5, 6, 7],
        "after the first of a chain",
    );
    marks.unmark(cell(3));
    assert_marked(&rt, &marks, &[2, 4, 5, 6, 7], "after one was taken away");
    marks.clear();
    assert_marked(&rt, &marks, &[], "after all were taken away");
    marks.mark(&table, cell(3))?;
    assert_marked(&rt, &marks, &[3, 4, 5, 6], "after a formula in the middle");
    Ok(())
}

#[test]
fn a_path_that_was_cut_is_reached_from_whoever_cut_it(rt: HostRuntime) -> Result<(), Fail> {
    let mut table = DepTable::new(rt.alloc());
    for (reader, named) in [(2, 1), (3, 2)] {
        put(&rt, &mut table, reader, named, named)?;
    }
    let mut marks = Marks::new(rt.alloc());
    marks.mark(&table, cell(1))?;
    put(&rt, &mut table, 2, 9, 9)?;
    marks.mark(&table, cell(2))?;
    assert_marked(&rt, &marks, &[2, 3], "after the path was cut");
    // A new reader of a marked cell is marked by its own change.
    put(&rt, &mut table, 4, 3, 3)?;
    marks.mark(&table, cell(4))?;
    assert_marked(&rt, &marks, &[2, 3, 4], "after a reader joined");
    // A constant in the place of a reader is no reader.
    table.remove(cell(2));
    marks.unmark(cell(2));
    marks.mark(&table, cell(2))?;
    assert_marked(&rt, &marks, &[3, 4], "after a constant was set");
    Ok(())
}

#[test]
fn one_cell_has_two_thousand_readers(rt: HostRuntime) -> Result<(), Fail> {
    let mut table = DepTable::new(rt.alloc());
    for row in 2..=2_001 {
        put(&rt, &mut table, row, 1, 1)?;
    }
    let mut marks = Marks::new(rt.alloc());
    marks.mark(&table, cell(1))?;
    assert_eq!(rt; marks.count(), 2_000);
    Ok(())
}
