use super::DepTable;
use cell_refs::{Area, COLUMNS, Cell, Memory, ROWS};
use std::alloc::Global;
use std::collections::BTreeMap;
use std::process::Abort;
use std::test::Fail;

/// A cell of the first sheet.
fn cell(row: u32, col: u16) -> Cell {
    Cell { sheet: 1, row, col }
}

/// An area of the first sheet, by its top row, left column, bottom row and right column.
fn area(top: u32, left: u16, bottom: u32, right: u16) -> Area {
    Area {
        sheet: 1,
        top,
        left,
        bottom,
        right,
    }
}

/// A table of four readers in column 1, whose areas stand in columns 2 to 4.
fn table(rt: &HostRuntime) -> Result<DepTable, Fail> {
    let mut table = DepTable::new(rt.alloc());
    let lists = [
        (3, vec![in rt.alloc(); area(1, 2, 1, 2)]?),
        (
            1,
            vec![in rt.alloc(); area(1, 3, 65_536, 3), area(1, 2, 2, 2)]?,
        ),
        (2, Vec::new(rt.alloc())),
        (4, vec![in rt.alloc(); area(1, 2, 9, 4), area(1, 2, 9, 4)]?),
    ];
    for (row, areas) in lists {
        table.put(cell(row, 1), areas).map_err(|_| "no memory")?;
    }
    Ok(table)
}

#[test]
fn the_readers_of_a_cell_stand_in_cell_order(rt: HostRuntime) -> Result<(), Fail> {
    let table = table(&rt)?;
    let rows = [
        (cell(1, 2), &[1, 3, 4][..]),
        (cell(2, 2), &[1, 4][..]),
        (cell(9, 2), &[4][..]),
        (cell(10, 2), &[][..]),
        (cell(65_536, 3), &[1][..]),
        (cell(65_537, 3), &[][..]),
        (cell(9, 4), &[4][..]),
        (cell(9, 5), &[][..]),
        (cell(1, 1), &[][..]),
        (
            Cell {
                sheet: 2,
                row: 1,
                col: 2,
            },
            &[][..],
        ),
    ];
    for (of, wanted) in rows {
        let readers = table.readers(rt.alloc(), of)?;
        assert_eq!(rt; readers.len(), wanted.len(), "of {of:?}");
        for (reader, row) in readers.iter().zip(wanted) {
            assert_eq!(rt; *reader, cell(*row, 1), "of {of:?}");
        }
    }
    Ok(())
}

#[test]
fn a_reader_has_the_areas_that_were_put_last(rt: HostRuntime) -> Result<(), Fail> {
    let mut table = table(&rt)?;
    assert_eq!(rt; table.precedents(cell(3, 1)), [area(1, 2, 1, 2)].as_slice());
    assert!(rt; table.has(cell(2, 1)));
    assert!(rt; table.precedents(cell(2, 1)).is_empty());
    assert!(rt; !table.has(cell(5, 1)));
    assert!(rt; table.precedents(cell(5, 1)).is_empty());
    let areas = vec![in rt.alloc(); area(7, 7, 7, 7)]?;
    assert!(rt; table.put(cell(3, 1), areas).is_ok());
    assert_eq!(rt; table.precedents(cell(3, 1)), [area(7, 7, 7, 7)].as_slice());
    table.remove(cell(4, 1));
    table.remove(cell(5, 1));
    assert!(rt; !table.has(cell(4, 1)));
    let readers = table.readers(rt.alloc(), cell(1, 2))?;
    assert_eq!(rt; readers.as_slice(), [cell(1, 1)].as_slice());
    Ok(())
}

/// Numbers that look random, from a seed.
#[derive(Drop)]
struct Numbers {
    state: u64,
}

impl Numbers {
    /// A number below `limit`, or 0.
    fn below(&mut self, limit: u32) -> u32 {
        let state = self.state.wrapping_mul(6_364_136_223_846_793_005);
        self.state = state.wrapping_add(1_442_695_040_888_963_407);
        let limit = u64::from(limit.max(1));
        u32::try_from((self.state >> 33) % limit).unwrap_or(0)
    }

    /// A small column, or the last one.
    fn col(&mut self) -> u16 {
        match self.below(8) {
            0 => COLUMNS,
            col => u16::try_from(col).unwrap_or(1),
        }
    }

    /// A sheet of three.
    fn sheet(&mut self) -> u8 {
        u8::try_from(self.below(3)).unwrap_or(0).saturating_add(1)
    }

    /// A cell of a few rows and columns, or of the last row.
    fn cell(&mut self) -> Cell {
        let row = match self.below(12) {
            0 => ROWS,
            1 => 65_536,
            row => row,
        };
        Cell {
            sheet: self.sheet(),
            row,
            col: self.col(),
        }
    }

    /// One cell, a column of 65,536 cells, an area that many have, or any.
    fn area(&mut self) -> Area {
        let (a, b) = (self.cell(), self.cell());
        let (top, bottom) = match self.below(4) {
            0 => (a.row, a.row),
            1 => (1, 65_536),
            2 => (3, 4),
            _ => (a.row.min(b.row), a.row.max(b.row)),
        };
        Area {
            sheet: a.sheet,
            top,
            left: a.col.min(b.col),
            bottom,
            right: a.col.max(b.col),
        }
    }

    /// Up to four areas, or 255.
    fn areas(&mut self, alloc: Global) -> Result<Vec<Area>, Memory> {
        let count = match self.below(40) {
            0 => 255,
            count => count % 5,
        };
        let mut areas = Vec::new(alloc);
        for _ in 0..count {
            areas.push(self.area())?;
        }
        Ok(areas)
    }
}

/// The readers of a cell, by a look at each reader's areas.
fn plain_readers(
    alloc: Global,
    plain: &BTreeMap<Cell, Vec<Area>>,
    cell: Cell,
) -> Result<Vec<Cell>, Memory> {
    let mut readers = Vec::new(alloc);
    for (reader, areas) in plain {
        if areas.iter().any(|area| area.contains(cell)) {
            readers.push(*reader)?;
        }
    }
    Ok(readers)
}

/// A list of random calls on a table and on a plain map, which answer alike.
fn assert_alike(rt: &impl Abort, alloc: Global, seed: u64, calls: u32) -> Result<(), Fail> {
    let mut numbers = Numbers { state: seed };
    let mut table = DepTable::new(alloc);
    let mut plain = BTreeMap::new(alloc);
    for _ in 0..calls {
        let reader = numbers.cell();
        if numbers.below(3) == 0 {
            table.remove(reader);
            let _ = plain.remove(&reader);
        } else {
            let areas = numbers.areas(alloc)?;
            let copy = areas.clone()?;
            table.put(reader, areas).map_err(|_| "no memory")?;
            let _ = plain.insert(reader, copy).map_err(|_| "no memory")?;
        }
        let cell = numbers.cell();
        let found = table.readers(alloc, cell)?;
        let wanted = plain_readers(alloc, &plain, cell)?;
        assert_eq!(rt; found.as_slice(), wanted.as_slice(), "of {cell:?}");
    }
    Ok(())
}

#[test]
fn random_calls_find_what_a_look_at_all_areas_finds(rt: HostRuntime) -> Result<(), Fail> {
    for seed in 1..9 {
        assert_alike(&rt, rt.alloc(), seed, 400)?;
    }
    Ok(())
}

#[test]
fn of_ten_thousand_readers_each_finds_its_row(rt: HostRuntime) -> Result<(), Fail> {
    let mut table = DepTable::new(rt.alloc());
    for row in 1..10_001 {
        let areas = vec![in rt.alloc(); area(row, 2, row, 2)]?;
        table.put(cell(row, 1), areas).map_err(|_| "no memory")?;
    }
    for row in 1..10_001 {
        let readers = table.readers(rt.alloc(), cell(row, 2))?;
        assert_eq!(rt; readers.as_slice(), [cell(row, 1)].as_slice());
    }
    Ok(())
}
