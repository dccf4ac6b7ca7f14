use super::{follow, follow_anew};
use cell_refs::Cell;
use cell_store::CellStore;
use cell_values::Value;
use dep_table::DepTable;
use formula_parse::parse;
use stale_marks::Marks;
use std::alloc::Global;
use std::collections::BTreeSet;
use std::marker::Model;
use std::process::Abort;
use std::test::Fail;
use workbook::{Book, Content};

/// What a host keeps: its book with the cells that are changed, and what is to follow the book.
#[derive(Drop)]
struct Host {
    book: Book,
    changed: BTreeSet<Cell>,
    table: DepTable,
    marks: Marks,
    store: CellStore,
}

impl Model for Host {
    ghost use Rattle.std.specs.Prelude.{List};
    ghost use Rattle.book_sync.specs.Following.{TableFollows};
    ghost use Rattle.cell_refs.specs.declared.grid.Cell.{Cell as OneCell};

    ghost Value = { List OneCell };

    ghost view = { λ h. h.changed.keys };

    ghost invariant = { λ h. TableFollows h.book.contents h.changed.keys h.table };
}

impl Host {
    fn new(alloc: Global) -> Host {
        Host {
            book: Book::new(alloc),
            changed: BTreeSet::new(alloc),
            table: DepTable::new(alloc),
            marks: Marks::new(alloc),
            store: CellStore::new(alloc),
        }
    }

    fn edit(&mut self, alloc: Global, place: Place, edit: Edit) -> Result<(), Fail> {
        match edit {
            Edit::Number(number) => self.set(cell(place), Content::Num(number)),
            Edit::Formula(text) => self.set(cell(place), Content::Formula(parse(alloc, text)?)),
            Edit::Clear => self.clear(cell(place)),
        }
    }

    fn set(&mut self, cell: Cell, content: Content) -> Result<(), Fail> {
        self.changed.insert(cell)?;
        match self.book.set(cell, content) {
            Ok(()) => Ok(()),
            Err(_) => Err(Fail::from("a refused content")),
        }
    }

    fn clear(&mut self, cell: Cell) -> Result<(), Fail> {
        self.changed.insert(cell)?;
        let _ = self.book.clear(cell);
        Ok(())
    }

    fn follow(&mut self, alloc: Global) -> Result<(), Fail> {
        follow(
            alloc,
            &self.book,
            &self.changed,
            &mut self.table,
            &mut self.marks,
            &mut self.store,
        )?;
        Ok(())
    }

    /// Gives each stale cell the value 7, and shows all.
    fn complete(&mut self, alloc: Global) -> Result<(), Fail> {
        follow(
            alloc,
            &self.book,
            &self.changed,
            &mut self.table,
            &mut self.marks,
            &mut self.store,
        )?;
        let stale = self.marks.list(alloc)?;
        finish(&mut self.store, stale.as_slice());
        self.store.complete();
        self.changed.clear();
        Ok(())
    }

    /// Asserts which cells are marked, and what is present.
    fn assert_follows(
        &self,
        rt: &impl Abort,
        marked: &[Place],
        present: &[(Place, Option<i64>)],
        after: usize,
    ) {
        assert_eq!(rt; self.marks.count(), marked.len(), "after step {after}");
        for place in marked {
            assert!(rt;
                self.marks.is_stale(cell(*place)),
                "{place:?} after step {after}"
            );
        }
        for sheet in 1..=2 {
            for row in 1..=10 {
                let found = number_at(&self.store, cell((sheet, row)));
                assert_eq!(rt;
                    found,
                    wanted_at(present, (sheet, row)),
                    "row {row} after step {after}"
                );
            }
        }
    }

    /// Makes an edit, lets all follow, once and again, asserts what stands then, and completes.
    fn step(
        &mut self,
        rt: &impl Abort,
        alloc: Global,
        change: &(Place, Edit, &'static [Place], Present),
        after: usize,
    ) -> Result<(), Fail> {
        let (place, edit, marked, present) = change;
        self.edit(alloc, *place, *edit)?;
        self.follow(alloc)?;
        self.assert_follows(rt, marked, present, after);
        self.follow(alloc)?;
        self.assert_follows(rt, marked, present, after);
        self.complete(alloc)
    }
}

/// A cell of the first column, by its sheet and row.
type Place = (u8, u32);

/// What is present at cells: a number, or no value yet.
type Present = &'static [(Place, Option<i64>)];

/// What is done at a cell.
#[derive(Clone, Copy)]
enum Edit {
    Number(i64),
    Formula(&'static str),
    Clear,
}

fn cell(place: Place) -> Cell {
    Cell {
        sheet: place.0,
        row: place.1,
        col: 1,
    }
}

/// What is present at a cell, where it isn't a text, say.
fn number_at(store: &CellStore, cell: Cell) -> Option<Option<i64>> {
    match store.present(cell)? {
        Some(Value::Num(number)) => Some(Some(*number)),
        _ => Some(None),
    }
}

fn wanted_at(present: &[(Place, Option<i64>)], place: Place) -> Option<Option<i64>> {
    for (other, number) in present {
        if *other == place {
            return Some(*number);
        }
    }
    None
}

/// Gives cells the value 7.
fn finish(store: &mut CellStore, cells: &[Cell]) {
    for cell in cells {
        if store.present(*cell).is_some() && store.is_touched(*cell) {
            store.finish(*cell, Value::Num(7));
        }
    }
}

#[test]
fn all_follows_the_edits_of_a_book(rt: HostRuntime) -> Result<(), Fail> {
    let steps: [(Place, Edit, &'static [Place], Present); 14] = [
        ((1, 1), Edit::Number(5), &[], &[((1, 1), Some(5))]),
        (
            (1, 2),
            Edit::Formula("=A1"),
            &[(1, 2)],
            &[((1, 1), Some(5)), ((1, 2), None)],
        ),
        (
            (1, 3),
            Edit::Formula("=A2"),
            &[(1, 3)],
            &[((1, 1), Some(5)), ((1, 2), Some(7)), ((1, 3), None)],
        ),
        (
            (1, 1),
            Edit::Number(6),
            &[(1, 2), (1, 3)],
            &[((1, 1), Some(6)), ((1, 2), None), ((1, 3), None)],
        ),
        // The last formula names another cell, and so a change of the first one no longer reaches it.
        (
            (1, 3),
            Edit::Formula("=B1"),
            &[(1, 3)],
            &[((1, 1), Some(6)), ((1, 2), Some(7)), ((1, 3), None)],
        ),
        (
            (1, 1),
            Edit::Number(8),
            &[(1, 2)],
            &[((1, 1), Some(8)), ((1, 2), None), ((1, 3), Some(7))],
        ),
        // A number in the place of a formula, and back.
        (
            (1, 2),
            Edit::Number(9),
            &[],
            &[((1, 1), Some(8)), ((1, 2), Some(9)), ((1, 3), Some(7))],
        ),
        (
            (1, 3),
            Edit::Formula("=A2"),
            &[(1, 3)],
            &[((1, 1), Some(8)), ((1, 2), Some(9)), ((1, 3), None)],
        ),
        (
            (1, 2),
            Edit::Formula("=A1"),
            &[(1, 2), (1, 3)],
            &[((1, 1), Some(8)), ((1, 2), None), ((1, 3), None)],
        ),
        (
            (1, 2),
            Edit::Clear,
            &[(1, 3)],
            &[((1, 1), Some(8)), ((1, 3), None)],
        ),
        // A circle.
        (
            (1, 2),
            Edit::Formula("=A3"),
            &[(1, 2), (1, 3)],
            &[((1, 1), Some(8)), ((1, 2), None), ((1, 3), None)],
        ),
        (
            (1, 1),
            Edit::Formula("=A9"),
            &[(1, 1)],
            &[((1, 1), None), ((1, 2), Some(7)), ((1, 3), Some(7))],
        ),
        // A formula that names no cell.
        (
            (1, 4),
            Edit::Formula("=1+2"),
            &[(1, 4)],
            &[
                ((1, 1), Some(7)),
                ((1, 2), Some(7)),
                ((1, 3), Some(7)),
                ((1, 4), None),
            ],
        ),
        (
            (1, 4),
            Edit::Clear,
            &[],
            &[((1, 1), Some(7)), ((1, 2), Some(7)), ((1, 3), Some(7))],
        ),
    ];
    let mut host = Host::new(rt.alloc());
    for (after, change) in steps.iter().enumerate() {
        host.step(&rt, rt.alloc(), change, after)?;
    }
    Ok(())
}

#[test]
fn a_formula_names_cells_of_its_own_sheet(rt: HostRuntime) -> Result<(), Fail> {
    let steps: [(Place, Edit, &'static [Place], Present); 4] = [
        (
            (1, 1),
            Edit::Formula("=Sheet2!A2"),
            &[(1, 1)],
            &[((1, 1), None)],
        ),
        (
            (2, 1),
            Edit::Formula("=A2"),
            &[(2, 1)],
            &[((1, 1), Some(7)), ((2, 1), None)],
        ),
        (
            (1, 2),
            Edit::Number(3),
            &[],
            &[((1, 1), Some(7)), ((1, 2), Some(3)), ((2, 1), Some(7))],
        ),
        (
            (2, 2),
            Edit::Number(4),
            &[(1, 1), (2, 1)],
            &[
                ((1, 1), None),
                ((1, 2), Some(3)),
                ((2, 1), None),
                ((2, 2), Some(4)),
            ],
        ),
    ];
    let mut host = Host::new(rt.alloc());
    for (after, change) in steps.iter().enumerate() {
        host.step(&rt, rt.alloc(), change, after)?;
    }
    Ok(())
}

#[test]
fn a_table_that_did_not_follow_is_made_anew(rt: HostRuntime) -> Result<(), Fail> {
    let mut book = Book::new(rt.alloc());
    for (row, text) in [(2, "=A1"), (3, "=A2"), (4, "=A9")] {
        let content = Content::Formula(parse(rt.alloc(), text)?);
        assert!(rt; book.set(cell((1, row)), content).is_ok());
    }
    let mut table = DepTable::new(rt.alloc());
    assert!(rt; table.put(cell((1, 7)), Vec::new(rt.alloc())).is_ok());
    let mut changed = BTreeSet::new(rt.alloc());
    changed.insert(cell((1, 1)))?;
    let mut marks = Marks::new(rt.alloc());
    let mut store = CellStore::new(rt.alloc());
    follow_anew(
        rt.alloc(),
        &book,
        &changed,
        &mut table,
        &mut marks,
        &mut store,
    )?;
    for (row, reader, stale) in [
        (1, false, false),
        (2, true, true),
        (3, true, true),
        (4, true, false),
        (7, false, false),
    ] {
        assert_eq!(rt; table.has(cell((1, row))), reader, "row {row}");
        assert_eq!(rt; marks.is_stale(cell((1, row))), stale, "row {row}");
    }
    Ok(())
}
