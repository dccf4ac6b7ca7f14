ghost use Rattle.std.specs.Prelude.{◌≡◌, ◌<◌, [], IfOk};

use super::numbering::Numbering;
use super::{CellChain, Memory};
use cell_refs::{Cell, Steps};
use std::alloc::Global;
use std::marker::Brand;
use std::process::Abort;
use std::sync::ledger::{Blank, Ledger};
use std::test::Fail;

/// A cell of a row, in a column and on a sheet that change with it.
fn cell(row: u32) -> Cell {
    let (sheet, col) = if row > 8 { (2, 3) } else { (1, 1) };
    Cell { sheet, row, col }
}

/// A chain of the cells of these rows, none of which is due.
fn chain_of(alloc: Global, rows: &[u32]) -> Result<CellChain, Memory>
    ensures { IfOk result (λ chain. chain.due ≡ []) }
{
    let mut chain = CellChain::new(alloc);
    for row in rows {
        append(&mut chain, *row)?;
    }
    Ok(chain)
}

/// Puts the cell of a row at the end, where it isn't there.
fn append(chain: &mut CellChain, row: u32) -> Result<(), Memory>
    ensures { chain.new.due ≡ chain.old.due }
{
    let cell = cell(row);
    if !chain.has(cell) {
        chain.append(cell)?;
    }
    Ok(())
}

/// Makes the cells of these rows due, those that are there.
fn make_due(alloc: Global, chain: &mut CellChain, rows: &[u32]) -> Result<(), Memory> {
    let mut due: Vec<Cell> = Vec::new(alloc);
    for row in rows {
        let cell = cell(*row);
        if chain.has(cell) && !due.contains(&cell) {
            due.push(cell)?;
        }
    }
    chain.rewind(&due);
    Ok(())
}

/// Moves a cell behind another, where both are there.
fn move_behind(chain: &mut CellChain, x: Cell, y: Cell)
    requires { chain.old.due ≡ [] }
    ensures { chain.new.due ≡ [] }
{
    if x != y && chain.has(x) && chain.has(y) {
        chain.move_behind(x, y);
    }
}

/// Asserts which rows' cells are in the chain, in their order.
fn assert_listed(
    rt: &impl Abort,
    alloc: Global,
    chain: &CellChain,
    wanted: &[u32],
) -> Result<(), Memory> {
    let list = chain.list(alloc)?;
    assert_eq!(rt; list.len(), wanted.len());
    for (cell_there, row) in list.iter().zip(wanted) {
        assert_eq!(rt; *cell_there, cell(*row));
    }
    Ok(())
}

/// Asserts which rows' cells are due, one after the other, and then none.
fn assert_due<L: Ledger>(rt: &impl Abort, blank: Blank, chain: CellChain, wanted: &[u32])
    requires name { blank.name ≡ L.name }
    requires parts { blank.parts ≡ L.parts }
    requires some { 0 < blank.parts }
{
    let mut chain = chain;
    let mut steps = Steps::<L>::new(blank);
    for row in wanted {
        assert_eq!(rt; chain.next(&mut steps), Some(cell(*row)));
    }
    assert_eq!(rt; chain.next(&mut steps), None);
    assert_eq!(rt; chain.next(&mut steps), None);
}

#[test]
fn a_chain_written_backward_is_moved_into_order(rt: HostRuntime) -> Result<(), Fail> {
    let mut chain = chain_of(rt.alloc(), &[9, 3, 2, 1])?;
    assert_listed(&rt, rt.alloc(), &chain, &[9, 3, 2, 1])?;
    // 9 reads 3, 3 reads 2 and 2 reads 1; the last move finds 9 behind 3 already.
    for (x, y, wanted) in [
        (9, 3, [3, 9, 2, 1]),
        (3, 2, [9, 2, 3, 1]),
        (9, 3, [2, 3, 9, 1]),
        (2, 1, [3, 9, 1, 2]),
        (3, 2, [9, 1, 2, 3]),
        (9, 3, [1, 2, 3, 9]),
        (9, 1, [1, 2, 3, 9]),
    ] {
        move_behind(&mut chain, cell(x), cell(y));
        assert_listed(&rt, rt.alloc(), &chain, wanted.as_slice())?;
    }
    make_due(rt.alloc(), &mut chain, &[3, 9, 1])?;
    assert_due::<Brand>(&rt, Blank::new(1), chain, &[1, 3, 9]);
    Ok(())
}

#[test]
fn a_cell_that_is_taken_out_is_not_due(rt: HostRuntime) -> Result<(), Fail> {
    let mut chain = chain_of(rt.alloc(), &[4, 8, 12, 6, 10])?;
    make_due(rt.alloc(), &mut chain, &[10, 12, 4, 8])?;
    for row in [12, 12, 7, 6, 4] {
        chain.remove(cell(row));
    }
    assert!(rt; chain.has(cell(8)) && !chain.has(cell(12)) && !chain.has(cell(7)));
    assert_listed(&rt, rt.alloc(), &chain, &[8, 10])?;
    assert_due::<Brand>(&rt, Blank::new(1), chain, &[8, 10]);
    Ok(())
}

#[test]
fn a_new_cell_takes_the_number_of_one_that_is_gone(rt: HostRuntime) -> Result<(), Fail> {
    let mut chain = chain_of(rt.alloc(), &[1, 2, 3, 4])?;
    make_due(rt.alloc(), &mut chain, &[1, 2, 3, 4])?;
    for (gone, new) in [(2, 20), (3, 30), (30, 31)] {
        chain.remove(cell(gone));
        append(&mut chain, new)?;
    }
    assert_listed(&rt, rt.alloc(), &chain, &[1, 4, 20, 31])?;
    make_due(rt.alloc(), &mut chain, &[31, 4])?;
    assert_due::<Brand>(&rt, Blank::new(1), chain, &[4, 31]);
    Ok(())
}

#[test]
fn a_thousand_cells_in_turn_have_one_number(rt: HostRuntime) -> Result<(), Fail> {
    let mut numbering = Numbering::new(rt.alloc());
    for row in 1..=1_000 {
        let cell = cell(row);
        if let None = numbering.number_of(cell) {
            assert_eq!(rt; numbering.add(cell)?, 0);
        }
        assert_eq!(rt; numbering.remove(cell), Some(0));
    }
    Ok(())
}
