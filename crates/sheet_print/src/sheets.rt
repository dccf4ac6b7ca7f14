//! Writes the cells of a sheet.

ghost use Rattle.std.specs.Prelude.{◌≡◌, ◌++◌, OnOk, OnErr, take, vec_len, codes, option_copied};
ghost use Rattle.std.specs.List.{flat_map};
ghost use Rattle.cell_refs.specs.Written.{cell_text};
ghost use Rattle.sheet_print.specs.Records.{shown_text};
ghost use Rattle.sheet_print.specs.Replies.{cell_line, line_of, sheet_text};

use super::lines::{push, push_line};
use super::records::push_records;
use cell_refs::{Cell, write_cell};
use cell_values::{Memory, Value, print_value};
use workbook::{Form, SheetCells};

/// Appends the lines of a sheet, and `end`.
pub(crate) fn push_sheet(form: Form, cells: &SheetCells, out: &mut Vec<u8>) -> Result<(), Memory>
    ensures ok { OnOk result (out.new.items ≡ out.old.items ++ sheet_text form cells.now
        ++ line_of (codes "end")) }
    ensures kept { take (vec_len out.old) out.new.items ≡ out.old.items }
{
    match form {
        Form::Lines => push_cells(cells, out)?,
        Form::Csv => push_records(cells, out)?,
    }
    push_line(b"end", out)
}

/// Appends a line for each cell.
fn push_cells(cells: &SheetCells, out: &mut Vec<u8>) -> Result<(), Memory>
    ensures ok { OnOk result (out.new.items ≡ out.old.items ++ flat_map cell_line cells.now) }
    ensures kept { take (vec_len out.old) out.new.items ≡ out.old.items }
{
    for (cell, shown) in cells.as_slice() {
        push_cell(*cell, shown.as_ref(), out)?;
    }
    Ok(())
}

/// Appends the line of a cell.
fn push_cell(cell: Cell, shown: Option<&Value>, out: &mut Vec<u8>) -> Result<(), Memory>
    ensures ok { OnOk result (out.new.items ≡ out.old.items
        ++ cell_line (cell, option_copied shown.entry)) }
    ensures kept { take (vec_len out.old) out.new.items ≡ out.old.items }
{
    push_name(cell, out)?;
    push(b"=", out)?;
    push_shown(shown, out)?;
    push(b"\n", out)
}

/// Appends the text of a cell.
pub(crate) fn push_name(cell: Cell, out: &mut Vec<u8>) -> Result<(), Memory>
    ensures ok { OnOk result (out.new.items ≡ out.old.items ++ cell_text cell) }
    ensures err { OnErr result (out.new.items ≡ out.old.items) }
{
    match write_cell(cell, out) {
        Ok(()) => Ok(()),
        Err(_) => Err(Memory),
    }
}

/// Appends what a cell shows.
fn push_shown(shown: Option<&Value>, out: &mut Vec<u8>) -> Result<(), Memory>
    ensures ok { OnOk result (out.new.items ≡ out.old.items
        ++ shown_text (option_copied shown.entry)) }
    ensures err { OnErr result (out.new.items ≡ out.old.items) }
{
    match shown {
        None => push(b"#CIRC!", out),
        Some(value) => print_value(value, out),
    }
}
