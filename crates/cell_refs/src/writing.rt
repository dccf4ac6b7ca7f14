ghost use Rattle.std.specs.Prelude.{◌≡◌, ◌++◌, OnOk, OnErr, take, vec_len, decimal};
ghost use Rattle.cell_refs.specs.Written.{cell_text, column_letters, last_letter, mark, reference_text, rounds_before, sheet_part};

use super::grid::Cell;
use super::memory::Memory;
use super::references::RefText;
use itoa::Buffer;

/// Writes a cell at the end of a text: without a sheet where it is on the first.
#[tactic(auto, unfolding(crate::specs::Written::cell_text))]
pub fn write_cell(cell: Cell, out: &mut Vec<u8>) -> Result<(), Memory>
    ensures ok { OnOk result (out.new.items ≡ out.old.items ++ cell_text cell) }
    ensures err { OnErr result (out.new.items ≡ out.old.items) }
{
    let sheet = if cell.sheet == 1 {
        None
    } else {
        Some(cell.sheet)
    };
    let plain = RefText {
        sheet,
        row: cell.row,
        col: cell.col,
        row_fixed: false,
        col_fixed: false,
    };
    write_ref(&plain, out)
}

/// Writes a reference at the end of a text, with its `$` and its sheet.
pub fn write_ref(r: &RefText, out: &mut Vec<u8>) -> Result<(), Memory>
    ensures ok { OnOk result (out.new.items ≡ out.old.items ++ reference_text r.now) }
    ensures err { OnErr result (out.new.items ≡ out.old.items) }
{
    let before = out.len();
    let written = push_reference(r, out);
    if written.is_err() {
        out.truncate(before);
    }
    written
}

/// Writes a reference at the end; a refusal may leave a part of it there.
#[tactic(auto, unfolding(crate::specs::Written::reference_text))]
fn push_reference(r: &RefText, out: &mut Vec<u8>) -> Result<(), Memory>
    ensures ok { OnOk result (out.new.items ≡ out.old.items ++ reference_text r.now) }
    ensures kept { take (vec_len out.old) out.new.items ≡ out.old.items }
{
    push_sheet(r.sheet, out)?;
    push_mark(r.col_fixed, out)?;
    push_column(r.col, out)?;
    push_mark(r.row_fixed, out)?;
    push_number(u64::from(r.row), out)
}

/// Writes the sheet's part, where a sheet is written.
fn push_sheet(sheet: Option<u8>, out: &mut Vec<u8>) -> Result<(), Memory>
    ensures ok { OnOk result (out.new.items ≡ out.old.items ++ sheet_part sheet) }
    ensures kept { take (vec_len out.old) out.new.items ≡ out.old.items }
{
    if let Some(sheet) = sheet {
        out.extend_from_slice(b"Sheet")?;
        push_number(u64::from(sheet), out)?;
        out.push(b'!')?;
    }
    Ok(())
}

/// Writes a `$` before a part that is absolute.
fn push_mark(fixed: bool, out: &mut Vec<u8>) -> Result<(), Memory>
    ensures ok { OnOk result (out.new.items ≡ out.old.items ++ mark fixed) }
    ensures kept { take (vec_len out.old) out.new.items ≡ out.old.items }
{
    if fixed {
        out.push(b'$')?;
    }
    Ok(())
}

/// Writes the letters of a column.
#[tactic(auto, unfolding(crate::specs::Written::column_letters))]
fn push_column(column: u16, out: &mut Vec<u8>) -> Result<(), Memory>
    ensures ok { OnOk result (out.new.items ≡ out.old.items ++ column_letters column) }
    ensures kept { take (vec_len out.old) out.new.items ≡ out.old.items }
{
    let middle = rounds_before(column);
    push_letter(rounds_before(middle), out)?;
    push_letter(middle, out)?;
    push_letter(column, out)
}

/// How often the last letter has gone round from A to Z before the column.
pub(crate) fn rounds_before(column: u16) -> u16
    ensures { result ≡ rounds_before column }
{
    column.saturating_sub(1) / 26
}

/// Writes the last letter of a column.
fn push_letter(column: u16, out: &mut Vec<u8>) -> Result<(), Memory>
    ensures ok { OnOk result (out.new.items ≡ out.old.items ++ last_letter column) }
    ensures kept { take (vec_len out.old) out.new.items ≡ out.old.items }
{
    if column != 0 {
        out.push(b'A' + ((column - 1) % 26) as u8)?;
    }
    Ok(())
}

/// Writes a number in decimal digits.
pub(crate) fn push_number(number: u64, out: &mut Vec<u8>) -> Result<(), Memory>
    ensures ok { OnOk result (out.new.items ≡ out.old.items ++ decimal number) }
    ensures err { OnErr result (out.new.items ≡ out.old.items) }
{
    let mut buffer = Buffer::new();
    out.extend_from_slice(buffer.format(number).as_bytes())?;
    Ok(())
}
