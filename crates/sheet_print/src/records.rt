//! Writes the cells of a sheet as records of comma-separated values.

ghost use Rattle.std.specs.Prelude.{◌≡◌, ℕ, List, [], ◌∷◌, ◌++◌, Some, OnOk, OnErr, IfOk, option_copied};
ghost use Rattle.std.specs.List.{flat_map};
ghost use Rattle.csv.specs.Writing.{default_writer, row_text};
ghost use Rattle.sheet_print.specs.Records.{bare_text, kind_word};
ghost use Rattle.sheet_print.specs.Replies.{record_line};
ghost use Rattle.sheet_print.specs.RecordWriter.{HasWritten, IsOneLine};

use super::lines::push;
use super::sheets::push_name;
use cell_values::{Memory, Value};
use csv::Writer;
use itoa::Buffer;
use std::alloc::Global;
use workbook::SheetCells;

/// Appends a record for each cell.
pub(crate) fn push_records(cells: &SheetCells, out: &mut Vec<u8>) -> Result<(), Memory>
    ensures ok { OnOk result (out.new.items ≡ out.old.items ++ flat_map record_line cells.now) }
    ensures err { OnErr result (out.new.items ≡ out.old.items) }
{
    let records = records_of(*out.allocator(), cells)?;
    push(records.as_slice(), out)
}

/// The records of cells, one after another.
fn records_of(alloc: Global, cells: &SheetCells) -> Result<Vec<u8>, Memory>
    ensures { IfOk result (λ records. records.items ≡ flat_map record_line cells.now) }
{
    let mut records = Writer::from_writer(Vec::new(alloc));
    let mut name = Vec::new(alloc);
    for (cell, shown) in cells.as_slice() {
        name.clear();
        push_name(*cell, &mut name)?;
        write_shown(name.as_slice(), shown.as_ref(), &mut records)?;
    }
    match records.into_inner() {
        Ok(text) => Ok(text),
        Err(_) => Err(Memory),
    }
}

/// Writes the record of a cell's name and of what the cell shows.
fn write_shown(
    name: &[u8],
    shown: Option<&Value>,
    records: &mut Writer<Vec<u8>>,
) -> Result<(), Memory>
    ensures ok { OnOk result ((bytes : List ℕ) → HasWritten records.old bytes
        → HasWritten records.new (bytes ++ row_text default_writer (name.now
        ∷ kind_word (option_copied shown.entry) ∷ bare_text (option_copied shown.entry) ∷ []))) }
    ensures line { IsOneLine (bare_text (option_copied shown.entry)) }
{
    match shown {
        None => write_record(name, b"circular", b"#CIRC!", records),
        Some(value) => write_value(name, value, records),
    }
}

/// Writes the record of a cell's name and its value.
fn write_value(name: &[u8], value: &Value, records: &mut Writer<Vec<u8>>) -> Result<(), Memory>
    ensures ok { OnOk result ((bytes : List ℕ) → HasWritten records.old bytes
        → HasWritten records.new (bytes ++ row_text default_writer (name.now
        ∷ kind_word (Some value.now) ∷ bare_text (Some value.now) ∷ []))) }
    ensures line { IsOneLine (bare_text (Some value.now)) }
{
    match value {
        Value::Num(n) => {
            let mut digits = Buffer::new();
            write_record(name, b"number", digits.format(*n).as_bytes(), records)
        }
        Value::Text(text) => write_record(name, b"text", text.as_str().as_bytes(), records),
        Value::Bool(true) => write_record(name, b"bool", b"TRUE", records),
        Value::Bool(false) => write_record(name, b"bool", b"FALSE", records),
        Value::Error(kind) => write_record(name, b"error", kind.word().as_bytes(), records),
        Value::Blank => write_record(name, b"number", b"0", records),
    }
}

/// Writes the record of a cell's name, the kind of what the cell shows, and that.
fn write_record<'a>(
    name: &'a [u8],
    kind: &'a [u8],
    text: &'a [u8],
    records: &mut Writer<Vec<u8>>,
) -> Result<(), Memory>
    ensures { OnOk result ((bytes : List ℕ) → HasWritten records.old bytes
        → HasWritten records.new (bytes
        ++ row_text default_writer (name.now ∷ kind.now ∷ text.now ∷ []))) }
{
    match records.write_fields(&[name, kind, text]) {
        Ok(()) => Ok(()),
        Err(_) => Err(Memory),
    }
}
