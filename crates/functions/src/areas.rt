ghost use Rattle.std.specs.Prelude.{◌≡◌, ◌<◌, ◌≤◌, ◌+◌, ◌-◌, ◌*◌, ◌/◌, length, IfOk, unsigned_abs, slice_get};
ghost use Rattle.cell_values.specs.Value.{final_of};
ghost use Rattle.functions.specs.Inputs.{AreInputs};
ghost use Rattle.functions.specs.Areas.{value_at, area_cell, argument_cell, index_of};

use super::arguments::{Arg, number_at};
use cell_values::{ErrorKind, Memory, Value};

/// The value at a row and a column, counted from 0.
fn answer_at(columns: usize, values: &[Value], row: usize, column: usize) -> Result<Value, Memory>
    requires row { row < length values.now / columns }
    requires column { column < columns }
    ensures { IfOk result (λ answer. answer ≡ final_of (value_at columns values.now row column)) }
{
    let value = values[row * columns + column].copy()?;
    Ok(value.or_zero())
}

/// The value at a row and a column, counted from 1.
fn area_answer(columns: usize, values: &[Value], row: i64, column: i64) -> Result<Value, Memory>
    requires { 0 < columns }
    ensures { IfOk result (λ answer. answer ≡ area_cell columns values.now row column) }
{
    if row < 1 || column < 1 {
        return Ok(Value::Error(ErrorKind::Value));
    }
    let row = row.unsigned_abs() as usize;
    let column = column.unsigned_abs() as usize;
    if row > values.len() / columns || column > columns {
        return Ok(Value::Error(ErrorKind::Ref));
    }
    answer_at(columns, values, row - 1, column - 1)
}

/// A cell of the area that is the first argument.
pub fn index(args: &[Arg]) -> Result<Value, Memory>
    requires { AreInputs args.now }
    ensures { IfOk result (λ answer. answer ≡ index_of args.now) }
{
    let (row, column) = match (number_at(args, 1), number_at(args, 2)) {
        (Err(kind), _) => return Ok(Value::Error(kind)),
        (Ok(_), Err(kind)) => return Ok(Value::Error(kind)),
        (Ok(row), Ok(column)) => (row, column),
    };
    match args.first() {
        Some(Arg::Cells { columns, values }) => {
            area_answer(*columns as usize, values.as_slice(), row, column)
        }
        Some(Arg::Direct(_)) | None => Ok(Value::Error(ErrorKind::Value)),
    }
}
