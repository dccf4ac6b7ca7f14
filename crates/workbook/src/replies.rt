ghost use Rattle.std.specs.Prelude.{◌≡◌};

use super::commands::Form;
use super::lists::{Calls, EventList, Names};
use cell_refs::Cell;
use cell_values::{Name, Value};
use std::marker::Model;

/// The cells of a sheet with what they show, in cell order; None stands for a circular cell.
#[derive(Drop)]
pub struct SheetCells {
    cells: Vec<(Cell, Option<Value>)>,
}

impl Model for SheetCells {
    ghost use Rattle.std.specs.Prelude.{List, Option};
    ghost use Rattle.cell_refs.specs.declared.grid.Cell.{Cell};
    ghost use Rattle.cell_values.specs.declared.values.Value.{Value as CellValue};

    ghost Value = { List (Cell × Option CellValue) };

    ghost view = { λ s. s.cells.items };
}

impl SheetCells {
    /// The list as it stands.
    pub fn from_vec(cells: Vec<(Cell, Option<Value>)>) -> SheetCells
        ensures { result ≡ cells.items }
    {
        SheetCells { cells }
    }

    /// The cells in order.
    pub fn as_slice(&self) -> &[(Cell, Option<Value>)]
        ensures { result.now ≡ self.now }
    {
        self.cells.as_slice()
    }
}

/// The reply to a command.
#[derive(Drop)]
pub enum Reply {
    Ok,
    /// The server is known, or the name listens, already.
    Known,
    /// The name is that of a built-in function.
    Builtin,
    NoServer,
    NoListener,
    /// No recalculation runs.
    Idle,
    /// No server has told that it published since its values were last taken.
    Nothing,
    /// The throttle lets forced pulls alone through.
    Manual,
    /// The cell has no content, and as many cells have one as may.
    CellLimit,
    /// The cell has no formula, and as many cells have one as may.
    FormulaLimit,
    /// A recalculation of this number runs.
    Busy(u64),
    /// The throttle lets no pull through for so many milliseconds.
    Early(u64),
    Begun(u64),
    Cancelled(u64),
    /// What a return is answered with: 0, or 256 where its call isn't open. After Microsoft's documentation of
    /// `xlAsyncReturn`.
    Code(u16),
    /// The server of this name didn't start.
    Failed(Name),
    /// So many connected topics have another value now; these servers failed to give theirs.
    Pulled { changed: u64, failed: Names },
    Done { round: u64, cells: u64 },
    /// The recalculation waits for these calls, in the order of their cells.
    Waiting { round: u64, calls: Calls },
    /// What the listener hadn't fetched yet.
    Events(EventList),
    Sheet { form: Form, cells: SheetCells },
}
