//! Laws of the definitions. The functions do nothing; each carries a theorem as its contract.

ghost use Rattle.std.specs.Prelude.{List};
ghost use Rattle.cell_refs.specs.declared.grid.Cell.{Cell};
ghost use Rattle.workbook.specs.declared.contents.Content.{Content};
ghost use Rattle.workbook.specs.Meaning.{Setting};
ghost use Rattle.calc_round.specs.Accepting.{DifferAtCell, ReadsOnAfterAccepting, WorksOnAfterAccepting};

/// Where one more value is accepted for a cell with an open call, a recalculation goes on from there: the call is open no
/// longer, the cell is to be looked at again, and its readings are forgotten.
pub fn accepted_one()
    ensures working { (earlier later : Setting) (book : List (Cell × Content)) (cell : Cell)
        → DifferAtCell earlier later cell → WorksOnAfterAccepting earlier later book cell }
    ensures reads { (earlier later : Setting) (book : List (Cell × Content)) (cell : Cell)
        → DifferAtCell earlier later cell → ReadsOnAfterAccepting earlier later book cell }
{}
