//! The formula cells with a call that passes a test.

ghost use Rattle.std.specs.Prelude.{◌≡◌, IfOk};
ghost use Rattle.std.specs.List.{filter};
ghost use Rattle.calc_book.specs.Calling.{has_call_where, is_added_named};
ghost use Rattle.formula_parse.specs.Callees.{is_rtd};

use cell_chain::CellChain;
use cell_refs::Cell;
use cell_values::{Memory, Name};
use formula_parse::{CallTest, Callee, any_call};
use std::alloc::Global;
use workbook::{Book, Content};

/// The test for RTD.
pub struct RtdTest;

impl CallTest for RtdTest {
    ghost passes = { λ test. is_rtd };

    fn passes(&self, callee: &Callee) -> bool {
        match callee {
            Callee::Rtd => true,
            Callee::BuiltIn(_) | Callee::Added(_) => false,
        }
    }
}

/// The test for the added function of a name.
#[derive(Drop)]
pub struct NameTest<'a> {
    pub name: &'a Name,
}

impl CallTest for NameTest<'_> {
    ghost passes = { λ test. is_added_named test.name.now };

    fn passes(&self, callee: &Callee) -> bool {
        match callee {
            Callee::Added(added) => self.name.as_str() == added.as_str(),
            Callee::BuiltIn(_) | Callee::Rtd => false,
        }
    }
}

/// Those of the chain's cells whose formula has a call that passes a test, in its order.
pub fn callers<T: CallTest>(
    alloc: Global,
    book: &Book,
    chain: &CellChain,
    test: &T,
) -> Result<Vec<Cell>, Memory>
    ensures { IfOk result (λ callers. callers.items
        ≡ filter (has_call_where book.now.contents (T.passes test.now)) chain.now.entries) }
{
    let Ok(cells) = chain.list(alloc) else {
        return Err(Memory);
    };
    calling(alloc, book, cells.as_slice(), test)
}

/// Those of some cells whose formula has a call that passes a test.
fn calling<T: CallTest>(
    alloc: Global,
    book: &Book,
    cells: &[Cell],
    test: &T,
) -> Result<Vec<Cell>, Memory>
    ensures { IfOk result (λ callers. callers.items
        ≡ filter (has_call_where book.now.contents (T.passes test.now)) cells.now) }
{
    let mut callers = Vec::new(alloc);
    for cell in cells {
        if has_call(book, *cell, test) {
            callers.push(*cell)?;
        }
    }
    Ok(callers)
}

/// Whether a cell has a formula with a call that passes a test.
fn has_call<T: CallTest>(book: &Book, cell: Cell, test: &T) -> bool
    ensures { result ≡ has_call_where book.now.contents (T.passes test.now) cell }
{
    match book.get(cell) {
        Some(Content::Formula(tree)) => any_call(tree, test),
        _ => false,
    }
}
