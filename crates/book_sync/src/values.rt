//! What is present at a changed cell by its content.

ghost use Rattle.std.specs.Prelude.{◌≡◌, IfOk, OnOk, OnErr, None, Some};
ghost use Rattle.book_sync.specs.Following.{present_by_content};
ghost use Rattle.cell_store.specs.Store.{GainsTouched, KeepsShown, PutsPresent};
ghost use Rattle.workbook.specs.Book.{IsInOrder, by_content, content_at};

use cell_refs::Cell;
use cell_store::CellStore;
use cell_values::{Memory, Value};
use workbook::{Book, Content};

/// The value of a constant; None for a formula.
fn constant_value(content: &Content) -> Result<Option<Value>, Memory>
    ensures { IfOk result (λ value. value ≡ by_content Some (λ tree. None) (Some content.now)) }
{
    match content {
        Content::Num(number) => Ok(Some(Value::Num(*number))),
        Content::Text(text) => Ok(Some(Value::Text(text.copy()?))),
        Content::Bool(truth) => Ok(Some(Value::Bool(*truth))),
        Content::Error(kind) => Ok(Some(Value::Error(*kind))),
        Content::Formula(_) => Ok(None),
    }
}

/// Makes present at a cell what its content says, which is nothing where it has none.
pub fn put_content(book: &Book, cell: Cell, store: &mut CellStore) -> Result<(), Memory>
    ensures present { OnOk result (PutsPresent store.old store.new cell
        (present_by_content (content_at book.now.contents cell))) }
    ensures touched { OnOk result (GainsTouched store.old store.new cell) }
    ensures shown { KeepsShown store.old store.new }
    ensures refused { OnErr result (store.new ≡ store.old) }
    ensures ordered { IsInOrder book.now.contents }
{
    match book.get(cell) {
        None => store.remove(cell),
        Some(content) => {
            let value = constant_value(content)?;
            store.put(cell, value)
        }
    }
}
