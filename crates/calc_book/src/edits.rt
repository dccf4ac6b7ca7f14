//! Edits of a book: the cell is noted as changed, and the chain has exactly the formula cells.

ghost use Rattle.std.specs.Prelude.{◌≡◌, None, Some, true, not, ◌&&◌, ◌||◌, IfErr, IfOk, OnErr, OnOk};
ghost use Rattle.std.specs.BTreeMap.{insert_entry};
ghost use Rattle.std.specs.Map.{remove_entry};
ghost use Rattle.calc_book.specs.Edits.{SetsAmong};
ghost use Rattle.calc_round.specs.Rounds.{HasSameCells};
ghost use Rattle.cell_refs.specs.Cell.{cell_cmp, is_among, same_cell};
ghost use Rattle.workbook.specs.declared.books.SetFault.TheVariants as faults;
ghost use Rattle.workbook.specs.Book.{IsInOrder, PutsContent, SetsContent, has_formula, limit_fault};

use cell_chain::CellChain;
use cell_refs::Cell;
use cell_values::Memory;
use std::collections::BTreeSet;
use workbook::{Book, Content, SetFault};

/// Gives a cell a content that passes no limit, and notes it as changed. A refusal gives the content back and changes
/// nothing.
pub fn set_content(
    book: &mut Book,
    changed: &mut BTreeSet<Cell>,
    chain: &mut CellChain,
    cell: Cell,
    content: Content,
) -> Result<(), SetFault>
    requires limits { limit_fault book.old.contents cell content ≡ None }
    ensures book { OnOk result
        (book.new
        ≡ record book.old { contents = insert_entry cell_cmp book.old.contents cell content }) }
    ensures contents { OnOk result
        (SetsContent book.old.contents book.new.contents cell content) }
    ensures ordered { OnOk result (IsInOrder book.new.contents) }
    ensures changed { OnOk result (SetsAmong changed.old.keys changed.new.keys cell true) }
    ensures chain { OnOk result
        (SetsAmong chain.old.entries chain.new.entries cell (has_formula (Some content))) }
    ensures same_book { OnErr result (book.new ≡ book.old) }
    ensures same_changed { OnErr result (HasSameCells changed.old.keys changed.new.keys) }
    ensures same_chain { OnErr result (HasSameCells chain.old.entries chain.new.entries) }
    ensures memory { IfErr result (λ fault. fault ≡ faults.Memory content) }
{
    match note(changed, cell) {
        Ok(new) => match place_content(book, chain, cell, content) {
            Ok(()) => Ok(()),
            Err(fault) => {
                take_back(changed, cell, new);
                Err(fault)
            }
        },
        Err(_) => Err(SetFault::Memory(content)),
    }
}

/// Takes the content of a cell away, where it has one, and notes the cell as changed. A refusal changes nothing.
pub fn clear_content(
    book: &mut Book,
    changed: &mut BTreeSet<Cell>,
    chain: &mut CellChain,
    cell: Cell,
) -> Result<(), Memory>
    ensures book { OnOk result (book.new ≡ record book.old {
      contents = remove_entry (same_cell cell) book.old.contents;
    }) }
    ensures contents { OnOk result
        (PutsContent book.old.contents book.new.contents cell None) }
    ensures ordered { OnOk result (IsInOrder book.new.contents) }
    ensures changed { OnOk result (SetsAmong changed.old.keys changed.new.keys cell true) }
    ensures chain { OnOk result
        (SetsAmong chain.old.entries chain.new.entries cell (has_formula None)) }
    ensures same_book { OnErr result (book.new ≡ book.old) }
    ensures same_changed { OnErr result (HasSameCells changed.old.keys changed.new.keys) }
    ensures same_chain { OnErr result (HasSameCells chain.old.entries chain.new.entries) }
{
    note(changed, cell)?;
    let _ = book.clear(cell);
    chain.remove(cell);
    Ok(())
}

/// Gives a cell a content that passes no limit; the chain then has the cell exactly where that is a formula. A refusal
/// gives the content back and changes nothing.
fn place_content(
    book: &mut Book,
    chain: &mut CellChain,
    cell: Cell,
    content: Content,
) -> Result<(), SetFault>
    requires limits { limit_fault book.old.contents cell content ≡ None }
    ensures book { OnOk result
        (book.new
        ≡ record book.old { contents = insert_entry cell_cmp book.old.contents cell content }) }
    ensures contents { OnOk result
        (SetsContent book.old.contents book.new.contents cell content) }
    ensures ordered { OnOk result (IsInOrder book.new.contents) }
    ensures chain { OnOk result
        (SetsAmong chain.old.entries chain.new.entries cell (has_formula (Some content))) }
    ensures same_book { OnErr result (book.new ≡ book.old) }
    ensures same_chain { OnErr result (HasSameCells chain.old.entries chain.new.entries) }
    ensures memory { IfErr result (λ fault. fault ≡ faults.Memory content) }
{
    let formula = content.is_formula();
    let listed = chain.has(cell);
    match bring(chain, cell, formula) {
        Ok(()) => match book.set(cell, content) {
            Ok(()) => {
                keep(chain, cell, formula);
                Ok(())
            }
            Err(fault) => {
                keep(chain, cell, listed);
                Err(fault)
            }
        },
        Err(_) => Err(SetFault::Memory(content)),
    }
}

/// Puts a cell into the chain where it is wanted there. A refusal changes nothing.
fn bring(chain: &mut CellChain, cell: Cell, wanted: bool) -> Result<(), Memory>
    ensures ok { OnOk result
        (SetsAmong chain.old.entries chain.new.entries cell
        (wanted || is_among chain.old.entries cell)) }
    ensures refused { OnErr result (chain.new ≡ chain.old) }
{
    if !wanted || chain.has(cell) {
        return Ok(());
    }
    match chain.append(cell) {
        Ok(()) => Ok(()),
        Err(_) => Err(Memory),
    }
}

/// Leaves a cell in the chain where it is wanted there, and else takes it out. It takes no memory.
fn keep(chain: &mut CellChain, cell: Cell, wanted: bool)
    ensures { SetsAmong chain.old.entries chain.new.entries cell
        (wanted && is_among chain.old.entries cell) }
{
    if !wanted {
        chain.remove(cell);
    }
}

/// Notes a cell as changed, and answers whether it wasn't. A refusal changes nothing.
fn note(changed: &mut BTreeSet<Cell>, cell: Cell) -> Result<bool, Memory>
    ensures new { IfOk result (λ new. new ≡ not (is_among changed.old.keys cell)) }
    ensures noted { OnOk result (SetsAmong changed.old.keys changed.new.keys cell true) }
    ensures refused { OnErr result (changed.new.keys ≡ changed.old.keys) }
{
    Ok(changed.insert(cell)?)
}

/// Takes the note of a cell back that is new. It takes no memory.
fn take_back(changed: &mut BTreeSet<Cell>, cell: Cell, new: bool)
    ensures { SetsAmong changed.old.keys changed.new.keys cell
        (not new && is_among changed.old.keys cell) }
{
    if new {
        changed.remove(&cell);
    }
}
