//! A recalculation: passes over what is to be looked at, until one finishes no cell.

ghost use Rattle.std.specs.Prelude.{◌≡◌, ◌<◌, ◌≤◌, [], ◌∷◌, ◌++◌, Ok, true, false, length, OnOk, vec_capacity};
ghost use Rattle.std.specs.List.{IsDistinct};
ghost use Rattle.cell_chain.specs.CellOrder.{entries_among};
ghost use Rattle.cell_refs.specs.declared.grid.Cell.{Cell as OneCell};
ghost use Rattle.cell_refs.specs.Cell.{is_among, same_cell};
ghost use Rattle.command_log.specs.Log.{results_of};
ghost use Rattle.topic_source.specs.Source.{KeepsValues};
ghost use Rattle.calc_round.specs.Looks.{HasRoomBeside, setting_for};
ghost use Rattle.calc_round.specs.Readings.{ReadsFollow};
ghost use Rattle.calc_round.specs.Rounds.{HasRoom, HasSameCells, IsWorkedOut, IsWorking, KeepsFinished, names_unfinished, round_setting};

use super::looked::Looked;
use super::looks::Looker;
use super::open_work::OpenWork;
use addin_types::AddIns;
use cell_chain::CellChain;
use cell_refs::{Cell, Steps};
use cell_store::CellStore;
use cell_values::Memory;
use command_log::CommandLog;
use std::alloc::Global;
use std::sync::ledger::Ledger;
use topic_source::TopicSource;
use workbook::Book;

/// Evaluates the cells that are to be looked at and whatever waits for them, until each unfinished cell is circular, asks
/// for a call, which is open then, or waits for such a cell. Those that wait are looked at again by the next call. Each
/// topic that a formula needs is read for its cell. A refusal leaves the rest to be looked at, so that the same call can
/// be made again. Each look at a cell is a step.
pub fn work_out<F: AddIns, T: TopicSource, L: Ledger>(
    alloc: Global,
    round: u64,
    book: &Book,
    log: &CommandLog,
    addins: &F,
    topics: &mut T,
    chain: &mut CellChain,
    store: &mut CellStore,
    work: &mut OpenWork,
    steps: &mut Steps<L>,
) -> Result<(), Memory>
    requires working { IsWorking (round_setting F.answer (T.state topics.old).snapshot
        (results_of log.now) book.now.functions) book.now.contents store.old chain.old.entries
        work.old.waiting.items work.old.calls.calls round }
    requires reads { ReadsFollow (round_setting F.answer (T.state topics.old).snapshot
        (results_of log.now) book.now.functions) (T.state topics.old) book.now.contents
        store.old }
    requires idle { chain.old.due ≡ [] }
    requires room { HasRoom work.old }
    ensures done { OnOk result
        (IsWorkedOut (round_setting F.answer (T.state topics.old).snapshot
        (results_of log.now) book.now.functions) book.now.contents store.new
        work.new.calls.calls) }
    ensures working { IsWorking (round_setting F.answer (T.state topics.old).snapshot
        (results_of log.now) book.now.functions) book.now.contents store.new chain.new.entries
        work.new.waiting.items work.new.calls.calls round }
    ensures reads { ReadsFollow (round_setting F.answer (T.state topics.old).snapshot
        (results_of log.now) book.now.functions) (T.state topics.new) book.now.contents
        store.new }
    ensures idle { chain.new.due ≡ [] }
    ensures room { HasRoom work.new }
    ensures values { KeepsValues (T.state topics.old) (T.state topics.new) }
    ensures kept { KeepsFinished store.old store.new }
    ensures cells { HasSameCells chain.old.entries chain.new.entries }
    ensures session { work.new.calls.session ≡ work.old.calls.session }
{
    let looker = Looker {
        alloc,
        round,
        book,
        log,
        addins,
    };
    make_due(chain, &mut work.waiting);
    'passes: loop {
        match pass(&looker, topics, chain, store, work, steps) {
            Ok(true) => make_due(chain, &mut work.waiting),
            Ok(false) => return Ok(()),
            Err(memory) => {
                leave_waiting(chain, &mut work.waiting, steps);
                return Err(memory);
            }
        }
    }
}

/// Looks at each cell that is due once. Those that aren't ready wait. Answers whether one was finished.
fn pass<F: AddIns, T: TopicSource, L: Ledger>(
    looker: &Looker<'_, F>,
    topics: &mut T,
    chain: &mut CellChain,
    store: &mut CellStore,
    work: &mut OpenWork,
    steps: &mut Steps<L>,
) -> Result<bool, Memory>
    requires working { IsWorking (setting_for F.answer (T.state topics.old).snapshot
        looker.now.log.now looker.now.book.now) looker.now.book.now.contents store.old
        chain.old.entries chain.old.due work.old.calls.calls looker.now.round }
    requires reads { ReadsFollow (setting_for F.answer (T.state topics.old).snapshot
        looker.now.log.now looker.now.book.now) (T.state topics.old)
        looker.now.book.now.contents store.old }
    requires none { work.old.waiting.items ≡ [] }
    requires room { HasRoomBeside chain.old.due work.old }
    ensures working { IsWorking (setting_for F.answer (T.state topics.old).snapshot
        looker.now.log.now looker.now.book.now) looker.now.book.now.contents store.new
        chain.new.entries (work.new.waiting.items ++ chain.new.due) work.new.calls.calls
        looker.now.round }
    ensures reads { ReadsFollow (setting_for F.answer (T.state topics.old).snapshot
        looker.now.log.now looker.now.book.now) (T.state topics.new)
        looker.now.book.now.contents store.new }
    ensures values { KeepsValues (T.state topics.old) (T.state topics.new) }
    ensures kept { KeepsFinished store.old store.new }
    ensures cells { HasSameCells chain.old.entries chain.new.entries }
    ensures room { HasRoomBeside chain.new.due work.new }
    ensures session { work.new.calls.session ≡ work.old.calls.session }
    ensures idle { OnOk result (chain.new.due ≡ []) }
    ensures fewer { result ≡ Ok true
        → length work.new.waiting.items < length chain.old.due }
    ensures stuck { result ≡ Ok false → (q : OneCell)
        → is_among work.new.waiting.items q ≡ true
        → names_unfinished looker.now.book.now.contents store.new q ≡ true }
{
    let mut moved = false;
    'looks: while let Some(cell) = chain.next(steps) {
        match looker.look(topics, chain, store, &mut work.calls, cell) {
            Ok(Looked::Finished) => moved = true,
            Ok(Looked::Asked) => {}
            Ok(Looked::Waits) => push_reserved(&mut work.waiting, cell),
            Err(memory) => {
                push_reserved(&mut work.waiting, cell);
                return Err(memory);
            }
        }
    }
    Ok(moved)
}

/// Puts a cell at the end of a list that has room for it.
fn push_reserved(cells: &mut Vec<Cell>, cell: Cell)
    requires { length cells.old.items < vec_capacity cells.old }
    ensures items { cells.new.items ≡ cells.old.items ++ cell ∷ [] }
    ensures room { vec_capacity cells.old ≤ vec_capacity cells.new }
{
    let _ = cells.push(cell);
}

/// The cells that are still due wait too.
fn leave_waiting<L: Ledger>(chain: &mut CellChain, waiting: &mut Vec<Cell>, steps: &mut Steps<L>)
    requires { length (waiting.old.items ++ chain.old.due) ≤ vec_capacity waiting.old }
    ensures waiting { waiting.new.items ≡ waiting.old.items ++ chain.old.due }
    ensures chain { chain.new ≡ record chain.old { due = [] } }
    ensures room { vec_capacity waiting.old ≤ vec_capacity waiting.new }
{
    'rest: while let Some(cell) = chain.next(steps) {
        push_reserved(waiting, cell);
    }
}

/// Makes the cells that wait due. None waits then.
fn make_due(chain: &mut CellChain, waiting: &mut Vec<Cell>)
    requires entries { (q : OneCell) → is_among waiting.old.items q ≡ true
        → is_among chain.old.entries q ≡ true }
    requires once { IsDistinct same_cell waiting.old.items }
    ensures chain { chain.new ≡ record chain.old {
      due = entries_among chain.old.entries waiting.old.items;
    } }
    ensures waiting { waiting.new.items ≡ [] }
    ensures room { vec_capacity waiting.old ≤ vec_capacity waiting.new }
{
    chain.rewind(waiting);
    waiting.clear();
}
