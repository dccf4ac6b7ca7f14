//! The evaluation of what is due, by steps that nobody counts.

ghost use Rattle.std.specs.Prelude.{◌≡◌, ◌<◌, [], OnOk};
ghost use Rattle.calc_round.specs.Readings.{ReadsFollow};
ghost use Rattle.calc_round.specs.Rounds.{HasRoom, HasSameCells, IsWorkedOut, IsWorking, KeepsFinished, round_setting};
ghost use Rattle.command_log.specs.Log.{results_of};
ghost use Rattle.topic_source.specs.Source.{KeepsValues};

use addin_types::AddIns;
use calc_round::{OpenWork, work_out};
use cell_chain::CellChain;
use cell_refs::Steps;
use cell_store::CellStore;
use cell_values::Memory;
use command_log::CommandLog;
use std::alloc::Global;
use std::sync::ledger::{Blank, Ledger};
use topic_source::TopicSource;
use workbook::Book;

/// Evaluates what is to be looked at and whatever waits for it, by steps that nobody counts. A refusal leaves the rest to
/// be looked at.
pub fn evaluate<F: AddIns, T: TopicSource, L: Ledger>(
    alloc: Global,
    blank: Blank,
    round: u64,
    book: &Book,
    log: &CommandLog,
    addins: &F,
    topics: &mut T,
    chain: &mut CellChain,
    store: &mut CellStore,
    work: &mut OpenWork,
) -> Result<(), Memory>
    requires name { blank.name ≡ L.name }
    requires parts { blank.parts ≡ L.parts }
    requires some { 0 < blank.parts }
    requires working { IsWorking (round_setting F.answer (T.state topics.old).snapshot
        (results_of log.now) book.now.functions) book.now.contents store.old chain.old.entries
        work.old.waiting.items work.old.calls.calls round }
    requires reads { ReadsFollow (round_setting F.answer (T.state topics.old).snapshot
        (results_of log.now) book.now.functions) (T.state topics.old) book.now.contents
        store.old }
    requires idle { chain.old.due ≡ [] }
    requires room { HasRoom work.old }
    ensures done { OnOk result
        (IsWorkedOut (round_setting F.answer (T.state topics.old).snapshot
        (results_of log.now) book.now.functions) book.now.contents store.new
        work.new.calls.calls) }
    ensures working { IsWorking (round_setting F.answer (T.state topics.old).snapshot
        (results_of log.now) book.now.functions) book.now.contents store.new chain.new.entries
        work.new.waiting.items work.new.calls.calls round }
    ensures reads { ReadsFollow (round_setting F.answer (T.state topics.old).snapshot
        (results_of log.now) book.now.functions) (T.state topics.new) book.now.contents
        store.new }
    ensures idle { chain.new.due ≡ [] }
    ensures room { HasRoom work.new }
    ensures values { KeepsValues (T.state topics.old) (T.state topics.new) }
    ensures kept { KeepsFinished store.old store.new }
    ensures cells { HasSameCells chain.old.entries chain.new.entries }
    ensures session { work.new.calls.session ≡ work.old.calls.session }
{
    let mut steps = Steps::<L>::new(blank);
    work_out(
        alloc, round, book, log, addins, topics, chain, store, work, &mut steps,
    )
}
