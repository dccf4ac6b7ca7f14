//! A look at one cell: its job where it is ready, and what comes out.

ghost use Rattle.std.specs.Prelude.{◌≡◌, ◌<◌, [], true, false, IfOk, OnErr, MatchOption};
ghost use Rattle.cell_refs.specs.Cell.{is_among};
ghost use Rattle.cell_store.specs.Store.{KeepsShown, KeepsTouched, is_touched};
ghost use Rattle.command_log.specs.Log.{results_of};
ghost use Rattle.formula_parse.specs.Tree.{sites_named};
ghost use Rattle.topic_source.specs.Source.{KeepsValues};
ghost use Rattle.workbook.specs.Book.{IsInOrder, is_formula};
ghost use Rattle.calc_round.specs.Looks.{IsJobOf, IsReordered, LookDoes, registered_among, setting_for};
ghost use Rattle.calc_round.specs.Readings.{ReadsFollow};
ghost use Rattle.calc_round.specs.Rounds.{PresentMeans, has_call, is_unfinished, names_unfinished};

use super::answered::Answered;
use super::looked::Looked;
use super::places::{place_behind_named, place_behind_unfinished};
use super::registrations::registrations_of;
use super::valuing::answer_of_job;
use addin_types::AddIns;
use async_handles::Handles;
use cell_chain::CellChain;
use cell_eval::{Inputs, Job, Results, Topics};
use cell_refs::Cell;
use cell_store::CellStore;
use cell_values::Memory;
use command_log::CommandLog;
use formula_parse::{Tree, names};
use std::alloc::Global;
use topic_source::TopicSource;
use workbook::{Book, Content};

/// What a recalculation looks at cells with: its number, the book, the accepted values, and what added functions answer.
#[derive(Drop)]
pub struct Looker<'a, F> {
    pub alloc: Global,
    pub round: u64,
    pub book: &'a Book,
    pub log: &'a CommandLog,
    pub addins: &'a F,
}

impl<'a, F: AddIns> Looker<'a, F> {
    /// Gives an unfinished cell its value, or opens the call that it asks for, where all cells that it names have their
    /// values.
    pub fn look<T: TopicSource>(
        &self,
        topics: &mut T,
        chain: &mut CellChain,
        store: &mut CellStore,
        calls: &mut Handles,
        cell: Cell,
    ) -> Result<Looked, Memory>
        requires means { PresentMeans (setting_for F.answer (T.state topics.old).snapshot
            self.now.log.now self.now.book.now) self.now.book.now.contents store.old }
        requires reads { ReadsFollow (setting_for F.answer (T.state topics.old).snapshot
            self.now.log.now self.now.book.now) (T.state topics.old) self.now.book.now.contents
            store.old }
        requires ordered { IsInOrder self.now.book.now.contents }
        requires unfinished { is_unfinished store.old cell ≡ true }
        requires touched { is_touched store.old cell ≡ true }
        requires entry { is_among chain.old.entries cell ≡ true }
        requires idle { is_among chain.old.due cell ≡ false }
        requires free { has_call calls.old.calls cell ≡ false }
        requires spare { 0 < calls.old.spare }
        ensures chain { IsReordered chain.old chain.new }
        ensures did { IfOk result (LookDoes (setting_for F.answer (T.state topics.old).snapshot
            self.now.log.now self.now.book.now) self.now.book.now.contents self.now.round
            store.old store.new calls.old calls.new cell) }
        ensures store { OnErr result (store.new ≡ store.old) }
        ensures calls { OnErr result (calls.new ≡ calls.old) }
        ensures values { KeepsValues (T.state topics.old) (T.state topics.new) }
        ensures reads { ReadsFollow (setting_for F.answer (T.state topics.old).snapshot
            self.now.log.now self.now.book.now) (T.state topics.new) self.now.book.now.contents
            store.new }
        ensures shown { KeepsShown store.old store.new }
        ensures touched { KeepsTouched store.old store.new }
    {
        let Some(job) = self.take(chain, store, cell)? else {
            return Ok(Looked::Waits);
        };
        match answer_of_job(self.alloc, job, self.addins, topics)? {
            Answered::Value(value) => {
                store.finish(cell, value);
                Ok(Looked::Finished)
            }
            Answered::Asks { site, name, args } => {
                calls.issue(self.round, cell, site, name, args);
                Ok(Looked::Asked)
            }
        }
    }

    /// The job of a formula cell, where all cells that it names have values; the cell then stands behind those of them
    /// that stand in the chain. Else it stands behind the unfinished ones.
    fn take(
        &self,
        chain: &mut CellChain,
        store: &CellStore,
        cell: Cell,
    ) -> Result<Option<Job>, Memory>
        requires formula { is_formula self.now.book.now.contents cell ≡ true }
        requires entry { is_among chain.old.entries cell ≡ true }
        requires idle { is_among chain.old.due cell ≡ false }
        ensures chain { IsReordered chain.old chain.new }
        ensures job { IfOk result (λ job. MatchOption job
            (names_unfinished self.now.book.now.contents store.now cell ≡ true)
            (IsJobOf self.now.book.now (results_of self.now.log.now) store.now cell)) }
    {
        let Some(Content::Formula(tree)) = self.book.get(cell) else {
            unreachable!();
        };
        let areas = names(self.alloc, tree, cell.sheet)?;
        match store.gather(self.alloc, &areas)? {
            None => {
                place_behind_unfinished(chain, store, cell, &areas);
                Ok(None)
            }
            Some(entries) => {
                place_behind_named(chain, cell, &entries);
                Ok(Some(self.job(cell, tree, Inputs::new(entries))?))
            }
        }
    }

    /// The job of a formula over these inputs.
    fn job(&self, cell: Cell, tree: &Tree, inputs: Inputs) -> Result<Job, Memory>
        ensures { IfOk result (λ job. job ≡ record {
          round = self.now.round;
          cell = cell;
          tree = tree.now;
          inputs = inputs;
          topics = [];
          results = results_of self.now.log.now cell;
          functions = registered_among self.now.book.now.functions (sites_named tree.now);
        }) }
    {
        Ok(Job {
            round: self.round,
            cell,
            tree: tree.copy()?,
            inputs,
            topics: Topics::new(Vec::new(self.alloc)),
            results: Results::new(self.log.results(self.alloc, cell)?),
            functions: registrations_of(self.alloc, self.book, tree)?,
        })
    }
}
