ghost use Rattle.std.specs.Prelude.{◌≡◌, ℕ, [], None, Some, true, false, IfOk, OnOk, OnErr, MatchResult, length, map, nat_lt};
ghost use Rattle.std.specs.List.{list_any};
ghost use Rattle.async_handles.specs.OpenCalls.{is_live};
ghost use Rattle.calc_book.specs.CalcState.{CalcState, asked_calls, calc_begin, calc_clear, calc_note, calc_register, calc_set, calc_settle, first_calc};
ghost use Rattle.calc_book.specs.Keeping.{AtRest, Holds, InRound, IsAlikeNow, IsRunning, IsSettled, NotesCleanReaders, NotesReaders, ReadsInRound, Rests, Runs, is_forgotten, setting_over};
ghost use Rattle.calc_round.specs.Accepting.{DifferAtCell, ForgetsReader};
ghost use Rattle.cell_refs.specs.Cell.{is_among};
ghost use Rattle.cell_refs.specs.Handle.{same_handle};
ghost use Rattle.cell_refs.specs.declared.grid.Cell.{Cell as OneCell};
ghost use Rattle.formula_parse.specs.Tree.{has_rtd_call};
ghost use Rattle.topic_source.specs.Source.{KeepsValues, SourceState};
ghost use Rattle.workbook.specs.Book.{IsRefusal, exceeds_cells, exceeds_formulas, is_formula, limit_fault};
ghost use Rattle.workbook.specs.Meaning.{Setting, sheet_of};
ghost use Rattle.workbook.specs.Stale.{stale_count};
ghost use Rattle.workbook.specs.State.{HostTerms};
ghost use Rattle.workbook.specs.Step.{formulas_where};

use super::beginning::{catch_up, make_all_due, make_due};
use super::calling::{NameTest, RtdTest, callers};
use super::edits::{clear_content, set_content};
use super::evaluating::evaluate;
use super::noting::{note_all, widened};
use addin_types::{AddIns, Call, Registration};
use async_handles::Handles;
use book_sync::what_follows_a_book_still_does_after_an_edit;
use calc_round::OpenWork;
use cell_chain::CellChain;
use cell_refs::{Cell, Handle};
use cell_store::CellStore;
use cell_values::{Memory, Name, Value};
use command_log::CommandLog;
use dep_table::DepTable;
use stale_marks::Marks;
use std::alloc::Global;
use std::collections::BTreeSet;
use std::marker::Brand;
use std::sync::ledger::Blank;
use topic_source::TopicSource;
use workbook::{BeginKind, Book, CELL_LIMIT, Content, FORMULA_LIMIT, SetFault};

/// A book with what a recalculation needs beside it: the cells that were changed since the last completed one, the
/// dependency table, the marks of stale cells, the chain of formula cells, the values of cells with the sheet, and the
/// cells that are to be looked at with the open calls.
#[derive(Drop)]
pub struct CalcBook {
    alloc: Global,
    book: Book,
    changed: BTreeSet<Cell>,
    table: DepTable,
    marks: Marks,
    chain: CellChain,
    store: CellStore,
    work: OpenWork,
}

impl CalcBook {
    /// An empty book, of which an empty sheet is shown. The handles of its calls are of this session.
    pub fn new(alloc: Global, session: u64) -> CalcBook
        ensures { (setting : Setting) → AtRest result (first_calc session setting) }
    {
        CalcBook {
            alloc,
            book: Book::new(alloc),
            changed: BTreeSet::new(alloc),
            table: DepTable::new(alloc),
            marks: Marks::new(alloc),
            chain: CellChain::new(alloc),
            store: CellStore::new(alloc),
            work: OpenWork {
                waiting: Vec::new(alloc),
                calls: Handles::new(alloc, session),
            },
        }
    }

    /// The book as it is, which the sheet doesn't show before a recalculation is completed.
    pub fn book(&self) -> &Book
        ensures { result.now ≡ self.now.book }
    {
        &self.book
    }

    /// Gives a cell this content, in place of any that it has. A refusal gives the content back and changes nothing.
    pub fn set(&mut self, cell: Cell, content: Content) -> Result<(), SetFault>
        ensures ok { (s : CalcState) → AtRest self.old s
            → OnOk result (AtRest self.new (calc_set s cell content)) }
        ensures refused { (s : CalcState) → AtRest self.old s
            → OnErr result (AtRest self.new s) }

        // A limit is answered exactly where it would be passed, that of cells first; else memory may be wanting.
        ensures limits { MatchResult result
            (λ _. limit_fault self.old.book.contents cell content ≡ None)
            (IsRefusal (limit_fault self.old.book.contents cell content) content) }
    {
        if self.exceeds_cells(cell) {
            return Err(SetFault::CellLimit(content));
        }
        if self.exceeds_formulas(cell, &content) {
            return Err(SetFault::FormulaLimit(content));
        }
        // The table and the store stay as they are, and so does what they have off the changed cells.
        what_follows_a_book_still_does_after_an_edit();
        set_content(
            &mut self.book,
            &mut self.changed,
            &mut self.chain,
            cell,
            content,
        )
    }

    /// Takes the content of a cell away, where it has one. A refusal changes nothing.
    pub fn clear(&mut self, cell: Cell) -> Result<(), Memory>
        ensures ok { (s : CalcState) → AtRest self.old s
            → OnOk result (AtRest self.new (calc_clear s cell)) }
        ensures refused { (s : CalcState) → AtRest self.old s
            → OnErr result (AtRest self.new s) }
    {
        // As for a content that is given.
        what_follows_a_book_still_does_after_an_edit();
        clear_content(&mut self.book, &mut self.changed, &mut self.chain, cell)
    }

    /// Registers a function, in place of any of that name, and notes the formula cells that call the name as changed. A
    /// refusal changes nothing.
    pub fn register(&mut self, name: Name, registration: Registration) -> Result<(), Memory>
        ensures ok { (s : CalcState) → AtRest self.old s
            → OnOk result (AtRest self.new (calc_register s name registration)) }
        ensures refused { (s : CalcState) → AtRest self.old s
            → OnErr result (AtRest self.new s) }
    {
        let test = NameTest { name: &name };
        let called = callers(self.alloc, &self.book, &self.chain, &test)?;
        let changed = widened(self.alloc, &self.changed, called.as_slice())?;
        self.book.register(name, registration)?;
        self.changed = changed;
        Ok(())
    }

    /// Notes these cells as changed. A refusal changes nothing.
    pub fn note_changed(&mut self, cells: &[Cell]) -> Result<(), Memory>
        ensures ok { (s : CalcState) → AtRest self.old s
            → OnOk result (AtRest self.new (calc_note s cells.now)) }
        ensures refused { (s : CalcState) → AtRest self.old s
            → OnErr result (AtRest self.new s) }
    {
        note_all(self.alloc, &mut self.changed, cells)
    }

    /// Notes the formula cells with an RTD call as changed. A refusal changes nothing.
    pub fn note_rtd_callers(&mut self) -> Result<(), Memory>
        ensures ok { (s : CalcState) → AtRest self.old s
            → OnOk result (AtRest self.new
            (calc_note s (formulas_where s.book has_rtd_call))) }
        ensures refused { (s : CalcState) → AtRest self.old s
            → OnErr result (AtRest self.new s) }
    {
        let called = callers(self.alloc, &self.book, &self.chain, &RtdTest)?;
        note_all(self.alloc, &mut self.changed, called.as_slice())
    }

    /// Begins a recalculation, in which no call is open, and answers the cells whose readings of topics are to be
    /// forgotten. A refusal changes nothing that shows.
    pub fn begin(&mut self, kind: BeginKind) -> Result<Vec<Cell>, Memory>
        requires rest { Rests self.old }

        // It runs in any setting in which the cells that then reach no changed one stay as they are.
        ensures ok { (s : CalcState) → AtRest self.old s
            → OnOk result ((now : Setting) (round : ℕ) → IsAlikeNow now (calc_begin s kind)
            → InRound now round self.new (calc_begin s kind)) }
        ensures calls { (s : CalcState) → AtRest self.old s
            → OnOk result (self.new.work.calls.calls ≡ []) }
        ensures reads { (s : CalcState) → AtRest self.old s
            → OnOk result ((now : Setting) (source : SourceState)
            → IsAlikeNow now (calc_begin s kind) → NotesCleanReaders source (calc_begin s kind)
            → ReadsInRound now source self.new) }
        ensures forgotten { (s : CalcState) → AtRest self.old s
            → IfOk result (λ cells. (cell : OneCell)
            → is_among cells.items cell ≡ is_forgotten (calc_begin s kind) cell) }
        ensures refused { (s : CalcState) → AtRest self.old s
            → OnErr result (AtRest self.new s) }
    {
        catch_up(
            kind,
            self.alloc,
            &self.book,
            &self.changed,
            &mut self.table,
            &mut self.marks,
            &mut self.store,
        )?;
        match kind {
            BeginKind::Dirty => make_due(
                self.alloc,
                &self.table,
                &self.changed,
                &self.marks,
                &mut self.chain,
                &mut self.work,
            ),
            BeginKind::All | BeginKind::Rebuild => make_all_due(
                self.alloc,
                &self.table,
                &mut self.changed,
                &mut self.marks,
                &mut self.chain,
                &mut self.store,
                &mut self.work,
            ),
        }
    }

    /// Evaluates what can be: what is left then is circular, asks for a call, which is open, or waits for such a cell. After
    /// a refusal it can be called again.
    pub fn work_out<F: AddIns, T: TopicSource>(
        &mut self,
        round: u64,
        log: &CommandLog,
        addins: &F,
        topics: &mut T,
    ) -> Result<(), Memory>
        requires runs { Runs (setting_over F.answer (T.state topics.old) log.now self.old)
            round self.old }
        requires reads { ReadsInRound
            (setting_over F.answer (T.state topics.old) log.now self.old)
            (T.state topics.old) self.old }
        ensures values { KeepsValues (T.state topics.old) (T.state topics.new) }
        ensures runs { (s : CalcState)
            → InRound (setting_over F.answer (T.state topics.old) log.now self.old)
            round self.old s
            → InRound (setting_over F.answer (T.state topics.new) log.now self.new)
            round self.new s }
        ensures settled { OnOk result ((s : CalcState)
            → InRound (setting_over F.answer (T.state topics.old) log.now self.old)
            round self.old s
            → IsSettled (setting_over F.answer (T.state topics.new) log.now self.new)
            round self.new s) }
        ensures reads { ReadsInRound
            (setting_over F.answer (T.state topics.new) log.now self.new)
            (T.state topics.new) self.new }
    {
        evaluate::<F, T, Brand>(
            self.alloc,
            Blank::new(1),
            round,
            &self.book,
            log,
            addins,
            topics,
            &mut self.chain,
            &mut self.store,
            &mut self.work,
        )
    }

    /// Whether a call is open. Where all that can be has been evaluated, this is whether a stale cell asks for a call.
    pub fn has_open_calls(&self) -> bool
        ensures none { result ≡ false → self.now.work.calls.calls ≡ [] }
        ensures asked { (terms : HostTerms) (now : Setting) (round : ℕ) (s : CalcState)
            → terms.session ≡ s.session → IsSettled now round self.now s
            → result ≡ nat_lt 0 (length (asked_calls terms now round s)) }
    {
        self.work.calls.first().is_some()
    }

    /// The open calls, in cell order. Where all that can be has been evaluated, they are those for which stale cells ask.
    pub fn calls(&self) -> Result<Vec<Call>, Memory>
        ensures open_calls { IfOk result (λ calls. calls.items
            ≡ map (λ entry. entry.call) self.now.work.calls.calls) }
        ensures asked { (terms : HostTerms) (now : Setting) (round : ℕ) (s : CalcState)
            → terms.session ≡ s.session → IsSettled now round self.now s
            → IfOk result (λ calls. calls.items ≡ asked_calls terms now round s) }
    {
        self.work.calls.list()
    }

    /// Whether a handle is that of an open call. Where all that can be has been evaluated, this is whether a stale cell asks
    /// for its call.
    pub fn is_open(&self, handle: &Handle) -> bool
        ensures live { result ≡ is_live self.now.work.calls.calls handle.now }
        ensures asked { (terms : HostTerms) (now : Setting) (round : ℕ) (s : CalcState)
            → terms.session ≡ s.session → IsSettled now round self.now s
            → result ≡ list_any (λ call. same_handle handle.now call.handle)
            (asked_calls terms now round s) }
    {
        match self.work.calls.handle_of(handle.cell) {
            Some(live) => live == *handle,
            None => false,
        }
    }

    /// Ends the call of a handle, for which a value was accepted, and puts its cell down to be looked at; false exactly where
    /// the handle isn't that of an open call, and then nothing changes. It takes no memory.
    pub fn redeem(&mut self, handle: &Handle) -> bool
        requires runs { IsRunning self.old }
        ensures live { result ≡ is_live self.old.work.calls.calls handle.now }
        ensures refused { result ≡ false → self.new ≡ self.old }

        // It goes on in any setting that differs at most in the accepted values of the cell, where the readings of the cell
        // are forgotten.
        ensures ended { (earlier later : Setting) (round : ℕ) (s : CalcState) → result ≡ true
            → DifferAtCell earlier later handle.now.cell → InRound earlier round self.old s
            → InRound later round self.new s }
        ensures reads { (earlier later : Setting) (round : ℕ) (s : CalcState) → result ≡ true
            → DifferAtCell earlier later handle.now.cell → InRound earlier round self.old s
            → (old new : SourceState) → ForgetsReader old new handle.now.cell
            → ReadsInRound earlier old self.old → ReadsInRound later new self.new }
    {
        if self.work.calls.redeem(handle).is_none() {
            return false;
        }
        self.work.waiting.push_reserved(handle.cell);
        true
    }

    /// Completes the recalculation, where all is evaluated and no call is open, and answers how many cells were stale: the
    /// sheet shows what came out. It takes no memory.
    pub fn complete(&mut self) -> u64
        ensures count { (now : Setting) (round : ℕ) (s : CalcState) → InRound now round self.old s
            → result ≡ stale_count s.book s.changed }
        ensures rest { (now : Setting) (round : ℕ) (s : CalcState)
            → IsSettled now round self.old s → self.old.work.calls.calls ≡ []
            → AtRest self.new (calc_settle s now) }
        ensures read { (now : Setting) (round : ℕ) (s : CalcState) (source : SourceState)
            → IsSettled now round self.old s → self.old.work.calls.calls ≡ []
            → ReadsInRound now source self.old → NotesReaders now s.book source }
    {
        let count = self.marks.count();
        self.store.complete();
        self.marks.clear();
        self.changed.clear();
        count as u64
    }

    /// Gives the recalculation up: the sheet shows what it showed, the changed cells stay so, and no call is open. It takes
    /// no memory.
    pub fn cancel(&mut self)
        ensures { (now : Setting) (round : ℕ) (s : CalcState)
            → InRound now round self.old s → AtRest self.new s }
    {
        // Cells that were evaluated are stale still, so that the next recalculation evaluates them again.
        self.marks.clear();
        self.work.waiting.clear();
        self.work.calls.cancel_all();
    }

    /// What the sheet shows: the cells with content at the last completed recalculation, in cell order.
    pub fn sheet(&self) -> Result<Vec<(Cell, Option<Value>)>, Memory>
        ensures { (s : CalcState) → Holds self.now s
            → IfOk result (λ sheet. sheet.items ≡ sheet_of s.setting s.completed) }
    {
        self.store.sheet(self.alloc)
    }

    /// The formula cells, in the order of the chain.
    pub fn chain(&self) -> Result<Vec<Cell>, Memory>
        ensures { IfOk result (λ cells. cells.items ≡ self.now.chain.entries) }
    {
        match self.chain.list(self.alloc) {
            Ok(cells) => Ok(cells),
            Err(_) => Err(Memory),
        }
    }

    /// Whether a content at this cell would be that of one cell too many.
    fn exceeds_cells(&self, cell: Cell) -> bool
        ensures test { result ≡ exceeds_cells self.now.book.contents cell }
    {
        self.book.get(cell).is_none() && self.book.cells() >= CELL_LIMIT
    }

    /// Whether this content at the cell would be one formula too many.
    fn exceeds_formulas(&self, cell: Cell, content: &Content) -> bool
        ensures test { result ≡ exceeds_formulas self.now.book.contents cell content.now }
    {
        content.is_formula() && !self.has_formula(cell) && self.book.formulas() >= FORMULA_LIMIT
    }

    /// Whether a cell has a formula.
    fn has_formula(&self, cell: Cell) -> bool
        ensures { result ≡ is_formula self.now.book.contents cell }
    {
        match self.book.get(cell) {
            Some(content) => content.is_formula(),
            None => false,
        }
    }
}
