use super::round_books::RoundBook;
use addin_types::AddIns;
use cell_refs::{Cell, Handle};
use cell_values::{Memory, Value};
use rtd_server::Maker;
use std::alloc::Global;
use std::marker::Model;
use workbook::{Book, Command, Entry, Reply};

/// Why a command isn't answered; it is given back.
#[derive(Drop)]
pub enum ActFault {
    /// The history has as many entries as may be.
    Full(Command),
    Memory(Command),
}

/// A host, with a maker of its servers, none of which fails, and add-in functions.
#[derive(Drop)]
pub struct Host<M: Maker + Drop, F: AddIns + Drop> {
    session: u64,
    limit: usize,
    maker: M,
    addins: F,
    book: RoundBook<M::Server>,
}

impl<M: Maker + Drop, F: AddIns + Drop> Model for Host<M, F> {
    ghost use Rattle.std.specs.Prelude.{◌+◌, ◌<◌, ◌≤◌, IsTrue, length};
    ghost use Rattle.formula_parse.specs.contracts.nodes.Node as e;
    ghost use Rattle.host_core.specs.HostState.{HostState};
    ghost use Rattle.host_core.specs.Standing.{Stands, terms_with};
    ghost use Rattle.std.specs.Coded.{codes};
    ghost use Rattle.workbook.specs.History.{state_of};

    ghost Value = { HostState };

    ghost coded = { Prim.hlevel (codes, e.the_row.coded) };

    ghost view = { λ h. record { session = h.session; limit = h.limit; history = h.book.log.entries } };

    // The book stands for the state that the history gives. The history and the events have room up to the limit.
    ghost invariant = { λ h. (0 < h.session) × (length h.book.log.entries ≤ h.limit)
        × (h.limit ≤ length h.book.log.entries + h.book.log.room)
        × (h.book.round ≤ length h.book.log.entries)
        × (h.limit ≤ length h.book.log.entries + h.book.events.room)
        × IsTrue M.is_steady
        × Stands M.Server.state (terms_with F.answer h.session h.limit) h.book
        (state_of (terms_with F.answer h.session h.limit) h.book.log.entries) };
}

impl<M: Maker + Drop, F: AddIns + Drop> Host<M, F> {
    ghost use Rattle.std.specs.Prelude.{◌≡◌, ◌<◌, [], IfOk, OnOk, IfErr, IsTrue, length};
    ghost use Rattle.cell_refs.specs.declared.grid.Cell.{Cell as OneCell};
    ghost use Rattle.cell_refs.specs.Cell.{is_among};
    ghost use Rattle.workbook.specs.InForm.{IsInForm};
    ghost use Rattle.host_core.specs.HostState.{IsActFault, IsNoReturn, IsTaken, state_now, terms_of, with_entry};
    ghost use Rattle.workbook.specs.declared.commands.Command.TheVariants as commands;
    ghost use Rattle.workbook.specs.Book.{is_formula};
    ghost use Rattle.workbook.specs.Step.{reply_to};

    /// A host with an empty book, no servers and an empty history, for which all room is taken here.
    pub fn open(
        alloc: Global,
        session: u64,
        limit: usize,
        maker: M,
        addins: F,
    ) -> Result<Host<M, F>, Memory>
        requires session { 0 < session }
        requires limit { 0 < limit }
        requires steady { IsTrue M.is_steady }
        ensures { IfOk result (λ host. host
            ≡ record { session = session; limit = limit; history = [] }) }
    {
        let book = RoundBook::new(alloc, session, limit)?;
        Ok(Host {
            session,
            limit,
            maker,
            addins,
            book,
        })
    }

    /// Answers a command by the step of the state that its history gives, from nothing; the command is the next entry of
    /// the history. A refusal changes nothing.
    pub fn act(&mut self, actor: u32, command: Command) -> Result<Reply, ActFault>
        requires taken { IsTaken command }
        requires form { IsInForm command }
        ensures reply { IfOk result (λ reply. reply
            ≡ reply_to (terms_of F.answer self.old) [] (state_now F.answer self.old) command) }
        ensures entry { OnOk result (self.new ≡ with_entry self.old actor command) }
        ensures room { OnOk result (length self.old.history < self.old.limit) }
        ensures fault { IfErr result (λ fault. IsActFault self.old command fault
            × (self.new ≡ self.old)) }
    {
        match command {
            Command::Return { handle, value } => self.answer_return(actor, handle, value),
            other => self.answer(actor, other),
        }
    }

    /// Settles: completes the recalculation that runs, if one does, or tells for which calls it waits. A refusal changes nothing that shows.
    pub fn settle(&mut self, actor: u32) -> Result<Reply, ActFault>
        ensures reply { IfOk result (λ reply. reply ≡ reply_to (terms_of F.answer self.old) []
            (state_now F.answer self.old) commands.Settle) }
        ensures entry { OnOk result (self.new ≡ with_entry self.old actor commands.Settle) }
        ensures room { OnOk result (length self.old.history < self.old.limit) }
        ensures fault { IfErr result (λ fault. IsActFault self.old commands.Settle fault
            × (self.new ≡ self.old)) }
    {
        self.answer(actor, Command::Settle)
    }

    /// Answers a command, but the return of a value. An equal one is made first, for the history or to be given back.
    fn answer(&mut self, actor: u32, command: Command) -> Result<Reply, ActFault>
        requires taken { IsNoReturn command }
        requires form { IsInForm command }
        ensures reply { IfOk result (λ reply. reply
            ≡ reply_to (terms_of F.answer self.old) [] (state_now F.answer self.old) command) }
        ensures entry { OnOk result (self.new ≡ with_entry self.old actor command) }
        ensures room { OnOk result (length self.old.history < self.old.limit) }
        ensures fault { IfErr result (λ fault. IsActFault self.old command fault
            × (self.new ≡ self.old)) }
    {
        if self.book.log().len() == self.limit {
            return Err(ActFault::Full(command));
        }
        let kept = match command.copy() {
            Ok(kept) => kept,
            Err(Memory) => return Err(ActFault::Memory(command)),
        };
        match self.book.act(&mut self.maker, &self.addins, command) {
            Ok(reply) => {
                self.book.note(Entry {
                    actor,
                    command: kept,
                });
                Ok(reply)
            }
            Err(Memory) => Err(ActFault::Memory(kept)),
        }
    }

    /// Answers the return of a value, which becomes that of its entry, where it is accepted.
    fn answer_return(&mut self, actor: u32, handle: Handle, value: Value) -> Result<Reply, ActFault>
        ensures reply { IfOk result (λ reply. reply ≡ reply_to (terms_of F.answer self.old) []
            (state_now F.answer self.old) (commands.Return handle value)) }
        ensures entry { OnOk result (self.new
            ≡ with_entry self.old actor (commands.Return handle value)) }
        ensures room { OnOk result (length self.old.history < self.old.limit) }
        ensures fault { IfErr result (λ fault.
            IsActFault self.old (commands.Return handle value) fault
            × (self.new ≡ self.old)) }
    {
        if self.book.log().len() == self.limit {
            return Err(ActFault::Full(Command::Return { handle, value }));
        }
        match self.book.take_return(&self.addins, actor, handle, value) {
            Ok(reply) => Ok(reply),
            Err(value) => Err(ActFault::Memory(Command::Return { handle, value })),
        }
    }

    /// The formula cells, in the order in which the last recalculation left them.
    pub fn chain(&self) -> Result<Vec<Cell>, Memory>
        ensures { IfOk result (λ cells. (cell : OneCell) → is_among cells.items cell
            ≡ is_formula (state_now F.answer self.now).book.contents cell) }
    {
        self.book.calc().chain()
    }

    /// The book as it is, which the sheet doesn't show before a recalculation is completed.
    pub fn book(&self) -> &Book
        ensures { result.now ≡ (state_now F.answer self.now).book }
    {
        self.book.calc().book()
    }

    /// The answered commands, the oldest first.
    pub fn history(&self) -> &[Entry]
        ensures { result.now ≡ self.now.history }
    {
        self.book.log().entries()
    }

    /// The number of the session.
    pub fn session(&self) -> u64
        ensures session { result ≡ self.now.session }
        ensures positive { 0 < result }
    {
        self.session
    }

    /// The most entries of the history.
    pub fn limit(&self) -> usize
        ensures { result ≡ self.now.limit }
    {
        self.limit
    }

    /// The add-in functions.
    pub fn addins(&self) -> &F {
        &self.addins
    }

    /// Ends the host, and gives its history: all topics are disconnected, and all servers ended. It takes no memory.
    pub fn close(self) -> Vec<Entry>
        ensures { result.items ≡ self.history }
    {
        self.book.close().into_entries()
    }
}
