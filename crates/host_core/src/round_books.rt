ghost use Rattle.std.specs.Prelude.{◌≡◌, ◌<◌, ◌≤◌, ◌+◌, ◌^◌, ◌++◌, ◌∷◌, [], IfOk, OnOk, OnErr};
ghost use Rattle.host_core.specs.HostState.{Answers, IsNoReturn};
ghost use Rattle.workbook.specs.InForm.{IsInForm};
ghost use Rattle.host_core.specs.Standing.{IsStep, KeepsNumbers, KeepsStates, MovesNumbers, Stands, StandsIn, terms_with};
ghost use Rattle.workbook.specs.State.{first_state};
ghost use Rattle.std.specs.Prelude.{ℕ};

use addin_types::AddIns;
use calc_book::CalcBook;
use calc_events::Events;
use cell_values::Memory;
use command_log::CommandLog;
use rtd_server::{Maker, RtdServer};
use rtd_topics::RtdTopics;
use std::alloc::Global;
use workbook::{Command, Entry, Reply};

/// A book that recalculates, with its real-time data, the answered commands, the events of its recalculations, the number
/// of the last begun one, from 0, and whether it runs.
#[derive(Drop)]
pub struct RoundBook<S: RtdServer + Drop> {
    pub(super) alloc: Global,
    pub(super) calc: CalcBook,
    pub(super) rtd: RtdTopics<S>,
    pub(super) log: CommandLog,
    pub(super) events: Events,
    pub(super) round: u64,
    pub(super) running: bool,
}

impl<S: RtdServer + Drop> RoundBook<S> {
    /// An empty book of this session without servers, with room for so many commands and events. No server of the type
    /// ever fails.
    pub fn new(alloc: Global, session: u64, room: usize) -> Result<RoundBook<S>, Memory>
        requires steady { (server : S) → S.faults server ≡ 0 }
        ensures stands { IfOk result (λ book. (answer : Answers) (limit : ℕ)
            → Stands S.state (terms_with answer session limit) book first_state) }
        ensures round { IfOk result (λ book. book.round ≡ 0) }
        ensures room { IfOk result (λ book. book.events.room ≡ room) }
        ensures entries { IfOk result (λ book. book.log.entries ≡ []) }
        ensures log_room { IfOk result (λ book. room ≤ book.log.room) }
    {
        let log = CommandLog::open(alloc, room)?;
        let events = Events::new(alloc, room)?;
        Ok(RoundBook {
            alloc,
            calc: CalcBook::new(alloc, session),
            rtd: RtdTopics::new(alloc),
            log,
            events,
            round: 0,
            running: false,
        })
    }

    /// The book that recalculates.
    pub fn calc(&self) -> &CalcBook
        ensures { result.now ≡ self.now.calc }
    {
        &self.calc
    }

    /// The answered commands.
    pub fn log(&self) -> &CommandLog
        ensures { result.now ≡ self.now.log }
    {
        &self.log
    }

    /// Disconnects all topics, ends all servers, and gives the answered commands. It takes no memory.
    pub fn close(self) -> CommandLog
        ensures { result ≡ self.log }
    {
        self.rtd.close();
        self.log
    }

    /// Puts an answered command at the end, in which no value was accepted. It takes no memory.
    pub fn note(&mut self, entry: Entry)
        requires { 0 < self.old.log.room }
        ensures entries { self.new.log.entries ≡ self.old.log.entries ++ entry ∷ [] }
        ensures log_room { self.old.log.room ≤ self.new.log.room + 1 }
        ensures kept { (answer : Answers) → KeepsStates S.state answer self.old self.new }
        ensures round { self.new.round ≡ self.old.round }
        ensures room { self.new.events.room ≡ self.old.events.room }
    {
        self.log.push(entry);
    }

    /// Answers a command, but the return of a value. A refusal changes nothing that shows.
    pub fn act<M: Maker<Server = S>, F: AddIns>(
        &mut self,
        maker: &mut M,
        addins: &F,
        command: Command,
    ) -> Result<Reply, Memory>
        requires taken { IsNoReturn command }
        requires form { IsInForm command }
        requires fits { self.old.round + 1 < 2 ^ 64 }
        requires room { 0 < self.old.events.room }
        requires stands { StandsIn S.state F.answer self.old }
        ensures step { IfOk result (IsStep S.state F.answer self.old self.new command) }
        ensures refused { OnErr result (KeepsStates S.state F.answer self.old self.new) }
        ensures numbers { OnOk result (MovesNumbers self.old self.new) }
        ensures same_numbers { OnErr result (KeepsNumbers self.old self.new) }
    {
        match command {
            Command::Set { cell, content } => self.set(cell, content),
            Command::Clear(cell) => self.clear(cell),
            Command::Register { name, registration } => self.register(name, registration),
            Command::Server(name) => self.server(maker, &name),
            Command::Publish {
                server,
                strings,
                value,
            } => self.publish(&server, &strings, value),
            Command::Notify(name) => Ok(self.notify(&name)),
            Command::Throttle(interval) => Ok(self.throttle(interval)),
            Command::Pull(moment) => self.pull(moment),
            Command::Begin(kind) => self.begin(kind),
            Command::Settle => self.settle(addins),
            Command::Cancel => Ok(self.cancel()),
            Command::Print(form) => self.print(form),
            Command::Listen(name) => self.listen(name),
            Command::Events(name) => self.fetch(&name),
            Command::Return { .. } => unreachable!(),
        }
    }
}
