ghost use Rattle.std.specs.Prelude.{◌≡◌, [], None};

use super::hosts::{ActFault, Host};
use addin_types::AddIns;
use rtd_server::Maker;
use std::marker::Model;
use workbook::{Command, Desk, DeskFault, Entry, Reply};

/// A desk on one thread: it gives commands to a host, as the actor 0.
#[derive(Drop)]
pub struct PlainDesk<M: Maker + Drop, F: AddIns + Drop> {
    host: Host<M, F>,
}

impl<M: Maker + Drop, F: AddIns + Drop> Model for PlainDesk<M, F> {
    ghost use Rattle.formula_parse.specs.contracts.nodes.Node as e;
    ghost use Rattle.host_core.specs.HostState.{HostState};
    ghost use Rattle.std.specs.Coded.{codes};

    ghost Value = { HostState };

    ghost coded = { Prim.hlevel (codes, e.the_row.coded) };

    ghost view = { λ d. d.host };
}

impl<M: Maker + Drop, F: AddIns + Drop> PlainDesk<M, F> {
    ghost use Rattle.host_core.specs.HostState.{state_now};

    /// A desk at a host in which no recalculation runs.
    pub fn new(host: Host<M, F>) -> PlainDesk<M, F>
        requires idle { (state_now F.answer host).running ≡ None }
        ensures { result ≡ host }
    {
        PlainDesk { host }
    }

    /// The answered commands, the oldest first.
    pub fn history(&self) -> &[Entry]
        ensures { result.now ≡ self.now.history }
    {
        self.host.history()
    }

    /// The host.
    pub fn host(&self) -> &Host<M, F>
        ensures { result.now ≡ self.now }
    {
        &self.host
    }

    /// The host, as the desk leaves it.
    pub fn into_host(self) -> Host<M, F>
        ensures { result ≡ self }
    {
        self.host
    }
}

/// Answers each command by the step of the state that the history gives, from nothing. Settle and Return first evaluate what
/// can be.
impl<M: Maker + Drop, F: AddIns + Drop> Desk for PlainDesk<M, F> {
    ghost use Rattle.host_core.specs.HostState.{desk_of};

    ghost state = { λ d. desk_of M.is_steady d };

    ghost answer = { F.answer };

    fn act(&mut self, command: Command) -> Result<Reply, DeskFault> {
        let answered = match command {
            Command::Settle => self.host.settle(0),
            other => self.host.act(0, other),
        };
        match answered {
            Ok(reply) => Ok(reply),
            Err(ActFault::Full(back)) => Err(DeskFault::Full(back)),
            Err(ActFault::Memory(back)) => Err(DeskFault::Memory(back)),
        }
    }
}
