//! A server in memory.

ghost use Rattle.std.specs.Prelude.{◌≡◌, None, Some, IfOk, OnOk, OnErr, is_some, map};
ghost use Rattle.rtd_server.specs.Board.{HasRoom, is_fresh_at, opening_at};
ghost use Rattle.rtd_server.specs.Feed.{server_of};
ghost use Rattle.rtd_server.specs.Links.{connected_at};
ghost use Rattle.rtd_server.specs.Server.{AreNews, GainsDue, IsNewServer, KeepsAll, KeepsConnected, KeepsDue, KeepsPublished, PutsConnected, PutsDue, news_of, value_or_na};

use super::boards::Board;
use super::links::Links;
use super::servers::{Failed, RtdServer, ServerFault};
use super::strings::Strings;
use cell_values::{ErrorKind, Memory, Text, Value};
use std::alloc::Global;
use std::marker::Model;

/// A server in memory, which never fails.
#[derive(Drop)]
pub struct Feed {
    alloc: Global,
    board: Board,
    links: Links,
}

impl Model for Feed {
    ghost use Rattle.rtd_server.specs.Feed.{FeedState};

    ghost Value = { FeedState };

    ghost view = { λ f. record { board = f.board; links = f.links } };
}

impl Feed {
    /// A feed that has published nothing.
    pub fn new(alloc: Global) -> Feed
        ensures { IsNewServer (server_of result) }
    {
        Feed {
            alloc,
            board: Board::new(alloc),
            links: Links::new(alloc),
        }
    }

    /// Whether an id is connected.
    pub fn is_connected(&self, id: u64) -> bool
        ensures { result ≡ is_some (connected_at self.now.links id) }
    {
        self.links.strings(id).is_some()
    }

    /// What is published for the strings of an id.
    fn news(&self, id: u64) -> Result<Value, Memory>
        ensures { IfOk result (λ value. value ≡ news_of (server_of self.now) id) }
    {
        match self.links.strings(id) {
            Some(strings) => self.board.published(strings),
            None => Ok(Value::Error(ErrorKind::Na)),
        }
    }

    /// The due ids with what is published for them.
    fn all_news(&self) -> Result<Vec<(u64, Value)>, Memory>
        ensures { IfOk result (λ news. AreNews (server_of self.now) news.items) }
    {
        let mut ids = Vec::from_slice(self.alloc, self.links.due())?;
        ids.sort()?;
        self.news_of_each(&ids)
    }

    /// These ids with what is published for them.
    fn news_of_each(&self, ids: &[u64]) -> Result<Vec<(u64, Value)>, Memory>
        ensures { IfOk result (λ news. news.items
            ≡ map (λ id. (id, news_of (server_of self.now) id)) ids.now) }
    {
        let mut news = Vec::with_capacity(self.alloc, ids.len())?;
        for id in ids {
            news.push((*id, self.news(*id)?))?;
        }
        Ok(news)
    }

    /// Connects a topic, and answers its value at the opening.
    fn connect(&mut self, id: u64, strings: &[Text]) -> Result<Value, Memory>
        requires { connected_at self.old.links id ≡ None }
        ensures value { IfOk result (λ value. value
            ≡ value_or_na (opening_at self.old.board strings.now)) }
        ensures board { self.new.board ≡ self.old.board }
        ensures connected { OnOk result (PutsConnected (server_of self.old) (server_of self.new) id
            (Some strings.now)) }
        ensures due { OnOk result (PutsDue (server_of self.old) (server_of self.new) id
            (is_fresh_at self.old.board strings.now)) }
        ensures kept { OnErr result (KeepsAll (server_of self.old) (server_of self.new)) }
    {
        let strings = Strings::from_slice(self.alloc, strings)?;
        let value = self.board.opening(&strings)?;
        let is_due = self.board.is_fresh(&strings);
        self.links.connect(self.alloc, id, strings, is_due)?;
        Ok(value)
    }

    /// Makes room to publish for strings, copies them, and makes the ids that are connected with them due.
    fn prepare(&mut self, strings: &Strings) -> Result<Strings, Memory>
        ensures copy { IfOk result (λ copy. copy ≡ strings.now) }
        ensures room { OnOk result (HasRoom self.new.board) }
        ensures published { KeepsPublished (server_of self.old) (server_of self.new) }
        ensures connected { KeepsConnected (server_of self.old) (server_of self.new) }
        ensures due { OnOk result (GainsDue (server_of self.old) (server_of self.new)
            strings.now) }
        ensures kept { OnErr result (KeepsDue (server_of self.old) (server_of self.new)) }
    {
        let copy = self.board.reserve(self.alloc, strings)?;
        self.links.make_due(strings)?;
        Ok(copy)
    }
}

impl RtdServer for Feed {
    ghost state = { server_of };

    ghost faults = { λ f. 0 };

    fn server_start(&mut self) -> i32 {
        1
    }

    fn connect_data(&mut self, id: u64, strings: &[Text]) -> Result<Value, ServerFault> {
        match self.connect(id, strings) {
            Ok(value) => Ok(value),
            Err(Memory) => Err(ServerFault::Memory),
        }
    }

    fn refresh_data(&mut self) -> Result<Vec<(u64, Value)>, ServerFault> {
        match self.all_news() {
            Ok(news) => {
                self.links.clear_due();
                Ok(news)
            }
            Err(Memory) => Err(ServerFault::Memory),
        }
    }

    fn disconnect_data(&mut self, id: u64) -> Result<(), Failed> {
        self.links.disconnect(id);
        Ok(())
    }

    fn heartbeat(&mut self) -> Result<i32, Failed> {
        Ok(1)
    }

    fn server_terminate(&mut self) -> Result<(), Failed> {
        Ok(())
    }

    fn open_round(&mut self) {
        self.board.open();
    }

    fn publish(&mut self, strings: Vec<Text>, value: Value) -> Result<(), (Vec<Text>, Value)> {
        let strings = Strings { texts: strings };
        match self.prepare(&strings) {
            Ok(copy) => {
                self.board.publish(strings, copy, value);
                Ok(())
            }
            Err(Memory) => Err((strings.texts, value)),
        }
    }
}
