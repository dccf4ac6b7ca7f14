//! A known server.

ghost use Rattle.std.specs.Prelude.{◌≡◌, ◌<◌, ◌++◌, ℕ, [], true, false, None, Some, IfOk, IfNone, IfSome, OnOk, OnErr, length, nat_eq, option_to_list, position, slice_get};
ghost use Rattle.std.specs.Map.{keys_of, lookup};
ghost use Rattle.std.specs.Option.{option_map};
ghost use Rattle.known_servers.specs.Server.{IsCurrent, IsGathered, IsNewView, SameName, SameView, ViewConnects, ViewDisconnects, ViewOpens, ViewPublishes, has_name, view_of};
ghost use Rattle.rtd_server.specs.Server.{IsNewServer, value_or_na};

use super::news::News;
use cell_values::{Memory, Name, Text, Value};
use rtd_server::{Failed, RtdServer, ServerFault};
use std::alloc::Global;
use std::marker::Model;

/// A known server: its name, its flag, the made server, and the news that it gave. It never fails.
#[derive(Drop)]
pub struct KnownServer<S: RtdServer + Drop> {
    name: Name,
    flag: bool,
    server: S,
    news: News,
}

impl<S: RtdServer + Drop> Model for KnownServer<S> {
    ghost use Rattle.std.specs.Prelude.{◌≡◌};
    ghost use Rattle.known_servers.specs.Server.{ServerParts, IsSound};

    ghost Value = { ServerParts S };

    ghost view = { λ k. record { name = k.name; flag = k.flag; server = k.server; news = k.news } };

    ghost invariant = { λ k. IsSound (S.state k.server) k.news
        × ((server : S) → S.faults server ≡ 0) };
}

impl<S: RtdServer + Drop> KnownServer<S> {
    /// A server of this name that has published nothing. Its flag is down.
    pub fn new(alloc: Global, name: Name, server: S) -> KnownServer<S>
        requires new { IsNewServer (S.state server) }
        requires steady { (other : S) → S.faults other ≡ 0 }
        ensures name { result.name ≡ name }
        ensures flag { result.flag ≡ false }
        ensures view { IsNewView (view_of S.state result) }
    {
        KnownServer {
            name,
            flag: false,
            server,
            news: News::new(alloc),
        }
    }

    /// Its name.
    pub fn name(&self) -> &Name
        ensures { result.now ≡ self.now.name }
    {
        &self.name
    }

    /// Whether it told that it published since its values were last taken.
    pub fn flag(&self) -> bool
        ensures { result ≡ self.now.flag }
    {
        self.flag
    }

    /// Sets or clears its flag.
    pub fn set_flag(&mut self, flag: bool)
        ensures { self.new ≡ record self.old { flag = flag } }
    {
        self.flag = flag;
    }

    /// Publishes a value for strings. A refusal changes nothing.
    pub fn publish(&mut self, strings: Vec<Text>, value: Value) -> Result<(), Memory>
        ensures name { SameName self.old self.new }
        ensures published { OnOk result (ViewPublishes (view_of S.state self.old)
            (view_of S.state self.new) strings.items value) }
        ensures refused { OnErr result (SameView (view_of S.state self.old)
            (view_of S.state self.new)) }
    {
        match self.server.publish(strings, value) {
            Ok(()) => Ok(()),
            Err(_) => Err(Memory),
        }
    }

    /// Opens a round: what is published now is what a topic shows that is connected in it.
    pub fn open_round(&mut self)
        ensures name { SameName self.old self.new }
        ensures opened { ViewOpens (view_of S.state self.old) (view_of S.state self.new) }
    {
        self.server.open_round();
    }

    /// Connects an id with strings, and answers their value at the opening. A refusal changes nothing.
    pub fn connect(&mut self, id: u64, strings: &[Text]) -> Result<Value, Memory>
        requires { (view_of S.state self.old).connected id ≡ None }
        ensures name { SameName self.old self.new }
        ensures value { IfOk result (λ value. value
            ≡ value_or_na ((view_of S.state self.old).opening strings.now)) }
        ensures connected { OnOk result (ViewConnects (view_of S.state self.old)
            (view_of S.state self.new) id strings.now) }
        ensures current { IfOk result (λ value. IsCurrent (view_of S.state self.new) id strings.now
            value) }
        ensures refused { OnErr result (SameView (view_of S.state self.old)
            (view_of S.state self.new)) }
    {
        match self.server.connect_data(id, strings) {
            Ok(value) => Ok(value),
            Err(_) => Err(Memory),
        }
    }

    /// Takes an id out, and the news of it.
    pub fn disconnect(&mut self, id: u64)
        ensures name { SameName self.old self.new }
        ensures disconnected { ViewDisconnects (view_of S.state self.old) (view_of S.state self.new)
            id }
    {
        if let Ok(()) = self.server.disconnect_data(id) {
            self.news.remove(id);
        }
    }

    /// Tells the server that it isn't needed any more. A failure changes nothing here.
    pub fn terminate(&mut self)
        ensures name { SameName self.old self.new }
        ensures view { SameView (view_of S.state self.old) (view_of S.state self.new) }
    {
        let _ = self.server.server_terminate();
    }

    /// Has the server give its news, and sorts them in. After a refusal what was given is kept.
    pub fn gather(&mut self) -> Result<(), Memory>
        ensures name { SameName self.old self.new }
        ensures view { SameView (view_of S.state self.old) (view_of S.state self.new) }
        ensures gathered { OnOk result (IsGathered S.state self.new) }
    {
        self.sort_in()?;
        self.refresh()?;
        self.sort_in()
    }

    /// How many news are sorted in.
    pub fn news_len(&self) -> usize
        ensures { result ≡ length self.now.news.sorted }
    {
        self.news.len()
    }

    /// The news at a place: an id, and the value.
    pub fn news_pair(&self, place: usize) -> Option<(u64, &Value)>
        ensures id { option_map (λ pair. pair.0) result
            ≡ slice_get (keys_of self.now.news.sorted) place }
        ensures value { IfSome result (λ pair. lookup (nat_eq pair.0) self.now.news.sorted
            ≡ Some pair.1.now) }
    {
        self.news.pair(place)
    }

    /// Takes out the last news that are sorted in.
    pub fn pop_news(&mut self) -> Option<(u64, Value)>
        ensures name { SameName self.old self.new }
        ensures server { self.new.server ≡ self.old.server }
        ensures given { self.new.news.given ≡ self.old.news.given }
        ensures sorted { self.old.news.sorted ≡ self.new.news.sorted ++ option_to_list result }
        ensures empty { IfNone result (self.old.news.sorted ≡ []) }
    {
        self.news.pop()
    }

    /// Sorts in the news that were given.
    fn sort_in(&mut self) -> Result<(), Memory>
        ensures name { SameName self.old self.new }
        ensures server { self.new.server ≡ self.old.server }
        ensures view { SameView (view_of S.state self.old) (view_of S.state self.new) }
        ensures sorted { OnOk result (self.new.news.given ≡ []) }
    {
        self.news.sort_in()
    }

    /// Has the server give its news. A refusal changes nothing.
    fn refresh(&mut self) -> Result<(), Memory>
        requires { self.old.news.given ≡ [] }
        ensures name { SameName self.old self.new }
        ensures view { SameView (view_of S.state self.old) (view_of S.state self.new) }
        ensures given { OnOk result ((S.state self.new.server).due ≡ []) }
    {
        match self.server.refresh_data() {
            Ok(pairs) => {
                self.news.give(pairs);
                Ok(())
            }
            Err(_) => Err(Memory),
        }
    }
}

/// The place of the server of this name.
pub fn place_of<S: RtdServer + Drop>(servers: &[KnownServer<S>], name: &Name) -> Option<usize>
    ensures { result ≡ position (has_name name.now) servers.now }
{
    servers.iter().position(|known| known.name == *name)
}
