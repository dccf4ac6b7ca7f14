//! What is done to the known servers.

ghost use Rattle.std.specs.Prelude.{◌≡◌, Some, OnOk, OnErr, IfOk, All, is_some, position};
ghost use Rattle.known_servers.specs.Server.{has_name};
ghost use Rattle.std.specs.List.{AllZip, list_any};
ghost use Rattle.rtd_topics.specs.Parts.{ConnectsAt, DisconnectsAt, FlagsAt, IsApart, IsPreparedServer, KeepsAt, KeepsServer, OpensServer, PublishesAt, opening_or_na, server_named};

use cell_values::{Memory, Name, Text, Value};
use known_servers::{KnownServer, place_of};
use rtd_server::RtdServer;
use std::alloc::Global;

/// Opens a round at every server.
pub fn open_all<S: RtdServer + Drop>(servers: &mut Vec<KnownServer<S>>)
    ensures { AllZip (OpensServer S.state) servers.old.items servers.new.items }
{
    open_each(servers);
}

/// Opens a round at each server of a slice.
fn open_each<S: RtdServer + Drop>(servers: &mut [KnownServer<S>])
    ensures { AllZip (OpensServer S.state) servers.old servers.new }
{
    for known in servers.iter_mut() {
        known.open_round();
    }
}

/// Has the flagged servers give their news. It changes nothing that shows.
pub fn gather_all<S: RtdServer + Drop>(servers: &mut Vec<KnownServer<S>>) -> Result<(), Memory>
    ensures kept { AllZip (KeepsServer S.state) servers.old.items servers.new.items }
    ensures gathered { OnOk result (All (IsPreparedServer S.state) servers.new.items) }
{
    gather_each(servers)
}

/// Has the flagged servers of a slice give their news.
fn gather_each<S: RtdServer + Drop>(servers: &mut [KnownServer<S>]) -> Result<(), Memory>
    ensures kept { AllZip (KeepsServer S.state) servers.old servers.new }
    ensures gathered { OnOk result (All (IsPreparedServer S.state) servers.new) }
{
    for known in servers.iter_mut() {
        gather_one(known)?;
    }
    Ok(())
}

/// Has a server give its news, where it is flagged. It changes nothing that shows.
fn gather_one<S: RtdServer + Drop>(known: &mut KnownServer<S>) -> Result<(), Memory>
    ensures kept { KeepsServer S.state known.old known.new }
    ensures gathered { OnOk result (IsPreparedServer S.state known.new) }
{
    if known.flag() {
        known.gather()?;
    }
    Ok(())
}

/// Tells all servers that they aren't needed any more.
pub fn terminate_all<S: RtdServer + Drop>(servers: &mut Vec<KnownServer<S>>) {
    for known in servers.iter_mut() {
        known.terminate();
    }
}

/// Takes an id out at the server of a name.
pub fn disconnect<S: RtdServer + Drop>(servers: &mut Vec<KnownServer<S>>, name: &Name, id: u64)
    ensures { DisconnectsAt S.state servers.old.items servers.new.items name.now id }
{
    disconnect_in(servers, name, id);
}

/// Takes an id out at the server of a name, in a slice.
fn disconnect_in<S: RtdServer + Drop>(servers: &mut [KnownServer<S>], name: &Name, id: u64)
    ensures { DisconnectsAt S.state servers.old servers.new name.now id }
{
    if let Some(place) = place_of(servers, name) {
        servers[place].disconnect(id);
    }
}

/// Publishes a value for strings at a place.
pub fn publish_at<S: RtdServer + Drop>(
    servers: &mut Vec<KnownServer<S>>,
    place: usize,
    name: &Name,
    texts: Vec<Text>,
    value: Value,
) -> Result<(), Memory>
    requires { position (has_name name.now) servers.old.items ≡ Some place }
    ensures published { OnOk result (PublishesAt S.state servers.old.items servers.new.items
        name.now texts.items value) }
    ensures refused { OnErr result (KeepsAt S.state servers.old.items servers.new.items) }
{
    publish_in(servers, place, name, texts, value)
}

/// Publishes a value for strings at a place of a slice.
fn publish_in<S: RtdServer + Drop>(
    servers: &mut [KnownServer<S>],
    place: usize,
    _name: &Name,
    texts: Vec<Text>,
    value: Value,
) -> Result<(), Memory>
    requires { position (has_name _name.now) servers.old ≡ Some place }
    ensures published { OnOk result (PublishesAt S.state servers.old servers.new _name.now
        texts.items value) }
    ensures refused { OnErr result (KeepsAt S.state servers.old servers.new) }
{
    servers[place].publish(texts, value)
}

/// Raises the flag at the server of a name, if there is one.
pub fn raise_flag<S: RtdServer + Drop>(servers: &mut Vec<KnownServer<S>>, name: &Name) -> bool
    ensures known { result ≡ is_some (server_named servers.old.items name.now) }
    ensures flags { FlagsAt S.state servers.old.items servers.new.items name.now }
{
    raise_flag_in(servers, name)
}

/// Raises the flag at the server of a name, in a slice.
fn raise_flag_in<S: RtdServer + Drop>(servers: &mut [KnownServer<S>], name: &Name) -> bool
    ensures known { result ≡ is_some (server_named servers.old name.now) }
    ensures flags { FlagsAt S.state servers.old servers.new name.now }
{
    match place_of(servers, name) {
        Some(place) => {
            servers[place].set_flag(true);
            true
        }
        None => false,
    }
}

/// Connects an id with strings at a place, and answers their value at the opening.
pub fn connect_at<S: RtdServer + Drop>(
    servers: &mut Vec<KnownServer<S>>,
    place: usize,
    name: &Name,
    id: u64,
    texts: &[Text],
) -> Result<Value, Memory>
    requires place { position (has_name name.now) servers.old.items ≡ Some place }
    requires new { IsApart S.state servers.old.items name.now id }
    ensures value { IfOk result (λ value. value ≡ opening_or_na S.state servers.old.items name.now
        texts.now) }
    ensures connected { IfOk result (λ value. ConnectsAt S.state servers.old.items
        servers.new.items name.now id texts.now value) }
    ensures refused { OnErr result (KeepsAt S.state servers.old.items servers.new.items) }
{
    connect_in(servers, place, name, id, texts)
}

/// Connects an id with strings at a place of a slice, and answers their value at the opening.
fn connect_in<S: RtdServer + Drop>(
    servers: &mut [KnownServer<S>],
    place: usize,
    _name: &Name,
    id: u64,
    texts: &[Text],
) -> Result<Value, Memory>
    requires place { position (has_name _name.now) servers.old ≡ Some place }
    requires new { IsApart S.state servers.old _name.now id }
    ensures value { IfOk result (λ value. value ≡ opening_or_na S.state servers.old _name.now
        texts.now) }
    ensures connected { IfOk result (λ value. ConnectsAt S.state servers.old servers.new
        _name.now id texts.now value) }
    ensures refused { OnErr result (KeepsAt S.state servers.old servers.new) }
{
    servers[place].connect(id, texts)
}

/// Whether a server is flagged.
pub fn is_any_flagged<S: RtdServer + Drop>(servers: &[KnownServer<S>]) -> bool
    ensures { result ≡ list_any (λ k. k.flag) servers.now }
{
    servers.iter().any(|known| known.flag())
}

/// The texts of a slice.
pub fn copy_texts(alloc: Global, texts: &[Text]) -> Result<Vec<Text>, Memory>
    ensures { IfOk result (λ copy. copy.items ≡ texts.now) }
{
    let mut copies = Vec::with_capacity(alloc, texts.len())?;
    for text in texts {
        copies.push(text.copy()?)?;
    }
    Ok(copies)
}
