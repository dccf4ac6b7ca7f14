//! What no contract says: with ample memory no call is refused. Beside that, examples from outside.

ghost use Rattle.std.specs.Prelude.{◌≡◌, ℕ, false, nat_eq, None, IfOk, OnOk};
ghost use Rattle.known_servers.specs.Server.{view_of};
ghost use Rattle.rtd_server.specs.Feed.{server_of};

use super::{KnownServer, place_of};
use cell_values::{ErrorKind, Name, Text, Value};
use rtd_server::Feed;
use std::alloc::Global;
use std::process::Abort;
use std::test::Fail;

/// A server in memory, which has published nothing.
fn new_server(alloc: Global, name: &str) -> Result<KnownServer<Feed>, Fail>
    ensures { IfOk result (λ known. (id : ℕ) → (view_of server_of known).connected id ≡ None) }
{
    let name = Name::new(alloc, name)?;
    Ok(KnownServer::new(alloc, name, Feed::new(alloc)))
}

/// One string.
fn strings(alloc: Global, text: &str) -> Result<Vec<Text>, Fail> {
    let text = Text::new(alloc, text)?;
    Ok(vec![in alloc; text]?)
}

/// Publishes a number for a string.
fn publish(
    known: &mut KnownServer<Feed>,
    alloc: Global,
    text: &str,
    number: i64,
) -> Result<(), Fail>
    ensures { (id : ℕ) → (view_of server_of known.new).connected id
        ≡ (view_of server_of known.old).connected id }
{
    let strings = strings(alloc, text)?;
    known.publish(strings, Value::Num(number))?;
    Ok(())
}

/// Publishes a number for a string, if there is one.
fn publish_some(
    known: &mut KnownServer<Feed>,
    alloc: Global,
    text: &str,
    number: Option<i64>,
) -> Result<(), Fail>
    ensures { (id : ℕ) → (view_of server_of known.new).connected id
        ≡ (view_of server_of known.old).connected id }
{
    match number {
        Some(number) => publish(known, alloc, text, number),
        None => Ok(()),
    }
}

/// Opens a round.
fn open(known: &mut KnownServer<Feed>)
    ensures { (id : ℕ) → (view_of server_of known.new).connected id
        ≡ (view_of server_of known.old).connected id }
{
    known.open_round();
}

/// Connects an id with a string, and gives the value that it shows.
fn connect(known: &mut KnownServer<Feed>, alloc: Global, id: u64, text: &str) -> Result<Value, Fail>
    requires { (view_of server_of known.old).connected id ≡ None }
    ensures { OnOk result ((q : ℕ) → nat_eq id q ≡ false
        → (view_of server_of known.new).connected q
        ≡ (view_of server_of known.old).connected q) }
{
    let strings = strings(alloc, text)?;
    Ok(known.connect(id, &strings)?)
}

/// The number, or `#N/A`.
fn number_or_na(number: Option<i64>) -> Value {
    match number {
        Some(number) => Value::Num(number),
        None => Value::Error(ErrorKind::Na),
    }
}

/// Whether this is the news of an id: a number.
fn is_news(news: Option<(u64, Value)>, id: u64, number: i64) -> bool {
    match news {
        Some((of, value)) => of == id && value == Value::Num(number),
        None => false,
    }
}

/// Whether the news at a place are those of an id: a number.
fn is_pair(known: &KnownServer<Feed>, place: usize, id: u64, number: i64) -> bool {
    match known.news_pair(place) {
        Some((of, value)) => of == id && *value == Value::Num(number),
        None => false,
    }
}

/// Publishes some numbers before a round opens and in it.
fn publish_and_open(
    known: &mut KnownServer<Feed>,
    alloc: Global,
    before: Option<i64>,
    since: Option<i64>,
) -> Result<(), Fail>
    ensures { (id : ℕ) → (view_of server_of known.new).connected id
        ≡ (view_of server_of known.old).connected id }
{
    publish_some(known, alloc, "a", before)?;
    open(known);
    publish_some(known, alloc, "a", since)
}

/// The first value that the id 1 shows on a server of nothing connected, where these numbers are published before a
/// round opens and in it.
fn shown(
    known: &mut KnownServer<Feed>,
    alloc: Global,
    before: Option<i64>,
    since: Option<i64>,
) -> Result<Value, Fail>
    requires { (view_of server_of known.old).connected 1 ≡ None }
{
    publish_and_open(known, alloc, before, since)?;
    connect(known, alloc, 1, "a")
}

/// Whether the last news are those of the id 1: a number; or there are none.
fn is_pulled(known: &mut KnownServer<Feed>, number: Option<i64>) -> bool {
    match number {
        Some(number) => is_news(known.pop_news(), 1, number),
        None => known.pop_news().is_none(),
    }
}

/// Whether the id 1 shows the first number, if there is one, and then the second one as its news.
fn is_right(
    known: &mut KnownServer<Feed>,
    alloc: Global,
    before: Option<i64>,
    since: Option<i64>,
) -> Result<bool, Fail>
    requires { (view_of server_of known.old).connected 1 ≡ None }
{
    let value = shown(known, alloc, before, since)?;
    known.gather()?;
    Ok(value == number_or_na(before) && is_pulled(known, since))
}

/// The same of a new server.
fn is_shown(alloc: Global, before: Option<i64>, since: Option<i64>) -> Result<bool, Fail> {
    let mut known = new_server(alloc, "f")?;
    is_right(&mut known, alloc, before, since)
}

#[test]
fn a_topic_shows_its_value_at_the_opening_and_then_its_news(rt: HostRuntime) -> Result<(), Fail> {
    for (before, since) in [
        (None, None),
        (None, Some(6)),
        (Some(5), None),
        (Some(5), Some(6)),
    ] {
        let is_shown = is_shown(rt.alloc(), before, since)?;
        assert!(rt; is_shown);
    }
    Ok(())
}

/// Connects the ids 1 and 2 with the strings a and b.
fn connect_two(known: &mut KnownServer<Feed>, alloc: Global) -> Result<(), Fail>
    requires { (id : ℕ) → (view_of server_of known.old).connected id ≡ None }
{
    connect(known, alloc, 1, "a")?;
    connect(known, alloc, 2, "b")?;
    Ok(())
}

/// Publishes for both ids, twice for the first, with a pull's gathering between.
fn gather_twice(known: &mut KnownServer<Feed>, alloc: Global) -> Result<(), Fail> {
    publish(known, alloc, "a", 5)?;
    publish(known, alloc, "b", 7)?;
    known.gather()?;
    publish(known, alloc, "a", 6)?;
    known.gather()?;
    Ok(())
}

/// How many news of two ids there are, and whether the last ones of the id 1 are among them.
fn news_seen(known: &mut KnownServer<Feed>, alloc: Global) -> Result<(usize, bool), Fail>
    requires { (id : ℕ) → (view_of server_of known.old).connected id ≡ None }
{
    connect_two(known, alloc)?;
    gather_twice(known, alloc)?;
    let is_there = is_pair(known, 0, 1, 6) || is_pair(known, 1, 1, 6);
    Ok((known.news_len(), is_there))
}

/// The same of a new server.
fn news_of_two(alloc: Global) -> Result<(usize, bool), Fail> {
    let mut known = new_server(alloc, "f")?;
    news_seen(&mut known, alloc)
}

#[test]
fn the_last_news_of_each_id_count(rt: HostRuntime) -> Result<(), Fail> {
    let (count, is_there) = news_of_two(rt.alloc())?;
    assert_eq!(rt; count, 2);
    assert!(rt; is_there);
    Ok(())
}

/// Whether the news of the id 2 alone are left once the id 1 is taken out.
fn is_left_alone(known: &mut KnownServer<Feed>, alloc: Global) -> Result<bool, Fail>
    requires { (id : ℕ) → (view_of server_of known.old).connected id ≡ None }
{
    connect_two(known, alloc)?;
    gather_twice(known, alloc)?;
    known.disconnect(1);
    Ok(is_news(known.pop_news(), 2, 7) && known.pop_news().is_none())
}

/// The same of a new server.
fn is_one_left(alloc: Global) -> Result<bool, Fail> {
    let mut known = new_server(alloc, "f")?;
    is_left_alone(&mut known, alloc)
}

#[test]
fn an_id_leaves_with_its_news(rt: HostRuntime) -> Result<(), Fail> {
    let is_one_left = is_one_left(rt.alloc())?;
    assert!(rt; is_one_left);
    Ok(())
}

/// Adds a server of this name, with this flag.
fn add_server(
    servers: &mut Vec<KnownServer<Feed>>,
    alloc: Global,
    name: &str,
    flag: bool,
) -> Result<(), Fail> {
    let mut known = new_server(alloc, name)?;
    known.set_flag(flag);
    servers.push(known)?;
    Ok(())
}

/// Whether a server stands at a place, with this name and this flag.
fn is_at(servers: &[KnownServer<Feed>], place: usize, name: &str, flag: bool) -> bool {
    match servers.get(place) {
        Some(known) => known.name().as_str() == name && known.flag() == flag,
        None => false,
    }
}

/// Whether the server of a name is found at this place.
fn is_found(
    servers: &[KnownServer<Feed>],
    alloc: Global,
    name: &str,
    want: Option<usize>,
) -> Result<bool, Fail> {
    let name = Name::new(alloc, name)?;
    Ok(place_of(servers, &name) == want)
}

/// Whether the servers f and g, of which g has its flag up, are found, and no h.
fn are_found(servers: &mut Vec<KnownServer<Feed>>, alloc: Global) -> Result<bool, Fail> {
    add_server(servers, alloc, "f", false)?;
    add_server(servers, alloc, "g", true)?;
    Ok(
        is_at(servers, 0, "f", false)
            && is_at(servers, 1, "g", true)
            && is_found(servers, alloc, "f", Some(0))?
            && is_found(servers, alloc, "g", Some(1))?
            && is_found(servers, alloc, "h", None)?,
    )
}

/// The same of no servers at first.
fn are_two_found(alloc: Global) -> Result<bool, Fail> {
    let mut servers = Vec::new(alloc);
    are_found(&mut servers, alloc)
}

#[test]
fn servers_are_found_by_name(rt: HostRuntime) -> Result<(), Fail> {
    let are_found = are_two_found(rt.alloc())?;
    assert!(rt; are_found);
    Ok(())
}
