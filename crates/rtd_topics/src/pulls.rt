//! What a pull takes.

ghost use Rattle.std.specs.Prelude.{◌≡◌, ◌&&◌, ◌||◌, ℕ, [], IfOk, OnOk, nat_eq, not, true};
ghost use Rattle.std.specs.List.{list_any};
ghost use Rattle.cell_refs.specs.declared.grid.Cell.{Cell as OneCell};
ghost use Rattle.cell_refs.specs.Cell.{is_among};
ghost use Rattle.cell_values.specs.SameValue.{same_value};
ghost use Rattle.rtd_topics.specs.Parts.{TakesAll, TakesNews, differs, is_news, is_news_of_one, throttle_of};
ghost use Rattle.rtd_topics.specs.RtdState.{IsMoment};
ghost use Rattle.topic_table.specs.Table.{has_other_value, has_reader};
ghost use Rattle.workbook.specs.Pulling.{pulled_throttle};

use cell_refs::Cell;
use cell_values::{Memory, Value};
use indexmap::IndexSet;
use known_servers::KnownServer;
use rtd_server::RtdServer;
use std::alloc::Global;
use throttle::Throttle;
use topic_table::Topics;
use workbook::Moment;

/// The ids of the topics whose value a pull changes.
pub fn changed_ids<S: RtdServer + Drop>(
    alloc: Global,
    servers: &[KnownServer<S>],
    table: &Topics,
) -> Result<IndexSet<u64>, Memory>
    ensures { IfOk result (λ ids. (id : ℕ) → list_any (nat_eq id) ids.keys
        ≡ is_news servers.now table.now.topics id) }
{
    let mut ids = IndexSet::new(alloc);
    for known in servers {
        note_one(known, table, &mut ids)?;
    }
    Ok(ids)
}

/// Notes the ids for which a server has news that change their value, where it is flagged.
fn note_one<S: RtdServer + Drop>(
    known: &KnownServer<S>,
    table: &Topics,
    ids: &mut IndexSet<u64>,
) -> Result<(), Memory>
    ensures { OnOk result ((id : ℕ) → list_any (nat_eq id) ids.new.keys
        ≡ (is_news_of_one known.now table.now.topics id || list_any (nat_eq id) ids.old.keys)) }
{
    if known.flag() {
        return note_changed(known, table, ids);
    }
    Ok(())
}

/// Notes the ids for which a server has news that change their value.
fn note_changed<S: RtdServer + Drop>(
    known: &KnownServer<S>,
    table: &Topics,
    ids: &mut IndexSet<u64>,
) -> Result<(), Memory>
    ensures { OnOk result ((id : ℕ) → list_any (nat_eq id) ids.new.keys
        ≡ (differs known.now.news.sorted table.now.topics id
        || list_any (nat_eq id) ids.old.keys)) }
{
    for place in 0..known.news_len() {
        if let Some((id, value)) = known.news_pair(place) {
            note_id(ids, id, has_other(table, id, value))?;
        }
    }
    Ok(())
}

/// Notes an id, where it is to be noted.
fn note_id(ids: &mut IndexSet<u64>, id: u64, is_noted: bool) -> Result<(), Memory>
    ensures { OnOk result ((q : ℕ) → list_any (nat_eq q) ids.new.keys
        ≡ ((is_noted && nat_eq id q) || list_any (nat_eq q) ids.old.keys)) }
{
    if is_noted {
        ids.insert(id)?;
    }
    Ok(())
}

/// Whether the topic of an id has another value.
fn has_other(table: &Topics, id: u64, value: &Value) -> bool
    ensures { result ≡ has_other_value table.now.topics id value.now }
{
    match table.value(id) {
        Some(old) => is_other(old, value),
        None => false,
    }
}

/// Whether two values differ.
fn is_other(old: &Value, new: &Value) -> bool
    ensures { result ≡ not (same_value old.now new.now) }
{
    *old != *new
}

/// The cells that read one of these topics.
pub fn readers_of(alloc: Global, table: &Topics, ids: &[u64]) -> Result<Vec<Cell>, Memory>
    ensures { IfOk result (λ cells. (cell : OneCell) → is_among cells.items cell
        ≡ list_any (λ id. has_reader table.now id cell) ids.now) }
{
    let mut cells = Vec::new(alloc);
    for id in ids {
        cells.extend_from_slice(table.readers(*id))?;
    }
    Ok(cells)
}

/// Takes the news of every flagged server into the table.
pub fn take_all<S: RtdServer + Drop>(servers: &mut Vec<KnownServer<S>>, table: &mut Topics)
    ensures { TakesAll servers.old.items servers.new.items table.old table.new }
{
    take_each(servers, table);
}

/// Takes the news of every flagged server of a slice into the table.
fn take_each<S: RtdServer + Drop>(servers: &mut [KnownServer<S>], table: &mut Topics)
    ensures { TakesAll servers.old servers.new table.old table.new }
{
    for known in servers.iter_mut() {
        take_one(known, table);
    }
}

/// Takes the news of a server into the table, where it is flagged. Its flag is down then.
fn take_one<S: RtdServer + Drop>(known: &mut KnownServer<S>, table: &mut Topics)
    ensures { TakesNews known.old known.new table.old table.new }
{
    if known.flag() {
        take_news(known, table);
    }
}

/// Takes the news of a flagged server into the table. Its flag is down then.
fn take_news<S: RtdServer + Drop>(known: &mut KnownServer<S>, table: &mut Topics)
    requires { known.old.flag ≡ true }
    ensures { TakesNews known.old known.new table.old table.new }
{
    while let Some((id, value)) = known.pop_news() {
        let _ = table.take(id, value);
    }
    known.set_flag(false);
}

/// Notes the moment of a pull; a forced one leaves no trace.
pub fn note_pull(throttle: &mut Throttle, moment: &Moment)
    requires { IsMoment moment.now }
    ensures { throttle_of throttle.new ≡ pulled_throttle (throttle_of throttle.old) moment.now }
{
    if let Moment::At(now) = moment {
        throttle.pulled(*now);
    }
}
