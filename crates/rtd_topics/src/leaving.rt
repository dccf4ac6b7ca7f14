//! Topics that leave the table.

ghost use Rattle.std.specs.Prelude.{◌≡◌, ℕ, All, false, true, IfNone, IfSome, Some, nat_eq};
ghost use Rattle.cell_refs.specs.declared.grid.Cell.{Cell as OneCell};
ghost use Rattle.rtd_topics.specs.Dropping.{DropsSince, DropsUnread, IsRead, Leaves};
ghost use Rattle.topic_table.specs.Table.{ConnectedTopic, KeepsTable, has_reader, topic_at};

use super::servers::disconnect;
use cell_values::Topic;
use known_servers::KnownServer;
use rtd_server::RtdServer;
use topic_table::Topics;

/// Disconnects the topics that no cell is kept to read.
pub fn disconnect_unread<S: RtdServer + Drop>(servers: &mut Vec<KnownServer<S>>, table: &mut Topics)
    ensures { DropsUnread S.state servers.old.items servers.new.items table.old table.new }
{
    while let Some((topic, id)) = pop_unread(table) {
        disconnect(servers, &topic.server, id);
    }
}

/// Disconnects the topics that were connected in a round.
pub fn disconnect_since<S: RtdServer + Drop>(
    servers: &mut Vec<KnownServer<S>>,
    table: &mut Topics,
    round: u64,
)
    ensures { DropsSince S.state servers.old.items servers.new.items table.old table.new round }
{
    while let Some((topic, id)) = pop_since(table, round) {
        disconnect(servers, &topic.server, id);
    }
}

/// Disconnects all topics of a table, which go by their ids, in the order in which they were connected.
pub fn disconnect_all<S: RtdServer + Drop>(servers: &mut Vec<KnownServer<S>>, table: &Topics) {
    for before in 0..table.greatest() {
        let id = before + 1;
        if let Some(topic) = table.topic(id) {
            disconnect(servers, &topic.server, id);
        }
    }
}

/// Takes out the first topic that no cell is kept to read.
fn pop_unread(table: &mut Topics) -> Option<(Topic, u64)>
    ensures leaves { IfSome result (λ out. Leaves table.old table.new out.0 out.1) }
    ensures unread { IfSome result (λ out. (cell : OneCell)
        → has_reader table.old out.1 cell ≡ false) }
    ensures none { IfNone result (KeepsTable table.old table.new) }
    ensures read { IfNone result ((id : ℕ) (t : ConnectedTopic)
        → topic_at table.old.topics id ≡ Some t → IsRead table.old id) }
{
    table.facts();
    table.pop_unread()
}

/// Takes out the first topic that was connected in a round.
fn pop_since(table: &mut Topics, round: u64) -> Option<(Topic, u64)>
    ensures leaves { IfSome result (λ out. Leaves table.old table.new out.0 out.1) }
    ensures of { IfSome result (λ out. (t : ConnectedTopic)
        → topic_at table.old.topics out.1 ≡ Some t → nat_eq round t.round ≡ true) }
    ensures none { IfNone result (KeepsTable table.old table.new) }
    ensures others { IfNone result (All (λ (t : ConnectedTopic). nat_eq round t.round ≡ false)
        table.old.topics) }
{
    table.facts();
    table.pop_since(round)
}
