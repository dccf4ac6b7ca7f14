//! What the table does to one place of it: a row, or none where the topic has left.

ghost use Rattle.std.specs.Prelude.{◌≡◌, [], not, ◌&&◌, ◌||◌, true, is_some, IsOk, OnOk, OnErr};
ghost use Rattle.cell_refs.specs.declared.grid.Cell.{Cell as OneCell};
ghost use Rattle.cell_refs.specs.Cell.{is_among, same_cell};
ghost use Rattle.topic_table.specs.Rows.{bare, is_other_in, is_since_place, is_topic_place, is_unread_place, kept_in, running_in, with_value};

use super::readers::Readers;
use cell_refs::Cell;
use cell_values::{Memory, Topic, Value};

/// A connected topic with its readers.
#[derive(Drop)]
pub struct Row {
    pub topic: Topic,
    pub value: Value,
    pub round: u64,
    pub readers: Readers,
}

/// Notes that a cell reads the row's topic in the running round. A refusal changes nothing.
pub fn read_in(place: &mut Option<Row>, cell: Cell) -> Result<(), Memory>
    requires { is_some place.old ≡ true }
    ensures bare { bare place.new ≡ bare place.old }
    ensures running { OnOk result ((c : OneCell) → is_among (running_in place.new) c
        ≡ (same_cell c cell || is_among (running_in place.old) c)) }
    ensures kept { (c : OneCell) → is_among (kept_in place.new) c
        ≡ is_among (kept_in place.old) c }
    ensures refused { OnErr result (place.new ≡ place.old) }
    ensures first { kept_in place.old ≡ [] → running_in place.old ≡ [] → IsOk result }
{
    match place {
        Some(row) => row.readers.read(cell),
        None => Ok(()),
    }
}

/// Forgets, for the running round, that a cell has read the row's topic.
pub fn forget_in(place: &mut Option<Row>, cell: Cell)
    ensures bare { bare place.new ≡ bare place.old }
    ensures running { (c : OneCell) → is_among (running_in place.new) c
        ≡ (is_among (running_in place.old) c && not (same_cell c cell)) }
    ensures kept { (c : OneCell) → is_among (kept_in place.new) c
        ≡ is_among (kept_in place.old) c }
{
    if let Some(row) = place {
        row.readers.forget(cell);
    }
}

/// The readers of the running round are the kept ones.
pub fn keep_in(place: &mut Option<Row>)
    ensures bare { bare place.new ≡ bare place.old }
    ensures kept { (c : OneCell) → is_among (kept_in place.new) c
        ≡ is_among (running_in place.old) c }
    ensures running { (c : OneCell) → is_among (running_in place.new) c
        ≡ is_among (running_in place.old) c }
{
    if let Some(row) = place {
        row.readers.keep();
    }
}

/// The readers of the running round are the kept ones again.
pub fn restore_in(place: &mut Option<Row>)
    ensures bare { bare place.new ≡ bare place.old }
    ensures kept { (c : OneCell) → is_among (kept_in place.new) c
        ≡ is_among (kept_in place.old) c }
    ensures running { (c : OneCell) → is_among (running_in place.new) c
        ≡ is_among (kept_in place.old) c }
{
    if let Some(row) = place {
        row.readers.restore();
    }
}

/// Gives the row's topic a value: whether it had another one.
pub fn take_in(place: &mut Option<Row>, value: Value) -> bool
    ensures changed { result ≡ is_other_in place.old value }
    ensures row { place.new ≡ with_value place.old value }
{
    match place {
        Some(row) => {
            let is_other = row.value != value;
            row.value = value;
            is_other
        }
        None => false,
    }
}

/// Whether a row is there without kept readers.
pub fn is_unread(place: &Option<Row>) -> bool
    ensures { result ≡ is_unread_place place.now }
{
    match place {
        Some(row) => row.readers.is_unread(),
        None => false,
    }
}

/// Whether a row is there that was connected in a round.
pub fn is_since(place: &Option<Row>, round: u64) -> bool
    ensures { result ≡ is_since_place round place.now }
{
    match place {
        Some(row) => round == row.round,
        None => false,
    }
}

/// Whether a row of a topic is there.
pub fn is_of(place: &Option<Row>, topic: &Topic) -> bool
    ensures { result ≡ is_topic_place topic.now place.now }
{
    match place {
        Some(row) => *topic == row.topic,
        None => false,
    }
}
