ghost use Rattle.std.specs.Prelude.{◌≡◌, ℕ, ◌+◌, ◌<◌, [], ◌∷◌, ◌++◌, Some, None, not, ◌&&◌, ◌||◌, is_some, nat_eq, IsOk, IfOk, IfErr, OnOk, OnErr, IfSome, IfNone};
ghost use Rattle.std.specs.List.{IsDistinct};
ghost use Rattle.std.specs.Option.{option_copied, option_map};
ghost use Rattle.cell_refs.specs.declared.grid.Cell.{Cell as OneCell};
ghost use Rattle.cell_refs.specs.Cell.{is_among, same_cell};

use super::links::Links;
use super::rows::Rows;
use super::topic_ids::TopicIds;
use cell_refs::Cell;
use cell_values::{Memory, Topic, Value};
use std::alloc::Global;
use std::marker::Model;

/// The connected topics, and the cells that read them. A topic is connected under an *id* from 1 on, which is never
/// given again. Cells read topics in a *round*; what they have read is kept when the round is.
#[derive(Drop)]
pub struct Topics {
    rows: Rows,
    ids: TopicIds,
    /// Whether each topic stands in `ids`. Where one doesn't, for want of memory, topics are sought row by row.
    is_indexed: bool,
    links: Links,
    /// Whether each reading is noted in `links`. Where one isn't, for want of memory, readings are sought in all rows.
    is_linked: bool,
}

impl Model for Topics {
    ghost use Rattle.std.specs.Prelude.{◌≡◌, true};
    ghost use Rattle.topic_table.specs.Linking.{AreIndexed, AreLinked};
    ghost use Rattle.topic_table.specs.Table.{TableState};

    ghost Value = { TableState };

    ghost view = { λ t. t.rows };

    ghost invariant = { λ t. (t.is_indexed ≡ true → AreIndexed t.ids t.rows)
        × (t.is_linked ≡ true → AreLinked t.links t.rows) };
}

impl Topics {
    ghost use Rattle.topic_table.specs.Table.{IsTable, KeepsReaders, KeepsRunning, KeepsTable, KeepsTopics, TakesOut, first_since, first_unread, has_other_value, has_read, has_reader, id_of, leaving, readers_of, running_of, topic_at, topics_with_value};

    /// No topics.
    pub fn new(alloc: Global) -> Topics
        ensures topics { result.topics ≡ [] }
        ensures readings { result.readings ≡ [] }
        ensures greatest { result.greatest ≡ 0 }
    {
        Topics {
            rows: Rows::new(alloc),
            ids: TopicIds::new(alloc),
            is_indexed: true,
            links: Links::new(alloc),
            is_linked: true,
        }
    }

    /// What holds of each table. It does nothing.
    pub fn facts(&self)
        ensures { IsTable self.now }
    {
        self.rows.facts();
    }

    /// The id of a topic, if it is connected.
    pub fn find(&self, topic: &Topic) -> Option<u64>
        ensures { result ≡ id_of self.now.topics topic.now }
    {
        if self.is_indexed {
            if let Ok(copy) = topic.copy() {
                return self.ids.get(copy);
            }
        }
        self.rows.find(topic)
    }

    /// Takes the memory for one more topic and its first reader, and answers the id that it will have. A refusal
    /// changes nothing.
    pub fn reserve(&mut self) -> Result<u64, Memory>
        ensures id { IfOk result (λ id. id ≡ self.old.greatest + 1) }
        ensures room { OnOk result (0 < self.new.room) }
        ensures topics { self.new.topics ≡ self.old.topics }
        ensures readings { self.new.readings ≡ self.old.readings }
        ensures greatest { self.new.greatest ≡ self.old.greatest }
    {
        self.ids.reserve()?;
        self.links.reserve()?;
        self.rows.reserve()
    }

    /// Connects a topic that isn't there: it is the last of the table, without readers. A refusal, for want of memory,
    /// gives the topic and the value back and changes nothing; it doesn't come where there is room.
    pub fn connect(&mut self, topic: Topic, value: Value, round: u64) -> Result<u64, (Topic, Value)>
        requires { id_of self.old.topics topic ≡ None }
        ensures id { IfOk result (λ id. id ≡ self.old.greatest + 1) }
        ensures topics { OnOk result (self.new.topics ≡ self.old.topics
            ++ (record { id = self.old.greatest + 1; topic = topic; value = value; round = round })
            ∷ []) }
        ensures greatest { OnOk result (self.new.greatest ≡ self.old.greatest + 1) }
        ensures back { IfErr result (λ back. back ≡ (topic, value)) }
        ensures refused { OnErr result (KeepsTopics self.old self.new) }
        ensures readers { KeepsReaders self.old self.new }
        ensures running { KeepsRunning self.old self.new }
        ensures room { 0 < self.old.room → IsOk result }
    {
        let copy = topic.copy();
        let id = self.rows.connect(topic, value, round)?;
        if self.is_indexed {
            self.is_indexed = add_copy(&mut self.ids, copy, id);
        }
        Ok(id)
    }

    /// The greatest id that was ever given; 0 where none was.
    pub fn greatest(&self) -> u64
        ensures { result ≡ self.now.greatest }
    {
        self.rows.greatest()
    }

    /// The topic of an id.
    pub fn topic(&self, id: u64) -> Option<&Topic>
        ensures { option_copied result
            ≡ option_map (λ t. t.topic) (topic_at self.now.topics id) }
    {
        self.rows.topic(id)
    }

    /// The value of the topic of an id.
    pub fn value(&self, id: u64) -> Option<&Value>
        ensures { option_copied result
            ≡ option_map (λ t. t.value) (topic_at self.now.topics id) }
    {
        self.rows.value(id)
    }

    /// Gives the topic of an id a value: true where it had another one; false where it had the same, or isn't there.
    pub fn take(&mut self, id: u64, value: Value) -> bool
        ensures changed { result ≡ has_other_value self.old.topics id value }
        ensures topics { self.new.topics ≡ topics_with_value self.old.topics id value }
        ensures readings { self.new.readings ≡ self.old.readings }
        ensures greatest { self.new.greatest ≡ self.old.greatest }
        ensures room { self.new.room ≡ self.old.room }
    {
        self.rows.take(id, value)
    }

    /// Notes that a cell reads the topic of an id in the running round. A refusal changes nothing; it doesn't come
    /// where the topic has no readers.
    pub fn read_by(&mut self, id: u64, cell: Cell) -> Result<(), Memory>
        requires { is_some (topic_at self.old.topics id) ≡ true }
        ensures topics { KeepsTopics self.old self.new }
        ensures readers { KeepsReaders self.old self.new }
        ensures running { OnOk result ((q : ℕ) (c : OneCell) → has_read self.new q c
            ≡ ((nat_eq id q && same_cell c cell) || has_read self.old q c)) }
        ensures refused { OnErr result (KeepsRunning self.old self.new) }
        ensures first { readers_of self.old id ≡ [] → running_of self.old id ≡ [] → IsOk result }
        ensures room { self.new.room ≡ self.old.room }
    {
        if self.is_linked && self.links.note(cell, id).is_err() {
            if self.rows.has_readings(id) {
                return Err(Memory);
            }
            self.is_linked = false;
        }
        self.rows.read_by(id, cell)
    }

    /// Forgets, for the running round, what these cells have read.
    pub fn start_round(&mut self, cells: &[Cell])
        ensures topics { KeepsTopics self.old self.new }
        ensures readers { KeepsReaders self.old self.new }
        ensures running { (id : ℕ) (cell : OneCell) → has_read self.new id cell
            ≡ (has_read self.old id cell && not (is_among cells.now cell)) }
        ensures room { self.new.room ≡ self.old.room }
    {
        for cell in cells {
            self.forget(*cell);
        }
    }

    /// Forgets, for the running round, what a cell has read.
    fn forget(&mut self, cell: Cell)
        ensures topics { KeepsTopics self.old self.new }
        ensures readers { KeepsReaders self.old self.new }
        ensures running { (q : ℕ) (c : OneCell) → has_read self.new q c
            ≡ (has_read self.old q c && not (same_cell c cell)) }
        ensures room { self.new.room ≡ self.old.room }
    {
        if self.is_linked {
            forget_at(&mut self.rows, self.links.ids(cell), cell);
            self.links.clean(cell, &self.rows);
        } else {
            self.rows.forget_everywhere(cell);
        }
    }

    /// The readers of the running round are the kept ones.
    pub fn keep_round(&mut self)
        ensures topics { KeepsTopics self.old self.new }
        ensures readers { (id : ℕ) (cell : OneCell) → has_reader self.new id cell
            ≡ has_read self.old id cell }
        ensures running { KeepsRunning self.old self.new }
        ensures room { self.new.room ≡ self.old.room }
    {
        self.rows.keep_round();
    }

    /// The readers of the running round are the kept ones again.
    pub fn drop_round(&mut self)
        ensures topics { KeepsTopics self.old self.new }
        ensures readers { KeepsReaders self.old self.new }
        ensures running { (id : ℕ) (cell : OneCell) → has_read self.new id cell
            ≡ has_reader self.old id cell }
        ensures room { self.new.room ≡ self.old.room }
    {
        self.rows.drop_round();
    }

    /// The kept readers of the topic of an id, each once.
    pub fn readers(&self, id: u64) -> &[Cell]
        ensures cells { result.now ≡ readers_of self.now id }
        ensures once { IsDistinct same_cell (readers_of self.now id) }
    {
        self.rows.readers(id)
    }

    /// Whether a cell has read the topic of an id in the running round.
    pub fn has_read(&self, id: u64, cell: Cell) -> bool
        ensures { result ≡ has_read self.now id cell }
    {
        self.rows.has_read(id, cell)
    }

    /// Takes out the first topic without kept readers.
    pub fn pop_unread(&mut self) -> Option<(Topic, u64)>
        ensures first { result ≡ option_map leaving (first_unread self.old) }
        ensures out { IfSome result (λ out. TakesOut self.old self.new out.1) }
        ensures none { IfNone result (KeepsTable self.old self.new) }
    {
        let (topic, id) = self.rows.pop_unread()?;
        Some((self.ids.remove(topic), id))
    }

    /// Takes out the first topic that was connected in a round.
    pub fn pop_since(&mut self, round: u64) -> Option<(Topic, u64)>
        ensures first { result ≡ option_map leaving (first_since self.old round) }
        ensures out { IfSome result (λ out. TakesOut self.old self.new out.1) }
        ensures none { IfNone result (KeepsTable self.old self.new) }
    {
        let (topic, id) = self.rows.pop_since(round)?;
        Some((self.ids.remove(topic), id))
    }
}

ghost use Rattle.std.specs.Prelude.{true, if◌then◌else◌, IsOkAnd};
ghost use Rattle.std.specs.List.{list_any};
ghost use Rattle.std.specs.Map.{lookup};
ghost use Rattle.cell_values.specs.declared.topics.Topic.{Topic as OneTopic};
ghost use Rattle.cell_values.specs.Topic.{same_topic};
ghost use Rattle.topic_table.specs.Table.{KeepsReaders, KeepsTopics, has_read};

/// Adds a copy of a topic under an id, if there is one: whether it was added.
fn add_copy(ids: &mut TopicIds, copy: Result<Topic, Memory>, id: u64) -> bool
    ensures { result ≡ true → IsOkAnd copy (λ topic. (t : OneTopic) → lookup (same_topic t) ids.new
        ≡ (if same_topic topic t then Some id else lookup (same_topic t) ids.old)) }
{
    match copy {
        Ok(topic) => ids.add(topic, id).is_ok(),
        Err(_) => false,
    }
}

/// Forgets, for the running round, that a cell has read the topics of some ids.
fn forget_at(rows: &mut Rows, ids: &[u64], cell: Cell)
    ensures topics { KeepsTopics rows.old rows.new }
    ensures readers { KeepsReaders rows.old rows.new }
    ensures running { (q : ℕ) (c : OneCell) → has_read rows.new q c
        ≡ (has_read rows.old q c && not (list_any (nat_eq q) ids.now && same_cell c cell)) }
    ensures room { rows.new.room ≡ rows.old.room }
{
    for id in ids {
        rows.forget(*id, cell);
    }
}
