ghost use Rattle.std.specs.Prelude.{◌≡◌, ℕ, ◌+◌, ◌<◌, ◌≤◌, [], ◌∷◌, ◌++◌, List, Option, Some, None, true, false, not, ◌&&◌, ◌||◌, if◌then◌else◌, is_some, nat_eq, length, take, slice_get, IsOk, IfOk, IfErr, OnOk, OnErr, IfSome, IfNone};
ghost use Rattle.std.specs.List.{IsDistinct, list_any};
ghost use Rattle.std.specs.Option.{option_copied, option_map, option_map_or};
ghost use Rattle.cell_refs.specs.declared.grid.Cell.{Cell as OneCell};
ghost use Rattle.cell_refs.specs.Cell.{same_cell};
ghost use Rattle.cell_values.specs.declared.topics.Topic.{Topic as OneTopic};
ghost use Rattle.cell_values.specs.Topic.{same_topic};

use super::places::{
    Row, forget_in, is_of, is_since, is_unread, keep_in, read_in, restore_in, take_in,
};
use super::readers::Readers;
use cell_refs::Cell;
use cell_values::{Memory, Topic, Value};
use indexmap::IndexMap;
use std::alloc::Global;
use std::marker::Model;

/// What a look for a topic has passed: so many rows aren't unread, or weren't connected in a round.
#[derive(Clone, Copy, Drop)]
pub enum Passed {
    Unread(usize),
    Since(u64, usize),
}

/// The rows of the table under their ids, in the order in which they were connected. A topic that has left leaves its
/// place empty, until the empty places are given back together.
#[derive(Drop)]
pub struct Rows {
    alloc: Global,
    rows: IndexMap<u64, Option<Row>>,
    greatest: u64,
    /// Readers in store for the next topic.
    ready: Option<Readers>,
    passed: Passed,
}

impl Model for Rows {
    ghost use Rattle.std.specs.Prelude.{is_some, map};
    ghost use Rattle.indexmap.specs.IndexMap.{spare};
    ghost use Rattle.topic_table.specs.Rows.{HasPassed, IsOnce, IsReady, IsRising, connected, live, room_in, table_of};
    ghost use Rattle.topic_table.specs.Table.{TableState};

    ghost Value = { TableState };

    ghost view = { λ r. table_of r.rows.entries r.greatest
        (room_in (is_some r.ready) (spare r.rows) r.greatest) };

    ghost invariant = { λ r. IsRising 0 r.rows.entries r.greatest
        × IsOnce (map connected (live r.rows.entries))
        × HasPassed r.rows.entries r.passed × IsReady r.ready };
}

impl Rows {
    ghost use Rattle.topic_table.specs.Table.{IsTable, KeepsReaders, KeepsRunning, KeepsTable, KeepsTopics, TakesOut, first_since, first_unread, has_other_value, has_read, has_reader, id_of, is_no_cell, leaving, readers_of, running_of, topic_at, topics_with_value};

    /// No rows.
    pub fn new(alloc: Global) -> Rows
        ensures topics { result.topics ≡ [] }
        ensures readings { result.readings ≡ [] }
        ensures greatest { result.greatest ≡ 0 }
    {
        Rows {
            alloc,
            rows: IndexMap::new(alloc),
            greatest: 0,
            ready: None,
            passed: Passed::Unread(0),
        }
    }

    /// What holds of each table. It does nothing.
    pub fn facts(&self)
        ensures { IsTable self.now }
    {
        let _ = &self.greatest;
    }

    /// The id of a topic, sought row by row.
    pub fn find(&self, topic: &Topic) -> Option<u64>
        ensures { result ≡ id_of self.now.topics topic.now }
    {
        find_in(&self.rows, topic)
    }

    /// Takes the memory for one more topic and its first reader, and answers the id that it will have. A refusal
    /// changes nothing.
    pub fn reserve(&mut self) -> Result<u64, Memory>
        ensures id { IfOk result (λ id. id ≡ self.old.greatest + 1) }
        ensures room { OnOk result (0 < self.new.room) }
        ensures topics { self.new.topics ≡ self.old.topics }
        ensures readings { self.new.readings ≡ self.old.readings }
        ensures greatest { self.new.greatest ≡ self.old.greatest }
    {
        if self.greatest == u64::MAX {
            return Err(Memory);
        }
        self.rows.reserve(1)?;
        if self.ready.is_none() {
            self.ready = Some(Readers::new(self.alloc)?);
        }
        Ok(self.greatest + 1)
    }

    /// Connects a topic that isn't there. A refusal changes nothing.
    pub fn connect(&mut self, topic: Topic, value: Value, round: u64) -> Result<u64, (Topic, Value)>
        requires { id_of self.old.topics topic ≡ None }
        ensures id { IfOk result (λ id. id ≡ self.old.greatest + 1) }
        ensures topics { OnOk result (self.new.topics ≡ self.old.topics
            ++ (record { id = self.old.greatest + 1; topic = topic; value = value; round = round })
            ∷ []) }
        ensures greatest { OnOk result (self.new.greatest ≡ self.old.greatest + 1) }
        ensures back { IfErr result (λ back. back ≡ (topic, value)) }
        ensures refused { OnErr result (KeepsTopics self.old self.new) }
        ensures readers { KeepsReaders self.old self.new }
        ensures running { KeepsRunning self.old self.new }
        ensures room { 0 < self.old.room → IsOk result }
    {
        if self.greatest == u64::MAX || self.rows.reserve(1).is_err() {
            return Err((topic, value));
        }
        let Some(readers) = ready_readers(self.alloc, &mut self.ready) else {
            return Err((topic, value));
        };
        let id = self.greatest + 1;
        let row = Row {
            topic,
            value,
            round,
            readers,
        };
        let Ok(_) = self.rows.insert(id, Some(row)) else {
            unreachable!()
        };
        self.greatest = id;
        self.passed = Passed::Unread(0);
        Ok(id)
    }

    /// The greatest id that was ever given; 0 where none was.
    pub fn greatest(&self) -> u64
        ensures { result ≡ self.now.greatest }
    {
        self.greatest
    }

    /// The topic of an id.
    pub fn topic(&self, id: u64) -> Option<&Topic>
        ensures { option_copied result ≡ option_map (λ t. t.topic) (topic_at self.now.topics id) }
    {
        match row_of(&self.rows, id) {
            Some(row) => Some(&row.topic),
            None => None,
        }
    }

    /// The value of the topic of an id.
    pub fn value(&self, id: u64) -> Option<&Value>
        ensures { option_copied result ≡ option_map (λ t. t.value) (topic_at self.now.topics id) }
    {
        match row_of(&self.rows, id) {
            Some(row) => Some(&row.value),
            None => None,
        }
    }

    /// Gives the topic of an id a value: whether it is there and had another one.
    pub fn take(&mut self, id: u64, value: Value) -> bool
        ensures changed { result ≡ has_other_value self.old.topics id value }
        ensures topics { self.new.topics ≡ topics_with_value self.old.topics id value }
        ensures readings { self.new.readings ≡ self.old.readings }
        ensures greatest { self.new.greatest ≡ self.old.greatest }
        ensures room { self.new.room ≡ self.old.room }
    {
        self.passed = Passed::Unread(0);
        let Some(place) = self.rows.get_mut(&id) else {
            return false;
        };
        take_in(place, value)
    }

    /// Notes that a cell reads the topic of an id in the running round. A refusal changes nothing.
    pub fn read_by(&mut self, id: u64, cell: Cell) -> Result<(), Memory>
        requires { is_some (topic_at self.old.topics id) ≡ true }
        ensures topics { KeepsTopics self.old self.new }
        ensures readers { KeepsReaders self.old self.new }
        ensures running { OnOk result ((q : ℕ) (c : OneCell) → has_read self.new q c
            ≡ ((nat_eq id q && same_cell c cell) || has_read self.old q c)) }
        ensures refused { OnErr result (KeepsRunning self.old self.new) }
        ensures first { readers_of self.old id ≡ [] → running_of self.old id ≡ [] → IsOk result }
        ensures room { self.new.room ≡ self.old.room }
    {
        self.passed = Passed::Unread(0);
        let Some(place) = self.rows.get_mut(&id) else {
            unreachable!()
        };
        read_in(place, cell)
    }

    /// Forgets, for the running round, that a cell has read the topic of an id.
    pub fn forget(&mut self, id: u64, cell: Cell)
        ensures topics { KeepsTopics self.old self.new }
        ensures readers { KeepsReaders self.old self.new }
        ensures running { (q : ℕ) (c : OneCell) → has_read self.new q c
            ≡ (has_read self.old q c && not (nat_eq id q && same_cell c cell)) }
        ensures room { self.new.room ≡ self.old.room }
    {
        self.passed = Passed::Unread(0);
        let Some(place) = self.rows.get_mut(&id) else {
            return;
        };
        forget_in(place, cell);
    }

    /// Forgets, for the running round, all that a cell has read, going through all rows.
    pub fn forget_everywhere(&mut self, cell: Cell)
        ensures topics { KeepsTopics self.old self.new }
        ensures readers { KeepsReaders self.old self.new }
        ensures running { (q : ℕ) (c : OneCell) → has_read self.new q c
            ≡ (has_read self.old q c && not (same_cell c cell)) }
        ensures room { self.new.room ≡ self.old.room }
    {
        self.passed = Passed::Unread(0);
        forget_all(&mut self.rows, cell);
    }

    /// The readers of the running round are the kept ones.
    pub fn keep_round(&mut self)
        ensures topics { KeepsTopics self.old self.new }
        ensures readers { (q : ℕ) (c : OneCell) → has_reader self.new q c ≡ has_read self.old q c }
        ensures running { KeepsRunning self.old self.new }
        ensures room { self.new.room ≡ self.old.room }
    {
        self.passed = Passed::Unread(0);
        keep_all(&mut self.rows);
    }

    /// The readers of the running round are the kept ones again.
    pub fn drop_round(&mut self)
        ensures topics { KeepsTopics self.old self.new }
        ensures readers { KeepsReaders self.old self.new }
        ensures running { (q : ℕ) (c : OneCell) → has_read self.new q c
            ≡ has_reader self.old q c }
        ensures room { self.new.room ≡ self.old.room }
    {
        self.passed = Passed::Unread(0);
        restore_all(&mut self.rows);
    }

    /// The kept readers of the topic of an id.
    pub fn readers(&self, id: u64) -> &[Cell]
        ensures cells { result.now ≡ readers_of self.now id }
        ensures once { IsDistinct same_cell (readers_of self.now id) }
    {
        match row_of(&self.rows, id) {
            Some(row) => row.readers.kept(),
            None => &[],
        }
    }

    /// Whether a cell is a kept reader of the topic of an id.
    pub fn is_reader(&self, id: u64, cell: Cell) -> bool
        ensures { result ≡ has_reader self.now id cell }
    {
        match row_of(&self.rows, id) {
            Some(row) => row.readers.is_kept(cell),
            None => false,
        }
    }

    /// Whether a cell has read the topic of an id in the running round.
    pub fn has_read(&self, id: u64, cell: Cell) -> bool
        ensures { result ≡ has_read self.now id cell }
    {
        match row_of(&self.rows, id) {
            Some(row) => row.readers.has_read(cell),
            None => false,
        }
    }

    /// Whether the topic of an id has readers, kept or in the running round.
    pub fn has_readings(&self, id: u64) -> bool
        ensures { result ≡ not (is_no_cell (readers_of self.now id)
            && is_no_cell (running_of self.now id)) }
    {
        match row_of(&self.rows, id) {
            Some(row) => row.readers.is_any(),
            None => false,
        }
    }

    /// Takes out the first topic without kept readers.
    pub fn pop_unread(&mut self) -> Option<(Topic, u64)>
        ensures first { result ≡ option_map leaving (first_unread self.old) }
        ensures ids { IfSome result (λ out. (topic : OneTopic) → id_of self.new.topics topic
            ≡ (if same_topic out.0 topic then None else id_of self.old.topics topic)) }
        ensures out { IfSome result (λ out. TakesOut self.old self.new out.1) }
        ensures none { IfNone result (KeepsTable self.old self.new) }
    {
        let Some(place) = next_unread(&self.rows, self.passed) else {
            self.give_back();
            return None;
        };
        self.passed = Passed::Unread(place);
        Some(take_out(&mut self.rows, place))
    }

    /// Takes out the first topic that was connected in a round.
    pub fn pop_since(&mut self, round: u64) -> Option<(Topic, u64)>
        ensures first { result ≡ option_map leaving (first_since self.old round) }
        ensures ids { IfSome result (λ out. (topic : OneTopic) → id_of self.new.topics topic
            ≡ (if same_topic out.0 topic then None else id_of self.old.topics topic)) }
        ensures out { IfSome result (λ out. TakesOut self.old self.new out.1) }
        ensures none { IfNone result (KeepsTable self.old self.new) }
    {
        let Some(place) = next_since(&self.rows, self.passed, round) else {
            self.give_back();
            return None;
        };
        self.passed = Passed::Since(round, place);
        Some(take_out(&mut self.rows, place))
    }

    /// Gives back the empty places.
    fn give_back(&mut self)
        ensures { KeepsTable self.old self.new }
    {
        self.passed = Passed::Unread(0);
        self.rows.retain(|_id, place| place.is_some());
    }
}

ghost use Rattle.topic_table.specs.declared.places.Row.{Row as OneRow};
ghost use Rattle.indexmap.specs.IndexMap.{set_value_at, spare};
ghost use Rattle.topic_table.specs.Rows.{EachPlace, HasPassed, IsForgotten, IsKept, IsReady, IsRestored, IsRising, connected, is_since_place, is_unread_place, live, row_at, topic_in};
ghost use Rattle.topic_table.specs.Table.{id_of};
ghost use Rattle.std.specs.Prelude.{map};

/// The row of an id.
fn row_of(rows: &IndexMap<u64, Option<Row>>, id: u64) -> Option<&Row>
    ensures { option_copied result ≡ row_at rows.now.entries id }
{
    match rows.get(&id) {
        Some(place) => place.as_ref(),
        None => None,
    }
}

/// Readers for a new topic: those in store, or else new ones; None for want of memory.
fn ready_readers(alloc: Global, ready: &mut Option<Readers>) -> Option<Readers>
    requires { IsReady ready.old }
    ensures empty { IfSome result (λ readers. readers ≡ record { kept = []; running = [] }) }
    ensures store { IsReady ready.new }
    ensures succeeds { is_some ready.old ≡ true → is_some result ≡ true }
{
    match ready.take() {
        Some(readers) => Some(readers),
        None => Readers::new(alloc).ok(),
    }
}

/// The id of a topic, sought row by row.
fn find_in(rows: &IndexMap<u64, Option<Row>>, topic: &Topic) -> Option<u64>
    ensures { result ≡ id_of (map connected (live rows.now.entries)) topic.now }
{
    for i in 0..rows.len() {
        if let Some((id, place)) = rows.get_index(i) {
            if is_of(place, topic) {
                return Some(*id);
            }
        }
    }
    None
}

/// Where the first row without kept readers stands, which isn't among the first ones.
fn unread_place(rows: &IndexMap<u64, Option<Row>>, start: usize) -> Option<usize>
    requires { list_any (λ e. is_unread_place e.1) (take start rows.now.entries) ≡ false }
    ensures first { IfSome result (λ i. list_any (λ e. is_unread_place e.1)
        (take i rows.now.entries) ≡ false) }
    ensures at { IfSome result (λ i. option_map_or (λ e. is_unread_place e.1)
        (slice_get rows.now.entries i) false ≡ true) }
    ensures none { IfNone result (list_any (λ e. is_unread_place e.1) rows.now.entries ≡ false) }
{
    for i in start..rows.len() {
        if let Some((_, place)) = rows.get_index(i) {
            if is_unread(place) {
                return Some(i);
            }
        }
    }
    None
}

/// Where the first row stands that was connected in a round, which isn't among the first ones.
fn since_place(rows: &IndexMap<u64, Option<Row>>, round: u64, start: usize) -> Option<usize>
    requires { list_any (λ e. is_since_place round e.1) (take start rows.now.entries) ≡ false }
    ensures first { IfSome result (λ i. list_any (λ e. is_since_place round e.1)
        (take i rows.now.entries) ≡ false) }
    ensures at { IfSome result (λ i. option_map_or (λ e. is_since_place round e.1)
        (slice_get rows.now.entries i) false ≡ true) }
    ensures none { IfNone result (list_any (λ e. is_since_place round e.1) rows.now.entries
        ≡ false) }
{
    for i in start..rows.len() {
        if let Some((_, place)) = rows.get_index(i) {
            if is_since(place, round) {
                return Some(i);
            }
        }
    }
    None
}

/// Where the first row without kept readers stands, with what was passed before.
fn next_unread(rows: &IndexMap<u64, Option<Row>>, passed: Passed) -> Option<usize>
    requires { HasPassed rows.now.entries passed }
    ensures first { IfSome result (λ i. list_any (λ e. is_unread_place e.1)
        (take i rows.now.entries) ≡ false) }
    ensures at { IfSome result (λ i. option_map_or (λ e. is_unread_place e.1)
        (slice_get rows.now.entries i) false ≡ true) }
    ensures none { IfNone result (list_any (λ e. is_unread_place e.1) rows.now.entries ≡ false) }
{
    match passed {
        Passed::Unread(count) => unread_place(rows, count),
        Passed::Since(_, _) => unread_place(rows, 0),
    }
}

/// Where the first row stands that was connected in a round, with what was passed before.
fn next_since(rows: &IndexMap<u64, Option<Row>>, passed: Passed, round: u64) -> Option<usize>
    requires { HasPassed rows.now.entries passed }
    ensures first { IfSome result (λ i. list_any (λ e. is_since_place round e.1)
        (take i rows.now.entries) ≡ false) }
    ensures at { IfSome result (λ i. option_map_or (λ e. is_since_place round e.1)
        (slice_get rows.now.entries i) false ≡ true) }
    ensures none { IfNone result (list_any (λ e. is_since_place round e.1) rows.now.entries
        ≡ false) }
{
    match passed {
        Passed::Since(since, count) if since == round => since_place(rows, round, count),
        _ => since_place(rows, round, 0),
    }
}

/// Empties a place, and gives its topic.
fn take_out(rows: &mut IndexMap<u64, Option<Row>>, place: usize) -> (Topic, u64)
    requires { is_some (topic_in (slice_get rows.old.entries place)) ≡ true }
    ensures row { topic_in (slice_get rows.old.entries place) ≡ Some result }
    ensures left { rows.new.entries ≡ set_value_at rows.old.entries place None }
    ensures room { spare rows.new ≡ spare rows.old }
{
    let Some((id, _)) = rows.get_index(place) else {
        unreachable!()
    };
    let id = *id;
    let Some(spot) = rows.get_index_mut(place) else {
        unreachable!()
    };
    let Some(row) = spot.take() else {
        unreachable!()
    };
    let Row {
        topic,
        value: _,
        round: _,
        readers: _,
    } = row;
    (topic, id)
}

/// The readers of the running round are the kept ones, in each row.
fn keep_all(rows: &mut IndexMap<u64, Option<Row>>)
    ensures places { EachPlace IsKept rows.old.entries rows.new.entries }
    ensures room { spare rows.new ≡ spare rows.old }
{
    for i in 0..rows.len() {
        if let Some(place) = rows.get_index_mut(i) {
            keep_in(place);
        }
    }
}

/// The readers of the running round are the kept ones again, in each row.
fn restore_all(rows: &mut IndexMap<u64, Option<Row>>)
    ensures places { EachPlace IsRestored rows.old.entries rows.new.entries }
    ensures room { spare rows.new ≡ spare rows.old }
{
    for i in 0..rows.len() {
        if let Some(place) = rows.get_index_mut(i) {
            restore_in(place);
        }
    }
}

/// Forgets, for the running round, that a cell has read, in each row.
fn forget_all(rows: &mut IndexMap<u64, Option<Row>>, cell: Cell)
    ensures places { EachPlace (IsForgotten cell) rows.old.entries rows.new.entries }
    ensures room { spare rows.new ≡ spare rows.old }
{
    for i in 0..rows.len() {
        if let Some(place) = rows.get_index_mut(i) {
            forget_in(place, cell);
        }
    }
}
