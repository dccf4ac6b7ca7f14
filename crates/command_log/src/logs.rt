ghost use Rattle.std.specs.Prelude.{◌≡◌, ◌<◌, ◌≤◌, ◌+◌, ◌-◌, ◌++◌, ◌∷◌, [], IfOk, OnOk, length, vec_capacity, vec_len, if◌then◌else◌};
ghost use Rattle.cell_refs.specs.declared.grid.Cell.{Cell as OneCell};
ghost use Rattle.cell_refs.specs.Cell.{is_among, same_cell};
ghost use Rattle.command_log.specs.Log.{accepted_entry, has_site, results_of};

use super::heads::Heads;
use cell_refs::{Cell, Handle};
use cell_values::{Memory, Value};
use std::alloc::Global;
use std::marker::Model;
use workbook::{Command, Entry};

/// The answered commands of a host, the oldest first, with the values that were accepted for the asynchronous calls of
/// each cell. An accepted value is that of its entry, found by the entry's place, and never copied.
#[derive(Drop)]
pub struct CommandLog {
    entries: Vec<Entry>,
    /// For each entry with an accepted value, the place behind that of the accepted one of its cell before it; else 0.
    links: Vec<usize>,
    heads: Heads,
}

impl Model for CommandLog {
    ghost use Rattle.std.specs.Prelude.{◌-◌, min, vec_capacity, vec_len};
    ghost use Rattle.formula_parse.specs.contracts.nodes.Node as e;
    ghost use Rattle.std.specs.Coded.{codes};
    ghost use Rattle.command_log.specs.Log.{AreLinked, LogParts};

    ghost Value = { LogParts };

    ghost coded = { Prim.hlevel (codes, e.the_row.coded) };

    ghost view = { λ l. record {
      entries = l.entries.items;
      links = l.links.items;
      heads = l.heads.places;
      room = min (vec_capacity l.entries - vec_len l.entries)
          (vec_capacity l.links - vec_len l.links);
      spare = l.heads.spare;
    } };

    ghost invariant = { λ l. AreLinked l.entries.items l.links.items l.heads.places };
}

impl CommandLog {
    /// An empty log, for whose entries all room is taken here.
    pub fn open(alloc: Global, limit: usize) -> Result<CommandLog, Memory>
        ensures entries { IfOk result (λ log. log.entries ≡ []) }
        ensures results { IfOk result (λ log. (cell : OneCell) → results_of log cell ≡ []) }
        ensures room { IfOk result (λ log. limit ≤ log.room) }
    {
        Ok(CommandLog {
            entries: Vec::with_capacity(alloc, limit)?,
            links: Vec::with_capacity(alloc, limit)?,
            heads: Heads::new(alloc),
        })
    }

    /// The entries.
    pub fn entries(&self) -> &[Entry]
        ensures { result.now ≡ self.now.entries }
    {
        self.entries.as_slice()
    }

    /// How many entries there are.
    pub fn len(&self) -> usize
        ensures { result ≡ length self.now.entries }
    {
        self.entries.len()
    }

    /// The entries, given back.
    pub fn into_entries(self) -> Vec<Entry>
        ensures { result.items ≡ self.entries }
    {
        self.entries
    }

    /// Puts an entry at the end. It takes no memory.
    pub fn push(&mut self, entry: Entry)
        requires { 0 < self.old.room }
        ensures entries { self.new.entries ≡ self.old.entries ++ entry ∷ [] }
        ensures results { (cell : OneCell) → results_of self.new cell ≡ results_of self.old cell }
        ensures room { self.old.room ≤ self.new.room + 1 }
        ensures spare { self.new.spare ≡ self.old.spare }
    {
        push_reserved(&mut self.entries, entry);
        push_reserved(&mut self.links, 0);
    }

    /// Puts the return of an accepted value at the end. It takes no memory.
    pub fn accept(&mut self, actor: u32, handle: Handle, value: Value)
        requires room { 0 < self.old.room }
        requires spare { 0 < self.old.spare }
        ensures entries { self.new.entries
            ≡ self.old.entries ++ (accepted_entry actor handle value) ∷ [] }
        ensures results { (cell : OneCell) → results_of self.new cell
            ≡ (if same_cell handle.cell cell then (handle.site, value) ∷ results_of self.old cell
            else results_of self.old cell) }
        ensures room { self.old.room ≤ self.new.room + 1 }
        ensures spare { self.old.spare ≤ self.new.spare + 1 }
    {
        let link = self.heads.get(handle.cell);
        let entry = Entry {
            actor,
            command: Command::Return { handle, value },
        };
        push_reserved(&mut self.entries, entry);
        push_reserved(&mut self.links, link);
        self.heads.set(handle.cell, self.entries.len());
    }

    /// Takes the room for the first accepted values of so many cells. What is there stays.
    pub fn reserve(&mut self, n: usize) -> Result<(), Memory>
        ensures entries { self.new.entries ≡ self.old.entries }
        ensures results { (cell : OneCell) → results_of self.new cell ≡ results_of self.old cell }
        ensures room { self.new.room ≡ self.old.room }
        ensures spare { OnOk result (n ≤ self.new.spare) }
    {
        self.heads.reserve(n)
    }

    /// Forgets the accepted values of these cells. It takes no memory.
    pub fn forget(&mut self, cells: &[Cell])
        ensures entries { self.new.entries ≡ self.old.entries }
        ensures results { (cell : OneCell) → results_of self.new cell
            ≡ (if is_among cells.now cell then [] else results_of self.old cell) }
        ensures room { self.new.room ≡ self.old.room }
    {
        self.heads.remove_all(cells);
    }

    /// The accepted values of a cell with their sites, the newest first.
    pub fn results(&self, alloc: Global, cell: Cell) -> Result<Vec<(u16, Value)>, Memory>
        ensures { IfOk result (λ results. results.items ≡ results_of self.now cell) }
    {
        let mut results = Vec::new(alloc);
        let mut place = self.heads.get(cell);
        'links: while let Some((site, value)) = self.result_before(place) {
            results.push((site, value.copy()?))?;
            place = self.link_before(place);
        }
        Ok(results)
    }

    /// Whether a value was accepted for a site of a cell.
    pub fn has_result(&self, cell: Cell, site: u16) -> bool
        ensures { result ≡ has_site (results_of self.now cell) site }
    {
        let mut place = self.heads.get(cell);
        'links: while let Some((other, _)) = self.result_before(place) {
            if other == site {
                return true;
            }
            place = self.link_before(place);
        }
        false
    }
}

impl CommandLog {
    ghost use Rattle.std.specs.Prelude.{◌≡◌, IfSome, Some};
    ghost use Rattle.std.specs.Option.{option_map};
    ghost use Rattle.command_log.specs.Log.{link_before, result_before};

    /// The returned value before a place, with its site, if there is one.
    fn result_before(&self, place: usize) -> Option<(u16, &Value)>
        ensures { option_map (λ r. (r.0, r.1.now)) result
            ≡ result_before self.now.entries place }
    {
        let entry = self.entries.get(place.checked_sub(1)?)?;
        match &entry.command {
            Command::Return { handle, value } => Some((handle.site, value)),
            _ => None,
        }
    }

    /// The link of the entry before a place.
    fn link_before(&self, place: usize) -> usize
        ensures { result ≡ link_before self.now.links place }
    {
        match place.checked_sub(1) {
            Some(before) => self.links.get(before).copied().unwrap_or(0),
            None => 0,
        }
    }
}

/// Puts an item at the end of a list that has room for it.
fn push_reserved<T: Drop>(items: &mut Vec<T>, item: T)
    requires { vec_len items.old < vec_capacity items.old }
    ensures items { items.new.items ≡ items.old.items ++ item ∷ [] }
    ensures room { vec_capacity items.old ≤ vec_capacity items.new }
{
    let _ = items.push(item);
}
