//! The news that a server gave.

ghost use Rattle.std.specs.Prelude.{◌≡◌, ◌≤◌, ◌<◌, ◌+◌, ◌++◌, ◌∷◌, ℕ, [], Some, None, IfNone, IfSome, OnOk, nat_eq, length, slice_get, if◌then◌else◌, option_to_list};
ghost use Rattle.std.specs.Map.{keys_of, lookup};
ghost use Rattle.std.specs.Option.{option_map};
ghost use Rattle.indexmap.specs.IndexMap.{spare};
ghost use Rattle.known_servers.specs.News.{news_at};

use cell_values::{Memory, Value};
use indexmap::IndexMap;
use std::alloc::Global;
use std::marker::Model;

/// What came with the last refresh and isn't sorted in yet, and the news that are, by id.
#[derive(Drop)]
pub struct News {
    given: Vec<(u64, Value)>,
    sorted: IndexMap<u64, Value>,
}

impl Model for News {
    ghost use Rattle.known_servers.specs.News.{NewsState};

    ghost Value = { NewsState };

    ghost view = { λ n. record { given = n.given.items; sorted = n.sorted.entries } };
}

impl News {
    /// No news.
    pub fn new(alloc: Global) -> News
        ensures { result ≡ record { given = []; sorted = [] } }
    {
        News {
            given: Vec::new(alloc),
            sorted: IndexMap::new(alloc),
        }
    }

    /// Takes what came with a refresh. It takes no memory.
    pub fn give(&mut self, pairs: Vec<(u64, Value)>)
        requires { self.old.given ≡ [] }
        ensures { self.new ≡ record { given = pairs.items; sorted = self.old.sorted } }
    {
        self.given = pairs;
    }

    /// Sorts in what came with the last refresh.
    pub fn sort_in(&mut self) -> Result<(), Memory>
        ensures kept { (id : ℕ) → news_at self.new id ≡ news_at self.old id }
        ensures sorted { OnOk result (self.new.given ≡ []) }
    {
        self.sorted.reserve(self.given.len())?;
        while let Some((id, value)) = self.given.pop() {
            put(&mut self.sorted, id, value);
        }
        Ok(())
    }

    /// Takes out the news of an id.
    pub fn remove(&mut self, id: u64)
        ensures { (q : ℕ) → news_at self.new q ≡ (if nat_eq id q then None else news_at self.old q) }
    {
        self.given.retain(|pair| pair.0 != id);
        let _ = self.sorted.swap_remove(&id);
    }

    /// How many news are sorted in.
    pub fn len(&self) -> usize
        ensures { result ≡ length self.now.sorted }
    {
        self.sorted.len()
    }

    /// The news at a place: an id, and the value.
    pub fn pair(&self, place: usize) -> Option<(u64, &Value)>
        ensures id { option_map (λ pair. pair.0) result ≡ slice_get (keys_of self.now.sorted) place }
        ensures value { IfSome result (λ pair. lookup (nat_eq pair.0) self.now.sorted
            ≡ Some pair.1.now) }
    {
        match self.sorted.get_index(place) {
            Some((id, value)) => Some((*id, value)),
            None => None,
        }
    }

    /// Takes out the last news that are sorted in.
    pub fn pop(&mut self) -> Option<(u64, Value)>
        ensures given { self.new.given ≡ self.old.given }
        ensures sorted { self.old.sorted ≡ self.new.sorted ++ option_to_list result }
        ensures empty { IfNone result (self.old.sorted ≡ []) }
    {
        self.sorted.pop()
    }
}

/// Puts in a value for an id, where there is room.
fn put(sorted: &mut IndexMap<u64, Value>, id: u64, value: Value)
    requires { 0 < spare sorted.old }
    ensures value { (q : ℕ) → lookup (nat_eq q) sorted.new.entries
        ≡ (if nat_eq id q then Some value else lookup (nat_eq q) sorted.old.entries) }
    ensures room { spare sorted.old ≤ spare sorted.new + 1 }
{
    let Ok(_) = sorted.insert(id, value) else {
        unreachable!()
    };
}
