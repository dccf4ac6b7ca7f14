//! The values that were published.

ghost use Rattle.std.specs.Prelude.{◌≡◌, ◌<◌, false, ◌||◌, Some, None, OnOk, IfOk, if◌then◌else◌};
ghost use Rattle.std.specs.Map.{lookup};
ghost use Rattle.indexmap.specs.IndexMap.{spare};
ghost use Rattle.rtd_server.specs.Strings.{Strings as StringList, same_strings};

use super::strings::Strings;
use cell_values::{ErrorKind, Memory, Value};
use indexmap::IndexMap;
use std::alloc::Global;
use std::marker::Model;

/// What is published for strings, and of those that were published for since the opening what was before.
#[derive(Drop)]
pub struct Board {
    values: IndexMap<Strings, Value>,
    before: IndexMap<Strings, Option<Value>>,
}

impl Model for Board {
    ghost use Rattle.indexmap.specs.IndexMap.{spare};
    ghost use Rattle.rtd_server.specs.Board.{BoardState};

    ghost Value = { BoardState };

    ghost view = { λ b. record {
      values = b.values.entries;
      before = b.before.entries;
      values_room = spare b.values;
      before_room = spare b.before;
    } };
}

impl Board {
    ghost use Rattle.rtd_server.specs.Server.{value_or_na};
    ghost use Rattle.rtd_server.specs.Board.{HasRoom, is_fresh_at, opening_at, published_at};

    /// Nothing is published.
    pub fn new(alloc: Global) -> Board
        ensures published { (s : StringList) → published_at result s ≡ None }
        ensures opening { (s : StringList) → opening_at result s ≡ None }
        ensures fresh { (s : StringList) → is_fresh_at result s ≡ false }
    {
        Board {
            values: IndexMap::new(alloc),
            before: IndexMap::new(alloc),
        }
    }

    /// What is published, or `#N/A`.
    pub fn published(&self, strings: &Strings) -> Result<Value, Memory>
        ensures { IfOk result (λ value. value
            ≡ value_or_na (published_at self.now strings.now)) }
    {
        match self.values.get(strings) {
            Some(value) => value.copy(),
            None => Ok(Value::Error(ErrorKind::Na)),
        }
    }

    /// What was published at the opening, or `#N/A`.
    pub fn opening(&self, strings: &Strings) -> Result<Value, Memory>
        ensures { IfOk result (λ value. value ≡ value_or_na (opening_at self.now strings.now)) }
    {
        match self.before.get(strings) {
            Some(Some(value)) => value.copy(),
            Some(None) => Ok(Value::Error(ErrorKind::Na)),
            None => self.published(strings),
        }
    }

    /// Whether something was published since the opening.
    pub fn is_fresh(&self, strings: &Strings) -> bool
        ensures { result ≡ is_fresh_at self.now strings.now }
    {
        self.before.contains_key(strings)
    }

    /// The opening's values are now the published ones.
    pub fn open(&mut self)
        ensures published { (s : StringList) → published_at self.new s ≡ published_at self.old s }
        ensures opening { (s : StringList) → opening_at self.new s ≡ published_at self.old s }
        ensures fresh { (s : StringList) → is_fresh_at self.new s ≡ false }
    {
        self.before.clear();
    }

    /// Makes room to publish for strings, and copies them. It changes nothing that is published.
    pub fn reserve(&mut self, alloc: Global, strings: &Strings) -> Result<Strings, Memory>
        ensures copy { IfOk result (λ copy. copy ≡ strings.now) }
        ensures room { OnOk result (HasRoom self.new) }
        ensures kept { (self.new.values ≡ self.old.values) × (self.new.before ≡ self.old.before) }
    {
        let copy = strings.copy(alloc)?;
        self.values.reserve(1)?;
        self.before.reserve(1)?;
        Ok(copy)
    }

    /// Publishes a value for strings, which are handed over twice. It takes no memory.
    pub fn publish(&mut self, strings: Strings, copy: Strings, value: Value)
        requires room { HasRoom self.old }
        requires copy { copy ≡ strings }
        ensures published { (s : StringList) → published_at self.new s
            ≡ (if same_strings strings s then Some value else published_at self.old s) }
        ensures opening { (s : StringList) → opening_at self.new s ≡ opening_at self.old s }
        ensures fresh { (s : StringList) → is_fresh_at self.new s
            ≡ (same_strings strings s || is_fresh_at self.old s) }
    {
        let Ok(old) = self.values.insert(strings, value) else {
            unreachable!()
        };
        if !self.before.contains_key(&copy) {
            note(&mut self.before, copy, old);
        }
    }
}

/// Notes what was published before, where there is room.
fn note(before: &mut IndexMap<Strings, Option<Value>>, strings: Strings, old: Option<Value>)
    requires { 0 < spare before.old }
    ensures { (s : StringList) → lookup (same_strings s) before.new.entries
        ≡ (if same_strings strings s then Some old
        else lookup (same_strings s) before.old.entries) }
{
    let Ok(_) = before.insert(strings, old) else {
        unreachable!()
    };
}
