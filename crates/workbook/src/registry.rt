ghost use Rattle.std.specs.Prelude.{◌≡◌, [], OnOk, OnErr, option_copied, Some, None};
ghost use Rattle.std.specs.Option.{option_map};
ghost use Rattle.std.specs.BTreeMap.{insert_entry, IsOrdered};
ghost use Rattle.workbook.specs.Registry.{AreInOrder, name_cmp, registration_of, next_name};
ghost use Rattle.workbook.specs.NamedEntries.{key_cmp};

use addin_types::Registration;
use cell_values::{Memory, Name};
use std::alloc::Global;
use std::collections::BTreeMap;
use std::marker::Model;

/// The registered functions: to the bytes of each name the name and what it was registered with.
#[derive(Drop)]
pub struct Registry {
    alloc: Global,
    entries: BTreeMap<String, (Name, Registration)>,
}

impl Model for Registry {
    ghost use Rattle.std.specs.Prelude.{List, ℕ};
    ghost use Rattle.addin_types.specs.declared.registrations.Registration.{Registration};
    ghost use Rattle.workbook.specs.Registry.{AreInOrder};
    ghost use Rattle.workbook.specs.NamedEntries.{AreNamed, functions_of};

    ghost Value = { List (List ℕ × Registration) };

    ghost view = { λ f. functions_of f.entries.entries };

    ghost invariant = { λ f. AreNamed f.entries.entries
        × AreInOrder (functions_of f.entries.entries) };
}

impl Registry {
    /// No registered functions.
    pub fn new(alloc: Global) -> Registry
        ensures { result ≡ [] }
    {
        Registry {
            alloc,
            entries: BTreeMap::new(alloc),
        }
    }

    /// Registers a function, in place of any of that name.
    pub fn register(&mut self, name: Name, registration: Registration) -> Result<(), Memory>
        ensures ok { OnOk result (self.new ≡ insert_entry name_cmp self.old name registration) }
        ensures refused { OnErr result (self.new ≡ self.old) }
    {
        let Ok(key) = String::from_str(self.alloc, name.as_str()) else {
            return Err(Memory);
        };
        insert(&mut self.entries, key, (name, registration))
    }

    /// What a name is registered with.
    pub fn registration(&self, name: &str) -> Option<&Registration>
        ensures found { option_copied result ≡ registration_of self.now name.now }
        ensures ordered { AreInOrder self.now }
    {
        match self.entries.get(name) {
            Some((_, registration)) => Some(registration),
            None => None,
        }
    }

    /// The least name among those greater than `after`, or among all.
    pub fn next_name(&self, after: Option<&str>) -> Option<&Name>
        ensures next { option_copied result ≡ next_name self.now (option_copied after.entry) }
        ensures ordered { AreInOrder self.now }
    {
        for (key, (name, _)) in &self.entries {
            if is_past(after, key.as_str()) {
                return Some(name);
            }
        }
        None
    }
}

/// Puts an entry into the map. A refusal changes nothing.
fn insert(
    entries: &mut BTreeMap<String, (Name, Registration)>,
    key: String,
    entry: (Name, Registration),
) -> Result<(), Memory>
    ensures ok { OnOk result (entries.new.entries
        ≡ insert_entry key_cmp entries.old.entries key entry) }
    ensures refused { OnErr result (entries.new.entries ≡ entries.old.entries) }
    ensures ordered { IsOrdered key_cmp entries.new }
{
    match entries.insert(key, entry) {
        Ok(_) => Ok(()),
        Err(_) => Err(Memory),
    }
}

/// Whether a name is greater than `after`, or no name is given.
fn is_past(after: Option<&str>, name: &str) -> bool
    ensures { result ≡ Rattle.workbook.specs.Registry.is_past
        (option_copied after.entry) name.now }
{
    match after {
        None => true,
        Some(after) => after < name,
    }
}
