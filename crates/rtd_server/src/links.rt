//! The connected ids, and those of them that are due.

ghost use Rattle.std.specs.Prelude.{◌≡◌, ◌≤◌, ℕ, [], false, ◌||◌, ◌++◌, ◌∷◌, Some, None, IfOk, OnOk, OnErr, nat_eq, not, filter, length, if◌then◌else◌};
ghost use Rattle.std.specs.List.{list_any, IsDistinct};
ghost use Rattle.std.specs.Option.{option_copied};
ghost use Rattle.indexmap.specs.IndexSet.{spare};
ghost use Rattle.rtd_server.specs.Links.{watchers_at};
ghost use Rattle.rtd_server.specs.Strings.{Strings as StringList, same_strings};

use super::strings::Strings;
use cell_values::Memory;
use indexmap::{IndexMap, IndexSet};
use std::alloc::{AllocError, Global};
use std::marker::Model;

/// Ids that are connected with the same strings.
#[derive(Drop)]
pub struct Ids {
    ids: Vec<u64>,
}

impl Model for Ids {
    ghost use Rattle.std.specs.Prelude.{List, ℕ};

    ghost Value = { List ℕ };

    ghost view = { λ i. i.ids.items };
}

impl Ids {
    /// One id.
    fn one(alloc: Global, id: u64) -> Result<Ids, AllocError>
        ensures { IfOk result (λ ids. ids ≡ id ∷ []) }
    {
        let mut ids = Vec::new(alloc);
        ids.push(id)?;
        Ok(Ids { ids })
    }

    /// Adds an id.
    fn push(&mut self, id: u64) -> Result<(), AllocError>
        ensures ok { OnOk result (self.new ≡ self.old ++ id ∷ []) }
        ensures err { OnErr result (self.new ≡ self.old) }
    {
        self.ids.push(id)?;
        Ok(())
    }

    /// Takes an id out.
    fn remove(&mut self, id: u64)
        ensures { self.new ≡ filter (λ other. not (nat_eq other id)) self.old }
    {
        self.ids.retain(|other| *other != id);
    }
}

/// The strings of each connected id, the ids of strings, and the ids that are due.
#[derive(Drop)]
pub struct Links {
    links: IndexMap<u64, Strings>,
    watchers: IndexMap<Strings, Ids>,
    due: IndexSet<u64>,
}

impl Model for Links {
    ghost use Rattle.rtd_server.specs.Links.{AreWatched, LinksState};

    ghost Value = { LinksState };

    ghost view = { λ l. record {
      links = l.links.entries;
      watchers = l.watchers.entries;
      due = l.due.keys;
    } };

    ghost invariant = { λ l. AreWatched l.links.entries l.watchers.entries };
}

impl Links {
    ghost use Rattle.rtd_server.specs.Links.{connected_at, has_strings, is_due_at};

    /// Nothing is connected.
    pub fn new(alloc: Global) -> Links
        ensures connected { (id : ℕ) → connected_at result id ≡ None }
        ensures due { result.due ≡ [] }
    {
        Links {
            links: IndexMap::new(alloc),
            watchers: IndexMap::new(alloc),
            due: IndexSet::new(alloc),
        }
    }

    /// The strings of an id.
    pub fn strings(&self, id: u64) -> Option<&Strings>
        ensures { option_copied result ≡ connected_at self.now id }
    {
        self.links.get(&id)
    }

    /// The ids that are due.
    pub fn due(&self) -> &[u64]
        ensures ids { result.now ≡ self.now.due }
        ensures once { IsDistinct nat_eq self.now.due }
    {
        self.due.as_slice()
    }

    /// No id is due any more.
    pub fn clear_due(&mut self)
        ensures { self.new ≡ record self.old { due = [] } }
    {
        self.due.clear();
    }

    /// Connects an id with strings. A refusal changes nothing that is connected or due.
    pub fn connect(
        &mut self,
        alloc: Global,
        id: u64,
        strings: Strings,
        is_due: bool,
    ) -> Result<(), Memory>
        requires { connected_at self.old id ≡ None }
        ensures connected { OnOk result ((q : ℕ) → connected_at self.new q
            ≡ (if nat_eq id q then Some strings else connected_at self.old q)) }
        ensures due { OnOk result ((q : ℕ) → is_due_at self.new q
            ≡ (if nat_eq id q then is_due else is_due_at self.old q)) }
        ensures refused { OnErr result ((self.new.links ≡ self.old.links)
            × (self.new.due ≡ self.old.due)) }
    {
        self.links.reserve(1)?;
        self.due.reserve(1)?;
        watch(alloc, &mut self.watchers, id, &strings)?;
        let Ok(_) = self.links.insert(id, strings) else {
            unreachable!()
        };
        set_due(&mut self.due, id, is_due);
        Ok(())
    }

    /// Takes an id out.
    pub fn disconnect(&mut self, id: u64)
        ensures connected { (q : ℕ) → connected_at self.new q
            ≡ (if nat_eq id q then None else connected_at self.old q) }
        ensures due { (q : ℕ) → is_due_at self.new q
            ≡ (if nat_eq id q then false else is_due_at self.old q) }
    {
        let _ = self.due.swap_remove(&id);
        if let Some(strings) = self.links.swap_remove(&id) {
            unwatch(&mut self.watchers, id, &strings);
        }
    }

    /// Makes the ids that are connected with strings due. A refusal changes nothing.
    pub fn make_due(&mut self, strings: &Strings) -> Result<(), AllocError>
        ensures due { OnOk result ((q : ℕ) → is_due_at self.new q
            ≡ (has_strings self.old.links q strings.now || is_due_at self.old q)) }
        ensures connected { self.new.links ≡ self.old.links }
        ensures refused { OnErr result (self.new.due ≡ self.old.due) }
    {
        if let Some(ids) = self.watchers.get(strings) {
            self.due.reserve(ids.ids.len())?;
            add_all(&mut self.due, &ids.ids);
        }
        Ok(())
    }
}

/// Adds ids, for which there is room.
fn add_all(due: &mut IndexSet<u64>, ids: &[u64])
    requires { length ids.now ≤ spare due.old }
    ensures { (q : ℕ) → list_any (nat_eq q) due.new.keys
        ≡ (list_any (nat_eq q) ids.now || list_any (nat_eq q) due.old.keys) }
{
    for id in ids {
        let Ok(_) = due.insert(*id) else {
            unreachable!()
        };
    }
}

/// Puts an id in or takes it out; where it is put in, there is room.
fn set_due(due: &mut IndexSet<u64>, id: u64, is_due: bool)
    requires { 1 ≤ spare due.old }
    ensures { (q : ℕ) → list_any (nat_eq q) due.new.keys
        ≡ (if nat_eq id q then is_due else list_any (nat_eq q) due.old.keys) }
{
    if is_due {
        let Ok(_) = due.insert(id) else {
            unreachable!()
        };
    } else {
        let _ = due.swap_remove(&id);
    }
}

/// Notes an id for strings.
fn watch(
    alloc: Global,
    watchers: &mut IndexMap<Strings, Ids>,
    id: u64,
    strings: &Strings,
) -> Result<(), Memory>
    ensures noted { OnOk result ((s : StringList) → watchers_at watchers.new.entries s
        ≡ (if same_strings strings.now s then watchers_at watchers.old.entries s ++ id ∷ []
        else watchers_at watchers.old.entries s)) }
    ensures refused { OnErr result ((s : StringList) → watchers_at watchers.new.entries s
        ≡ watchers_at watchers.old.entries s) }
{
    if let Some(ids) = watchers.get_mut(strings) {
        ids.push(id)?;
        return Ok(());
    }
    let copy = strings.copy(alloc)?;
    let ids = Ids::one(alloc, id)?;
    watchers.insert(copy, ids)?;
    Ok(())
}

/// Takes an id out of those noted for strings.
fn unwatch(watchers: &mut IndexMap<Strings, Ids>, id: u64, strings: &Strings)
    ensures { (s : StringList) (q : ℕ) → list_any (nat_eq q) (watchers_at watchers.new.entries s)
        ≡ (if same_strings strings.now s
        then (if nat_eq id q then false
        else list_any (nat_eq q) (watchers_at watchers.old.entries s))
        else list_any (nat_eq q) (watchers_at watchers.old.entries s)) }
{
    if let Some(ids) = watchers.get_mut(strings) {
        ids.remove(id);
    }
}
