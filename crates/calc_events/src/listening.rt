ghost use Rattle.std.specs.Prelude.{◌≡◌};

use cell_values::{Event, Memory, Name};
use indexmap::IndexMap;
use std::alloc::Global;
use std::marker::Model;

/// The events that recalculations ended with, for listeners that fetch them by name. After Microsoft's documentation of
/// `xlEventCalculationEnded` and `xlEventCalculationCanceled`; here a listener fetches its events and isn't called back.
#[derive(Drop)]
pub struct Events {
    alloc: Global,
    /// All events, the oldest first. Each lies here once, however many listeners there are.
    fired: Vec<Event>,
    /// How many more can be fired.
    room: usize,
    /// How many events each listener has seen, in the order in which the listeners came.
    seen: IndexMap<String, usize>,
}

impl Model for Events {
    ghost use Rattle.std.specs.Prelude.{◌+◌, ◌≤◌, length, vec_capacity};
    ghost use Rattle.calc_events.specs.Listening.{Listening};
    ghost use Rattle.calc_events.specs.Seen.{AreSeen, listeners_of};

    ghost Value = { Listening };

    ghost view = { λ e. record { listeners = listeners_of e.fired.items e.seen.entries; room = e.room } };

    ghost invariant = { λ e. (length e.fired.items + e.room ≤ vec_capacity e.fired)
        × AreSeen e.fired.items e.seen.entries };
}

impl Events {
    ghost use Rattle.std.specs.Prelude.{[], ◌∷◌, ◌++◌, ◌-◌, ◌<◌, false, not, if◌then◌else◌, is_some, IfOk, IfErr, IfSome, OnOk, OnErr};
    ghost use Rattle.calc_events.specs.Listening.{events_of, has_listener, listeners_after_fetch, listeners_with};

    /// No listeners, and room for so many events in all.
    pub fn new(alloc: Global, room: usize) -> Result<Events, Memory>
        ensures { IfOk result (λ events. events ≡ record { listeners = []; room = room }) }
    {
        let fired = Vec::with_capacity(alloc, room)?;
        Ok(Events {
            alloc,
            fired,
            room,
            seen: IndexMap::new(alloc),
        })
    }

    /// Adds a listener, which has no events yet: true where there is none of that name, else false. A refusal, for want
    /// of memory, gives the name back and changes nothing.
    pub fn listen(&mut self, name: Name) -> Result<bool, Name>
        ensures new { IfOk result (λ added. added ≡ not (has_listener self.old.listeners name)) }
        ensures added { IfOk result (λ added. self.new ≡ (if added
            then record self.old {
              listeners = self.old.listeners ++ (record { name = name; events = [] }) ∷ [];
            }
            else self.old)) }
        ensures refused { IfErr result (λ back. (back ≡ name) × (self.new ≡ self.old)) }
        ensures unknown { OnErr result (has_listener self.old.listeners name ≡ false) }
    {
        if knows(&self.seen, name.as_str()) {
            return Ok(false);
        }
        match add(self.alloc, &mut self.seen, name.as_str(), self.fired.len()) {
            Ok(()) => Ok(true),
            Err(Memory) => Err(name),
        }
    }

    /// Gives each listener one more event. It takes no memory, and costs the same however many listeners there are.
    pub fn fire(&mut self, event: Event)
        requires { 0 < self.old.room }
        ensures { self.new ≡ record {
          listeners = listeners_with self.old.listeners event;
          room = self.old.room - 1;
        } }
    {
        self.room -= 1;
        let _ = self.fired.push(event);
    }

    /// The events that a listener hasn't fetched yet, the oldest first; None exactly where it isn't there. A refusal
    /// changes nothing.
    pub fn fetch(&mut self, name: &str) -> Result<Option<Vec<Event>>, Memory>
        ensures known { IfOk result (λ fetched. is_some fetched
            ≡ has_listener self.old.listeners name.now) }
        ensures events { IfOk result (λ fetched. IfSome fetched
            (λ events. events.items ≡ events_of self.old.listeners name.now)) }
        ensures fetched { OnOk result
            (self.new
            ≡ record self.old {
              listeners = listeners_after_fetch self.old.listeners name.now;
            }) }
        ensures refused { OnErr result (self.new ≡ self.old) }
    {
        let Some(seen) = seen_by(&self.seen, &self.fired, name) else {
            return Ok(None);
        };
        let events = Vec::from_slice(self.alloc, &self.fired[seen..])?;
        set_seen(&mut self.seen, name, self.fired.len());
        Ok(Some(events))
    }
}

ghost use Rattle.std.specs.Prelude.{ℕ, ◌≤◌, ◌∷◌, ◌++◌, [], false, length, is_some, Some, None, IfSome, IfNone, OnOk, OnErr};
ghost use Rattle.std.specs.Map.{set_value};
ghost use Rattle.std.specs.List.{list_any};
ghost use Rattle.std.specs.String.{string_bytes};
ghost use Rattle.calc_events.specs.Listening.{events_of, has_listener, listeners_after_fetch};
ghost use Rattle.calc_events.specs.Seen.{AreSeen, is_key, listeners_of};
ghost use Rattle.cell_values.specs.declared.events.Event.{Event as OneEvent};
ghost use Rattle.std.specs.Prelude.{List, drop};

/// Whether a listener of this name is there.
fn knows(seen: &IndexMap<String, usize>, name: &str) -> bool
    ensures { (fired : List OneEvent) → result
        ≡ has_listener (listeners_of fired seen.now.entries) name.now }
{
    seen.contains_key(name)
}

/// Adds a listener that isn't there, and has seen so many events. A refusal changes nothing.
fn add(
    alloc: Global,
    seen: &mut IndexMap<String, usize>,
    name: &str,
    count: usize,
) -> Result<(), Memory>
    requires { (fired : List OneEvent)
        → has_listener (listeners_of fired seen.old.entries) name.now ≡ false }
    ensures ok { OnOk result ((fired : List OneEvent) → listeners_of fired seen.new.entries
        ≡ listeners_of fired seen.old.entries
        ++ (record { name = name.now; events = drop count fired }) ∷ []) }
    ensures within { OnOk result ((fired : List OneEvent) → AreSeen fired seen.old.entries
        → count ≤ length fired → AreSeen fired seen.new.entries) }
    ensures refused { OnErr result (seen.new.entries ≡ seen.old.entries) }
{
    let Ok(key) = String::from_str(alloc, name) else {
        return Err(Memory);
    };
    seen.insert(key, count)?;
    Ok(())
}

/// How many of these events a listener has seen, if it is there.
fn seen_by(seen: &IndexMap<String, usize>, fired: &[Event], name: &str) -> Option<usize>
    requires { AreSeen fired.now seen.now.entries }
    ensures known { is_some result ≡ has_listener (listeners_of fired.now seen.now.entries) name.now }
    ensures within { IfSome result (λ count. count ≤ length fired.now) }
    ensures events { IfSome result (λ count. drop count fired.now
        ≡ events_of (listeners_of fired.now seen.now.entries) name.now) }
    ensures none { IfNone result
        (listeners_after_fetch (listeners_of fired.now seen.now.entries) name.now
        ≡ listeners_of fired.now seen.now.entries) }
{
    seen.get(name).copied()
}

/// Notes that a listener has seen so many events.
fn set_seen(seen: &mut IndexMap<String, usize>, name: &str, count: usize)
    ensures set { (fired : List OneEvent) → length fired ≡ count
        → listeners_of fired seen.new.entries
        ≡ listeners_after_fetch (listeners_of fired seen.old.entries) name.now }
    ensures within { (fired : List OneEvent) → AreSeen fired seen.old.entries
        → count ≤ length fired → AreSeen fired seen.new.entries }
{
    if let Some(place) = seen.get_mut(name) {
        *place = count;
    }
}
