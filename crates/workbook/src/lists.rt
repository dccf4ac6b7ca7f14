ghost use Rattle.std.specs.Prelude.{◌≡◌};

use addin_types::Call;
use cell_values::{Event, Name};
use std::marker::Model;

/// Asynchronous calls.
#[derive(Debug, Drop)]
pub struct Calls {
    calls: Vec<Call>,
}

impl Model for Calls {
    ghost use Rattle.std.specs.Prelude.{List};
    ghost use Rattle.addin_types.specs.declared.calls.Call.{Call as OneCall};

    ghost Value = { List OneCall };

    ghost view = { λ c. c.calls.items };
}

impl Calls {
    /// The list as it stands.
    pub fn from_vec(calls: Vec<Call>) -> Calls
        ensures { result ≡ calls.items }
    {
        Calls { calls }
    }

    /// The calls in order.
    pub fn as_slice(&self) -> &[Call]
        ensures { result.now ≡ self.now }
    {
        self.calls.as_slice()
    }
}

/// Names.
#[derive(Debug, Drop)]
pub struct Names {
    names: Vec<Name>,
}

impl Model for Names {
    ghost use Rattle.std.specs.Prelude.{List, ℕ};

    ghost Value = { List (List ℕ) };

    ghost view = { λ n. n.names.items };
}

impl Names {
    /// The list as it stands.
    pub fn from_vec(names: Vec<Name>) -> Names
        ensures { result ≡ names.items }
    {
        Names { names }
    }

    /// The names in order.
    pub fn as_slice(&self) -> &[Name]
        ensures { result.now ≡ self.now }
    {
        self.names.as_slice()
    }
}

/// The ends of recalculations, in the order in which they came.
#[derive(Debug, Drop)]
pub struct EventList {
    events: Vec<Event>,
}

impl Model for EventList {
    ghost use Rattle.std.specs.Prelude.{List};
    ghost use Rattle.cell_values.specs.declared.events.Event.{Event as OneEvent};

    ghost Value = { List OneEvent };

    ghost view = { λ e. e.events.items };
}

impl EventList {
    /// The list as it stands.
    pub fn from_vec(events: Vec<Event>) -> EventList
        ensures { result ≡ events.items }
    {
        EventList { events }
    }

    /// The events in order.
    pub fn as_slice(&self) -> &[Event]
        ensures { result.now ≡ self.now }
    {
        self.events.as_slice()
    }
}
