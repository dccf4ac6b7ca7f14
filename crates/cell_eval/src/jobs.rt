ghost use Rattle.std.specs.Prelude.{◌≡◌, [], ◌∷◌, ◌++◌, MatchResult};
ghost use Rattle.std.specs.List.Sorted.{IsStrictlySortedBy};
ghost use Rattle.std.specs.Map.{keys_of};
ghost use Rattle.cell_refs.specs.Cell.{cell_cmp};

use addin_types::Registration;
use cell_refs::Cell;
use cell_values::{Memory, Name, Topic, Value};
use formula_parse::Tree;
use functions::Values;
use std::marker::Model;

/// The values of the cells that have content among those that a formula names, each once and in the order of cells.
#[derive(Debug, Drop)]
pub struct Inputs {
    entries: Vec<(Cell, Value)>,
}

impl Model for Inputs {
    ghost use Rattle.std.specs.Prelude.{List};
    ghost use Rattle.std.specs.List.Sorted.{IsStrictlySortedBy};
    ghost use Rattle.std.specs.Map.{keys_of};
    ghost use Rattle.cell_refs.specs.declared.grid.Cell.{Cell as OneCell};
    ghost use Rattle.cell_refs.specs.Cell.{cell_cmp};
    ghost use Rattle.cell_values.specs.declared.values.Value.{Value as OneValue};

    ghost Value = { List (OneCell × OneValue) };

    ghost view = { λ i. i.entries.items };

    ghost invariant = { λ i. IsStrictlySortedBy cell_cmp (keys_of i.entries.items) };
}

impl Inputs {
    /// The inputs of these entries.
    pub fn new(entries: Vec<(Cell, Value)>) -> Inputs
        requires { IsStrictlySortedBy cell_cmp (keys_of entries.items) }
        ensures { result ≡ entries.items }
    {
        Inputs { entries }
    }

    /// The entries.
    pub fn as_slice(&self) -> &[(Cell, Value)]
        ensures entries { result.now ≡ self.now }
        ensures ordered { IsStrictlySortedBy cell_cmp (keys_of self.now) }
    {
        self.entries.as_slice()
    }

    /// The entries given back.
    pub fn into_vec(self) -> Vec<(Cell, Value)>
        ensures { result.items ≡ self }
    {
        self.entries
    }
}

/// Topics with their known values.
#[derive(Debug, Drop)]
pub struct Topics {
    entries: Vec<(Topic, Value)>,
}

impl Model for Topics {
    ghost use Rattle.std.specs.Prelude.{List};
    ghost use Rattle.cell_values.specs.declared.topics.Topic.{Topic as OneTopic};
    ghost use Rattle.cell_values.specs.declared.values.Value.{Value as OneValue};

    ghost Value = { List (OneTopic × OneValue) };

    ghost view = { λ t. t.entries.items };
}

impl Topics {
    /// The topics of these entries.
    pub fn new(entries: Vec<(Topic, Value)>) -> Topics
        ensures { result ≡ entries.items }
    {
        Topics { entries }
    }

    /// Adds a topic behind the others.
    pub fn push(&mut self, topic: Topic, value: Value) -> Result<(), Memory>
        ensures { MatchResult result (λ done. self.new ≡ self.old
            ++ (topic, value) ∷ []) (λ memory. self.new ≡ self.old) }
    {
        match self.entries.push((topic, value)) {
            Ok(()) => Ok(()),
            Err(_) => Err(Memory),
        }
    }

    /// The entries.
    pub fn as_slice(&self) -> &[(Topic, Value)]
        ensures { result.now ≡ self.now }
    {
        self.entries.as_slice()
    }

    /// The entries given back.
    pub fn into_vec(self) -> Vec<(Topic, Value)>
        ensures { result.items ≡ self }
    {
        self.entries
    }
}

/// The accepted values of asynchronous calls, each with the place of its call in the formula.
#[derive(Debug, Drop)]
pub struct Results {
    entries: Vec<(u16, Value)>,
}

impl Model for Results {
    ghost use Rattle.std.specs.Prelude.{List, ℕ};
    ghost use Rattle.cell_values.specs.declared.values.Value.{Value as OneValue};

    ghost Value = { List (ℕ × OneValue) };

    ghost view = { λ r. r.entries.items };
}

impl Results {
    /// The results of these entries.
    pub fn new(entries: Vec<(u16, Value)>) -> Results
        ensures { result ≡ entries.items }
    {
        Results { entries }
    }

    /// The entries.
    pub fn as_slice(&self) -> &[(u16, Value)]
        ensures { result.now ≡ self.now }
    {
        self.entries.as_slice()
    }

    /// The entries given back.
    pub fn into_vec(self) -> Vec<(u16, Value)>
        ensures { result.items ≡ self }
    {
        self.entries
    }
}

/// The registered ones among the names that a formula calls, with what they were registered with.
#[derive(Debug, Drop)]
pub struct Registrations {
    entries: Vec<(Name, Registration)>,
}

impl Model for Registrations {
    ghost use Rattle.std.specs.Prelude.{List, ℕ};
    ghost use Rattle.addin_types.specs.declared.registrations.Registration.{Registration as OneRegistration};

    ghost Value = { List (List ℕ × OneRegistration) };

    ghost view = { λ r. r.entries.items };
}

impl Registrations {
    /// The registrations of these entries.
    pub fn new(entries: Vec<(Name, Registration)>) -> Registrations
        ensures { result ≡ entries.items }
    {
        Registrations { entries }
    }

    /// The entries.
    pub fn as_slice(&self) -> &[(Name, Registration)]
        ensures { result.now ≡ self.now }
    {
        self.entries.as_slice()
    }

    /// The entries given back.
    pub fn into_vec(self) -> Vec<(Name, Registration)>
        ensures { result.items ≡ self }
    {
        self.entries
    }
}

/// One formula, and what is known for its evaluation. `round` is the number of the recalculation that runs.
#[derive(Debug, Drop)]
pub struct Job {
    pub round: u64,
    pub cell: Cell,
    pub tree: Tree,
    pub inputs: Inputs,
    pub topics: Topics,
    pub results: Results,
    pub functions: Registrations,
}

/// How far an evaluation came: to a value, to the first topic that isn't known, or to the first asynchronous call
/// whose value isn't there.
#[derive(Debug, Drop)]
pub enum Outcome {
    Done(Value),
    Topic(Topic),
    Call { site: u16, name: Name, args: Values },
}
