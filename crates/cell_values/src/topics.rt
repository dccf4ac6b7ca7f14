ghost use Rattle.std.specs.Prelude.{◌≡◌, IfOk, nat_eq};
ghost use Rattle.std.specs.Cmp.{partial_equiv_from_equiv};
ghost use Rattle.std.specs.Cmp.Lexicographic.{pointwise, lists_equiv, nat_list_eq_equiv};

use super::memory::Memory;
use super::names::Name;
use super::texts::Text;
use std::marker::Model;
use std::sync::ArcSlice;

/// A list of texts. A copy costs the same whatever its length.
#[derive(Debug, Drop)]
pub struct Texts {
    shared: ArcSlice<Text>,
}

impl Model for Texts {
    ghost use Rattle.std.specs.Prelude.{List, ℕ};
    ghost use Rattle.std.specs.Arc.{arc_slice_items};

    ghost Value = { List (List ℕ) };

    ghost view = { λ t. arc_slice_items t.shared };
}

impl Texts {
    /// The list of these texts.
    pub fn new(texts: Vec<Text>) -> Result<Texts, Memory>
        ensures { IfOk result (λ list. list ≡ texts.items) }
    {
        let shared = ArcSlice::from_vec(texts)?;
        Ok(Texts { shared })
    }

    /// The texts.
    pub fn as_slice(&self) -> &[Text]
        ensures { result.now ≡ self.now }
    {
        self.shared.as_slice()
    }

    /// A second hold on the same list.
    pub fn copy(&self) -> Result<Texts, Memory>
        ensures { IfOk result (λ copy. copy ≡ self.now) }
    {
        let shared = self.shared.clone()?;
        Ok(Texts { shared })
    }
}

impl PartialEq for Texts {
    ghost eq = { pointwise (pointwise nat_eq) };

    ghost laws = { partial_equiv_from_equiv (lists_equiv nat_list_eq_equiv) };

    fn eq(&self, other: &Texts) -> bool {
        self.shared == other.shared
    }
}

impl Eq for Texts {
    ghost laws = { lists_equiv nat_list_eq_equiv };
}

/// What a server publishes a value for: the server's name and the strings of the topic.
#[derive(Debug, Drop, PartialEq, Eq)]
pub struct Topic {
    pub server: Name,
    pub strings: Texts,
}

impl Topic {
    /// An equal topic.
    pub fn copy(&self) -> Result<Topic, Memory>
        ensures { IfOk result (λ copy. copy ≡ self.now) }
    {
        let server = self.server.copy()?;
        let strings = self.strings.copy()?;
        Ok(Topic { server, strings })
    }
}
