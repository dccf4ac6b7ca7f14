ghost use Rattle.std.specs.Prelude.{◌≡◌, IfOk, nat_eq};
ghost use Rattle.std.specs.Cmp.{partial_equiv_from_equiv};
ghost use Rattle.std.specs.Cmp.Lexicographic.{pointwise, lists_equiv, nat_list_eq_equiv};
ghost use Rattle.rtd_server.specs.Strings.{same_strings_input, strings_input};

use cell_values::{Memory, Text};
use std::alloc::Global;
use std::hash::{Hash, Hasher};
use std::marker::Model;

/// The strings of a topic, as the key of a map.
#[derive(Drop)]
pub struct Strings {
    pub texts: Vec<Text>,
}

impl Model for Strings {
    ghost use Rattle.std.specs.Prelude.{List, ℕ};

    ghost Value = { List (List ℕ) };

    ghost view = { λ s. s.texts.items };
}

impl Strings {
    /// The strings of a slice.
    pub fn from_slice(alloc: Global, texts: &[Text]) -> Result<Strings, Memory>
        ensures { IfOk result (λ strings. strings ≡ texts.now) }
    {
        let mut copies = Vec::with_capacity(alloc, texts.len())?;
        for text in texts {
            copies.push(text.copy()?)?;
        }
        Ok(Strings { texts: copies })
    }

    /// An equal list of strings.
    pub fn copy(&self, alloc: Global) -> Result<Strings, Memory>
        ensures { IfOk result (λ copy. copy ≡ self.now) }
    {
        Strings::from_slice(alloc, &self.texts)
    }
}

impl PartialEq for Strings {
    ghost eq = { pointwise (pointwise nat_eq) };

    ghost laws = { partial_equiv_from_equiv (lists_equiv nat_list_eq_equiv) };

    fn eq(&self, other: &Strings) -> bool {
        self.texts == other.texts
    }
}

impl Eq for Strings {
    ghost laws = { lists_equiv nat_list_eq_equiv };
}

impl Hash for Strings {
    ghost hash_input = { strings_input };

    ghost respects_eq = { same_strings_input };

    fn hash<H: Hasher>(&self, state: &mut H) {
        for i in 0..self.texts.len() {
            self.texts[i].as_str().hash(state);
        }
    }
}
