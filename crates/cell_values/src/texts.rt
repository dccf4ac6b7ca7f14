ghost use Rattle.std.specs.Prelude.{◌≡◌, ◌++◌, IfOk, IfErr, IsTrue, length, position, nat_eq};
ghost use Rattle.std.specs.Cmp.{partial_equiv_from_equiv};
ghost use Rattle.std.specs.Cmp.Lexicographic.{pointwise, nat_list_eq_equiv};
ghost use Rattle.std.specs.Char.{is_ascii_control};
ghost use Rattle.std.specs.Str.{chars};
ghost use Rattle.std.specs.String.{string_bytes};

use super::limits::LONGEST_TEXT;
use super::memory::Memory;
use std::alloc::{AllocError, Global};
use std::marker::Model;
use std::sync::ArcStr;

/// A text of at most 32,767 characters without control characters. A copy costs the same whatever its length.
#[derive(Debug, Drop)]
pub struct Text {
    shared: ArcStr<Global>,
}

impl Model for Text {
    ghost use Rattle.std.specs.Prelude.{List, ℕ, IsTrue};
    ghost use Rattle.std.specs.Arc.{arc_str_bytes};
    ghost use Rattle.cell_values.specs.Text.{is_text};

    ghost Value = { List ℕ };

    ghost view = { λ t. arc_str_bytes t.shared };

    ghost invariant = { λ t. IsTrue (is_text (arc_str_bytes t.shared)) };
}

/// Why some characters are no text.
#[derive(Clone, Copy, Debug, PartialEq, Eq)]
pub enum TextFault {
    Memory,
    /// There are more than 32,767 characters.
    TooLong,
    /// The byte place of the first control character.
    Control(usize),
}

impl Text {
    ghost use Rattle.cell_values.specs.Text.{is_text};
    ghost use Rattle.cell_values.specs.TextFault.{IsFaultOf};

    /// The text of these characters.
    pub fn new(alloc: Global, s: &str) -> Result<Text, TextFault>
        ensures text { IfOk result (λ text. text ≡ s.now) }
        ensures ok { IfOk result (λ _. IsTrue (is_text s.now)) }
        ensures fault { IfErr result (λ fault. IsFaultOf fault s.now) }
    {
        if count_characters(s) > LONGEST_TEXT {
            return Err(TextFault::TooLong);
        }
        if let Some(place) = first_control(s.as_bytes()) {
            return Err(TextFault::Control(place));
        }
        match ArcStr::from_str(alloc, s) {
            Ok(shared) => Ok(Text { shared }),
            Err(_) => Err(TextFault::Memory),
        }
    }

    /// The characters of the text.
    pub fn as_str(&self) -> &str
        ensures text { result.now ≡ self.now }
        ensures valid { IsTrue (is_text self.now) }
    {
        self.shared.as_str()
    }

    /// A second hold on the same text.
    pub fn copy(&self) -> Result<Text, Memory>
        ensures { IfOk result (λ copy. copy ≡ self.now) }
    {
        let shared = self.shared.clone()?;
        Ok(Text { shared })
    }
}

impl PartialEq for Text {
    ghost eq = { pointwise nat_eq };

    ghost laws = { partial_equiv_from_equiv nat_list_eq_equiv };

    fn eq(&self, other: &Text) -> bool {
        self.shared == other.shared
    }
}

impl Eq for Text {
    ghost laws = { nat_list_eq_equiv };
}

impl Text {
    ghost use Rattle.cell_values.specs.Text.{is_text, if_short};

    /// The text of characters that are known to be one.
    pub(crate) fn known(alloc: Global, s: &str) -> Result<Text, Memory>
        requires { IsTrue (is_text s.now) }
        ensures { IfOk result (λ text. text ≡ s.now) }
    {
        let shared = ArcStr::from_str(alloc, s)?;
        Ok(Text { shared })
    }

    /// The text followed by another; None where both together are too long.
    pub(crate) fn followed_by(&self, alloc: Global, other: &Text) -> Result<Option<Text>, Memory>
        ensures { IfOk result (λ both. both ≡ if_short (self.now ++ other.now)) }
    {
        let both = joined(alloc, self.as_str(), other.as_str())?;
        if count_characters(both.as_str()) > LONGEST_TEXT {
            return Ok(None);
        }
        let shared = ArcStr::from_string(both)?;
        Ok(Some(Text { shared }))
    }
}

/// One text after another.
fn joined(alloc: Global, s: &str, t: &str) -> Result<String, AllocError>
    ensures { IfOk result (λ both. string_bytes both ≡ s.now ++ t.now) }
{
    let mut both = String::from_str(alloc, s)?;
    both.push_str(t)?;
    Ok(both)
}

/// The number of characters.
fn count_characters(s: &str) -> usize
    ensures { result ≡ length (chars s.now) }
{
    s.chars().count()
}

/// The place of the first control character.
fn first_control(bytes: &[u8]) -> Option<usize>
    ensures { result ≡ position is_ascii_control bytes.now }
{
    bytes.iter().position(|b| b.is_ascii_control())
}
