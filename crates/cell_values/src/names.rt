ghost use Rattle.std.specs.Prelude.{◌≡◌, false, Err, IfOk, IsTrue, nat_eq, Some, refl};
ghost use Rattle.std.specs.Ordering.{nat_cmp};
ghost use Rattle.std.specs.Cmp.{partial_equiv_from_equiv};
ghost use Rattle.std.specs.Cmp.Lexicographic.{pointwise, slice_cmp, nat_list_eq_equiv, nat_list_cmp_total, texts_ties, texts_po};
ghost use Rattle.std.specs.List.{list_all};
ghost use Rattle.cell_values.specs.Name.{is_name, is_name_byte};

use super::limits::LONGEST_NAME;
use super::memory::Memory;
use std::alloc::Global;
use std::cmp::Ordering;
use std::marker::Model;
use std::sync::ArcStr;

/// A name of a server, a function or a listener: 1 to 255 bytes, a letter, then letters, digits, `.` and
/// `_`. A copy costs the same whatever its length.
#[derive(Debug, Drop)]
pub struct Name {
    shared: ArcStr<Global>,
}

impl Model for Name {
    ghost use Rattle.std.specs.Prelude.{List, ℕ, IsTrue};
    ghost use Rattle.std.specs.Arc.{arc_str_bytes};
    ghost use Rattle.cell_values.specs.Name.{is_name};

    ghost Value = { List ℕ };

    ghost view = { λ n. arc_str_bytes n.shared };

    ghost invariant = { λ n. IsTrue (is_name (arc_str_bytes n.shared)) };
}

/// Why some characters are no name.
#[derive(Clone, Copy, Debug, PartialEq, Eq)]
pub enum NameFault {
    Memory,
    /// They break the form of a name.
    Form,
}

impl Name {
    ghost use Rattle.cell_values.specs.Name.{is_name};

    /// The name of these characters.
    pub fn new(alloc: Global, s: &str) -> Result<Name, NameFault>
        ensures name { IfOk result (λ name. name ≡ s.now) }
        ensures ok { IfOk result (λ _. IsTrue (is_name s.now)) }
        ensures form { result ≡ Err NameFault.Form → is_name s.now ≡ false }
    {
        if !has_form(s.as_bytes()) {
            return Err(NameFault::Form);
        }
        match ArcStr::from_str(alloc, s) {
            Ok(shared) => Ok(Name { shared }),
            Err(_) => Err(NameFault::Memory),
        }
    }

    /// The characters of the name.
    pub fn as_str(&self) -> &str
        ensures name { result.now ≡ self.now }
        ensures valid { IsTrue (is_name self.now) }
    {
        self.shared.as_str()
    }

    /// A second hold on the same name.
    pub fn copy(&self) -> Result<Name, Memory>
        ensures { IfOk result (λ copy. copy ≡ self.now) }
    {
        let shared = self.shared.clone()?;
        Ok(Name { shared })
    }
}

impl PartialEq for Name {
    ghost eq = { pointwise nat_eq };

    ghost laws = { partial_equiv_from_equiv nat_list_eq_equiv };

    fn eq(&self, other: &Name) -> bool {
        self.shared == other.shared
    }
}

impl Eq for Name {
    ghost laws = { nat_list_eq_equiv };
}

impl PartialOrd for Name {
    ghost partial_cmp = { λ x y. Some (slice_cmp nat_cmp x y) };

    ghost laws = { texts_po };

    fn partial_cmp(&self, other: &Name) -> Option<Ordering> {
        Some(self.cmp(other))
    }
}

/// Names are ordered by their bytes.
impl Ord for Name {
    ghost cmp = { slice_cmp nat_cmp };

    ghost total = { nat_list_cmp_total };

    ghost matches_partial_cmp = { λ x y. refl };

    ghost matches_eq = { texts_ties };

    fn cmp(&self, other: &Name) -> Ordering {
        self.shared.cmp(&other.shared)
    }
}

/// Whether bytes have the form of a name.
fn has_form(bytes: &[u8]) -> bool
    ensures { result ≡ is_name bytes.now }
{
    match bytes {
        [] => false,
        [first, rest @ ..] => first.is_ascii_alphabetic()
            && are_inner(rest)
            && bytes.len() <= LONGEST_NAME,
    }
}

/// Whether each byte may stand in a name behind its first letter.
fn are_inner(bytes: &[u8]) -> bool
    ensures { result ≡ list_all is_name_byte bytes.now }
{
    bytes.iter().all(|byte| byte.is_ascii_alphanumeric() || *byte == b'.' || *byte == b'_')
}
