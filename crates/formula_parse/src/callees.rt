ghost use Rattle.std.specs.Prelude.{◌≡◌, Some, None, is_some, IfOk, if◌then◌else◌};
ghost use Rattle.cell_values.specs.Name.{is_name};

use cell_values::{Name, NameFault};
use functions::Function;
use std::alloc::{AllocError, Global};

/// What a call in a formula calls.
#[derive(Debug, Drop)]
pub enum Callee {
    /// A function that is built in.
    BuiltIn(Function),
    /// The value of a topic.
    Rtd,
    /// The function that is registered by this name, where there is one.
    Added(Name),
}

impl Callee {
    ghost use Rattle.formula_parse.specs.Callees.{added_name, callee_named, callee_text, is_rtd};

    /// The callee of a name in upper case; None where the text is no name.
    #[tactic(auto, unfolding(crate::specs::Callees::callee_named))]
    pub(crate) fn named(alloc: Global, name: &str) -> Result<Option<Callee>, AllocError>
        ensures { IfOk result (λ callee. callee
            ≡ (if is_name name.now then Some (callee_named name.now) else None)) }
    {
        if let Some(function) = Function::of(name) {
            return Ok(Some(Callee::BuiltIn(function)));
        }
        if name == "RTD" {
            return Ok(Some(Callee::Rtd));
        }
        match Name::new(alloc, name) {
            Ok(name) => Ok(Some(Callee::Added(name))),
            Err(NameFault::Memory) => Err(AllocError),
            Err(NameFault::Form) => Ok(None),
        }
    }

    /// The name that is written for it.
    pub fn text(&self) -> &str
        ensures { result.now ≡ callee_text self.now }
    {
        match self {
            Callee::BuiltIn(function) => function.word(),
            Callee::Rtd => "RTD",
            Callee::Added(name) => name.as_str(),
        }
    }

    /// Whether it is RTD.
    pub(crate) fn is_rtd(&self) -> bool
        ensures { result ≡ is_rtd self.now }
    {
        matches!(self, Callee::Rtd)
    }

    /// Whether it is the function of an added name.
    pub(crate) fn is_added(&self) -> bool
        ensures { result ≡ is_some (added_name self.now) }
    {
        matches!(self, Callee::Added(_))
    }
}
