use std::alloc::{AllocError, AllocFailed};

/// Why a text was not parsed.
#[derive(Clone, Copy, Debug, PartialEq, Eq)]
pub enum ParseFault {
    /// There was no memory.
    Memory,
    /// The text has over 8,192 characters.
    TooLong,
    /// More than 64 calls, or more than 128 calls and parentheses, are open at one place.
    TooDeep,
    /// The text is no formula. Its longest viable prefix, with which some formula begins, has this
    /// many bytes.
    Syntax(usize),
    /// An area has over 65,536 cells.
    BadRange,
    /// A number is over 999,999,999,999,999.
    NumberTooLarge,
}

impl From<AllocError> for ParseFault {
    ghost use Rattle.std.specs.Prelude.{◌≡◌};
    ghost use Rattle.formula_parse.specs.declared.faults.ParseFault.TheVariants.{Memory};

    ghost from_gives = { λ _ fault. fault ≡ Memory };

    fn from(_: AllocError) -> Self {
        ParseFault::Memory
    }
}

impl<T: Drop> From<AllocFailed<T>> for ParseFault {
    ghost use Rattle.std.specs.Prelude.{◌≡◌};
    ghost use Rattle.formula_parse.specs.declared.faults.ParseFault.TheVariants.{Memory};

    ghost from_gives = { λ _ fault. fault ≡ Memory };

    fn from(_: AllocFailed<T>) -> Self {
        ParseFault::Memory
    }
}
