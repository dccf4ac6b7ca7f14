use cell_values::{Memory, Name, Topic};
use functions::Values;
use std::alloc::{AllocError, AllocFailed};

/// Why an evaluation went no further.
#[derive(Drop)]
pub enum Halt {
    Memory,
    Topic(Topic),
    Call { site: u16, name: Name, args: Values },
}

impl From<Memory> for Halt {
    ghost use Rattle.std.specs.Prelude.{◌≡◌};
    ghost use Rattle.cell_eval.specs.declared.halts.Halt.TheVariants as halts;

    ghost from_gives = { λ _ halt. halt ≡ halts.Memory };

    fn from(_: Memory) -> Self {
        Halt::Memory
    }
}

impl From<AllocError> for Halt {
    ghost use Rattle.std.specs.Prelude.{◌≡◌};
    ghost use Rattle.cell_eval.specs.declared.halts.Halt.TheVariants as halts;

    ghost from_gives = { λ _ halt. halt ≡ halts.Memory };

    fn from(_: AllocError) -> Self {
        Halt::Memory
    }
}

impl<T: Drop> From<AllocFailed<T>> for Halt {
    ghost use Rattle.std.specs.Prelude.{◌≡◌};
    ghost use Rattle.cell_eval.specs.declared.halts.Halt.TheVariants as halts;

    ghost from_gives = { λ _ halt. halt ≡ halts.Memory };

    fn from(_: AllocFailed<T>) -> Self {
        Halt::Memory
    }
}
