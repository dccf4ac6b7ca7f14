ghost use Rattle.std.specs.Prelude.{◌≡◌};

/// What was seen of booleans: whether there was one, whether all were true, and whether any was.
#[derive(Clone, Copy)]
pub struct Truths {
    pub some: bool,
    pub all: bool,
    pub any: bool,
}

impl Truths {
    ghost use Rattle.std.specs.Prelude.{◌≡◌};
    ghost use Rattle.functions.specs.Truths.{with_truth, NO_TRUTHS};

    /// Nothing seen.
    pub fn none() -> Truths
        ensures { result ≡ NO_TRUTHS }
    {
        Truths {
            some: false,
            all: true,
            any: false,
        }
    }

    /// With one boolean more.
    pub fn with(self, b: bool) -> Truths
        ensures { result ≡ with_truth self b }
    {
        Truths {
            some: true,
            all: self.all && b,
            any: self.any || b,
        }
    }
}
