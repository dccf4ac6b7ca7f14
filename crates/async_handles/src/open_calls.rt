ghost use Rattle.std.specs.Prelude.{◌≡◌, true};

use addin_types::Call;

/// An open call, and whether it was served.
#[derive(Debug, Drop)]
pub struct OpenCall {
    pub call: Call,
    pub is_served: bool,
}

impl OpenCall {
    /// The same call, which was served.
    pub fn served(self) -> OpenCall
        ensures { result ≡ record self { is_served = true } }
    {
        OpenCall {
            call: self.call,
            is_served: true,
        }
    }
}
