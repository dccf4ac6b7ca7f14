/// A source or a sink failed.
#[derive(Clone, Copy, Debug, PartialEq, Eq)]
pub struct Failed;
