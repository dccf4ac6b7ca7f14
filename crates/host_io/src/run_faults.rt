/// Why a run stops before the end of its input.
#[derive(Clone, Copy, Debug, PartialEq, Eq)]
pub enum RunFault {
    /// The source failed.
    Read,
    /// The sink failed.
    Write,
    /// A byte came after 67,108,864 bytes were taken.
    Limit,
    /// Memory ran out.
    Memory,
    /// A command came after as many were answered as may be.
    Full,
}
