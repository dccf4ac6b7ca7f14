/// The end of a recalculation, with its number.
#[derive(Clone, Copy, Debug, PartialEq, Eq)]
pub enum Event {
    /// It was completed.
    Ended(u64),
    /// It ended with nothing shown.
    Cancelled(u64),
}
