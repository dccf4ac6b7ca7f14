use super::grid::Cell;

/// An asynchronous call that was left open: the session and the recalculation that asked, the cell, and the place of
/// the call in the cell's formula.
#[derive(Clone, Copy, Debug, PartialEq, Eq)]
pub struct Handle {
    pub session: u64,
    pub round: u64,
    pub cell: Cell,
    pub site: u16,
}
