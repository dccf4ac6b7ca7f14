use async_handles::Handles;
use cell_refs::Cell;

/// What is left to do in a recalculation: the cells that are to be looked at, and the open calls.
#[derive(Drop)]
pub struct OpenWork {
    pub waiting: Vec<Cell>,
    pub calls: Handles,
}
