/// What a look at a cell did.
#[derive(Clone, Copy)]
pub enum Looked {
    /// It has its value.
    Finished,
    /// It asks for a call, which is open now.
    Asked,
    /// It names an unfinished cell.
    Waits,
}
