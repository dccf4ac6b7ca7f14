/// What an add-in function was registered with: its count of arguments, whether it may run on any thread, and how its
/// result comes. After Microsoft's documentation of Excel: the type text of `xlfRegister`, and asynchronous
/// user-defined functions.
#[derive(Clone, Copy, Debug, PartialEq, Eq)]
pub struct Registration {
    pub kind: Kind,
    pub arguments: u16,
    /// Whether it may run on any thread.
    pub thread_safe: bool,
}

/// How the result of an add-in function comes.
#[derive(Clone, Copy, Debug, PartialEq, Eq)]
pub enum Kind {
    /// It is what the function returns.
    Plain,
    /// It comes later: the function is handed the handle of its call at a place among its arguments, and returns at
    /// once. `handle_place` is the number of arguments before the handle.
    Asynchronous { handle_place: u16 },
}
