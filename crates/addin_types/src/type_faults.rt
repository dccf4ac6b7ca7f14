/// Why a text is no type text. The first of these that holds is answered.
#[derive(Clone, Copy, Debug, PartialEq, Eq)]
pub enum TypeFault {
    Empty,
    /// A `#` stands in it: the function may do what only a macro sheet may.
    MacroSheet,
    /// At this place stands the first byte that may not stand there.
    Letter(usize),
    TwoHandles,
    /// It begins with `>` and has no `X`.
    VoidWithoutHandle,
    /// It has an `X` and doesn't begin with `>`.
    HandleWithoutVoid,
    /// It has more than 255 arguments.
    TooMany,
}
