use workbook::{BeginKind, Command};

/// What a line says.
#[derive(Drop)]
pub enum Parsed {
    /// A line without bytes, which is no command.
    Empty,
    One(Command),
    /// `calc`: a begin of this kind, and then a settle.
    Calc(BeginKind),
}
