/// An error value.
#[derive(Clone, Copy, Debug, PartialEq, Eq)]
pub enum ErrorKind {
    Null,
    Div0,
    Value,
    Ref,
    Name,
    Num,
    Na,
}

impl ErrorKind {
    ghost use Rattle.std.specs.Prelude.{◌≡◌};
    ghost use Rattle.cell_values.specs.Error.{error_code, error_word};

    /// The number by which programs know the error value.
    pub fn code(self) -> u8
        ensures { result ≡ error_code self }
    {
        match self {
            ErrorKind::Null => 0,
            ErrorKind::Div0 => 7,
            ErrorKind::Value => 15,
            ErrorKind::Ref => 23,
            ErrorKind::Name => 29,
            ErrorKind::Num => 36,
            ErrorKind::Na => 42,
        }
    }

    /// The word that stands for the error value.
    pub fn word(self) -> &'static str
        ensures { result.now ≡ error_word self }
    {
        match self {
            ErrorKind::Null => "#NULL!",
            ErrorKind::Div0 => "#DIV/0!",
            ErrorKind::Value => "#VALUE!",
            ErrorKind::Ref => "#REF!",
            ErrorKind::Name => "#NAME?",
            ErrorKind::Num => "#NUM!",
            ErrorKind::Na => "#N/A",
        }
    }
}
