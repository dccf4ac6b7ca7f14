use addin_types::TypeFault;
use formula_parse::ParseFault;

/// Why a line was not read. But for want of memory, the first of these that holds is answered.
#[derive(Clone, Copy, Debug, PartialEq, Eq)]
pub enum BadLine {
    Memory,
    /// It has over 160,000 bytes.
    Long,
    NotUtf8,
    /// A control character stands in it.
    Control,
    /// It begins with no word that a line begins with.
    Word,
    /// Where a cell is to stand stands no reference.
    Ref,
    /// Where a name is to stand stands none.
    Name,
    Formula(ParseFault),
    Type(TypeFault),
    /// Where a value, a number, strings or a listed word is to stand stands none, or something stands
    /// behind the last argument.
    Value,
    /// Where a handle is to stand stands none.
    Handle,
}
