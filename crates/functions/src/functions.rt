ghost use Rattle.std.specs.Prelude.{◌≡◌};
ghost use Rattle.std.specs.Option.{option_map};
ghost use Rattle.functions.specs.Functions.{function_named, arity_of};

use super::limits::MOST_ARGUMENTS;

/// The functions of formulas.
#[derive(Clone, Copy, Debug, PartialEq, Eq)]
pub enum Function {
    True,
    False,
    If,
    IfError,
    IfNa,
    And,
    Or,
    Not,
    IsNumber,
    IsText,
    IsLogical,
    IsError,
    IsNa,
    IsBlank,
    Na,
    Sum,
    Product,
    Min,
    Max,
    Count,
    CountA,
    Abs,
    Sign,
    Mod,
    Quotient,
    Power,
    Choose,
    Index,
    Len,
    Left,
    Right,
    Mid,
    Upper,
    Lower,
    Concatenate,
    Exact,
    Find,
    Rept,
    Trim,
    Value,
}

/// Each function once.
static ALL: [Function; 40] = [
    Function::True,
    Function::False,
    Function::If,
    Function::IfError,
    Function::IfNa,
    Function::And,
    Function::Or,
    Function::Not,
    Function::IsNumber,
    Function::IsText,
    Function::IsLogical,
    Function::IsError,
    Function::IsNa,
    Function::IsBlank,
    Function::Na,
    Function::Sum,
    Function::Product,
    Function::Min,
    Function::Max,
    Function::Count,
    Function::CountA,
    Function::Abs,
    Function::Sign,
    Function::Mod,
    Function::Quotient,
    Function::Power,
    Function::Choose,
    Function::Index,
    Function::Len,
    Function::Left,
    Function::Right,
    Function::Mid,
    Function::Upper,
    Function::Lower,
    Function::Concatenate,
    Function::Exact,
    Function::Find,
    Function::Rept,
    Function::Trim,
    Function::Value,
];

impl Function {
    ghost use Rattle.std.specs.Prelude.{◌≡◌};
    ghost use Rattle.functions.specs.Functions.{word_of, function_named, arity_of, takes_area, takes_count};

    /// The function of this name.
    pub fn of(name: &str) -> Option<Function>
        ensures { result ≡ function_named name.now }
    {
        ALL.iter().copied().find(|function| name == function.word())
    }

    /// The function's name.
    pub fn word(self) -> &'static str
        ensures { result.now ≡ word_of self }
    {
        match self {
            Function::True => "TRUE",
            Function::False => "FALSE",
            Function::If => "IF",
            Function::IfError => "IFERROR",
            Function::IfNa => "IFNA",
            Function::And => "AND",
            Function::Or => "OR",
            Function::Not => "NOT",
            Function::IsNumber => "ISNUMBER",
            Function::IsText => "ISTEXT",
            Function::IsLogical => "ISLOGICAL",
            Function::IsError => "ISERROR",
            Function::IsNa => "ISNA",
            Function::IsBlank => "ISBLANK",
            Function::Na => "NA",
            Function::Sum => "SUM",
            Function::Product => "PRODUCT",
            Function::Min => "MIN",
            Function::Max => "MAX",
            Function::Count => "COUNT",
            Function::CountA => "COUNTA",
            Function::Abs => "ABS",
            Function::Sign => "SIGN",
            Function::Mod => "MOD",
            Function::Quotient => "QUOTIENT",
            Function::Power => "POWER",
            Function::Choose => "CHOOSE",
            Function::Index => "INDEX",
            Function::Len => "LEN",
            Function::Left => "LEFT",
            Function::Right => "RIGHT",
            Function::Mid => "MID",
            Function::Upper => "UPPER",
            Function::Lower => "LOWER",
            Function::Concatenate => "CONCATENATE",
            Function::Exact => "EXACT",
            Function::Find => "FIND",
            Function::Rept => "REPT",
            Function::Trim => "TRIM",
            Function::Value => "VALUE",
        }
    }

    /// The least and the greatest number of arguments.
    pub fn arity(self) -> (u16, u16)
        ensures { result ≡ arity_of self }
    {
        match self {
            Function::True | Function::False | Function::Na => (0, 0),
            Function::If | Function::Find => (2, 3),
            Function::IfError
            | Function::IfNa
            | Function::Mod
            | Function::Quotient
            | Function::Power
            | Function::Exact
            | Function::Rept => (2, 2),
            Function::And
            | Function::Or
            | Function::Sum
            | Function::Product
            | Function::Min
            | Function::Max
            | Function::Count
            | Function::CountA
            | Function::Concatenate => (1, MOST_ARGUMENTS),
            Function::Not
            | Function::IsNumber
            | Function::IsText
            | Function::IsLogical
            | Function::IsError
            | Function::IsNa
            | Function::IsBlank
            | Function::Abs
            | Function::Sign
            | Function::Len
            | Function::Upper
            | Function::Lower
            | Function::Trim
            | Function::Value => (1, 1),
            Function::Choose => (2, MOST_ARGUMENTS),
            Function::Index | Function::Mid => (3, 3),
            Function::Left | Function::Right => (1, 2),
        }
    }

    /// Whether the function takes so many arguments.
    pub fn takes_count(self, count: usize) -> bool
        ensures { result ≡ takes_count self count }
    {
        let (least, most) = self.arity();
        usize::from(least) <= count && count <= usize::from(most)
    }

    /// Whether the function takes the values of the area that its argument at this place refers to, counted from 0.
    pub fn takes_area(self, place: usize) -> bool
        ensures { result ≡ takes_area self place }
    {
        match self {
            Function::Sum
            | Function::Product
            | Function::Min
            | Function::Max
            | Function::Count
            | Function::CountA
            | Function::And
            | Function::Or => true,
            Function::Index => place == 0,
            _ => false,
        }
    }
}

/// The least and the greatest number of arguments of the function of this name.
pub fn arity(name: &str) -> Option<(u16, u16)>
    ensures { result ≡ option_map arity_of (function_named name.now) }
{
    match Function::of(name) {
        Some(function) => Some(function.arity()),
        None => None,
    }
}
