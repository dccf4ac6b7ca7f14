ghost use Rattle.std.specs.Prelude.{◌≡◌, IfOk};
ghost use Rattle.cell_values.specs.Value.{final_of};

use super::errors::ErrorKind;
use super::memory::Memory;
use super::texts::Text;

/// The value of a cell or of a part of a formula. A number's magnitude is at most 999,999,999,999,999.
#[derive(Debug, Drop, PartialEq, Eq)]
pub enum Value {
    Num(i64),
    Text(Text),
    Bool(bool),
    Error(ErrorKind),
    Blank,
}

impl Value {
    /// An equal value.
    pub fn copy(&self) -> Result<Value, Memory>
        ensures { IfOk result (λ copy. copy ≡ self.now) }
    {
        match self {
            Value::Num(n) => Ok(Value::Num(*n)),
            Value::Text(text) => Ok(Value::Text(text.copy()?)),
            Value::Bool(b) => Ok(Value::Bool(*b)),
            Value::Error(kind) => Ok(Value::Error(*kind)),
            Value::Blank => Ok(Value::Blank),
        }
    }

    /// What a cell shows of a formula's value: a Blank becomes 0.
    pub fn or_zero(self) -> Value
        ensures { result ≡ final_of self }
    {
        match self {
            Value::Blank => Value::Num(0),
            other => other,
        }
    }
}

const _: () = prove!(size_of::<Value>() <= 24);
