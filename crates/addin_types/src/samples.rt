ghost use Rattle.std.specs.Prelude.{◌≡◌, IfOk, IsErr, codes};
ghost use Rattle.addin_types.specs.Samples.{double_of, echo_of, sample_answer};

use super::add_ins::AddIns;
use cell_values::{ErrorKind, Memory, Name, Value, mul};
use std::alloc::Global;

/// Two functions of one argument: `DOUBLE` is the argument times 2, `ECHO` is the argument. With another count of
/// arguments each is `#VALUE!`. Every other name is `#NAME?`.
#[derive(Clone, Copy, Debug)]
pub struct SampleAddIns;

impl AddIns for SampleAddIns {
    ghost answer = { sample_answer };

    fn call(&self, _alloc: Global, name: &Name, args: &[Value]) -> Result<Value, Memory>
        ensures answer { IfOk result (λ value. value ≡ sample_answer name.now args.now) }
        ensures refused { IsErr result → name.now ≡ codes "ECHO" }
    {
        match name.as_str() {
            "DOUBLE" => Ok(double(args)),
            "ECHO" => echo(args),
            _ => Ok(Value::Error(ErrorKind::Name)),
        }
    }

    fn share(&self) -> SampleAddIns {
        *self
    }
}

/// DOUBLE.
fn double(args: &[Value]) -> Value
    ensures { result ≡ double_of args.now }
{
    match args {
        [value] => mul(value, &Value::Num(2)),
        _ => Value::Error(ErrorKind::Value),
    }
}

/// ECHO.
fn echo(args: &[Value]) -> Result<Value, Memory>
    ensures { IfOk result (λ value. value ≡ echo_of args.now) }
{
    match args {
        [value] => value.copy(),
        _ => Ok(Value::Error(ErrorKind::Value)),
    }
}
