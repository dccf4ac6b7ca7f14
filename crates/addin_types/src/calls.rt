ghost use Rattle.std.specs.Prelude.{◌≡◌, IfOk};

use cell_refs::Handle;
use cell_values::{Memory, Name, Value};
use functions::Values;
use std::alloc::Global;

/// An asynchronous call that was asked for: its handle, the function's name, and the arguments.
#[derive(Debug, Drop)]
pub struct Call {
    pub handle: Handle,
    pub name: Name,
    pub args: Values,
}

impl Call {
    /// An equal call.
    pub fn copy(&self, alloc: Global) -> Result<Call, Memory>
        ensures { IfOk result (λ copy. copy ≡ self.now) }
    {
        let name = self.name.copy()?;
        let args = copy_values(alloc, self.args.as_slice())?;
        Ok(Call {
            handle: self.handle,
            name,
            args,
        })
    }
}

/// Equal values in the same order.
fn copy_values(alloc: Global, values: &[Value]) -> Result<Values, Memory>
    ensures { IfOk result (λ copies. copies ≡ values.now) }
{
    let mut copies = Vec::new(alloc);
    for value in values {
        let copy = value.copy()?;
        copies.push(copy)?;
    }
    Ok(Values::new(copies))
}
