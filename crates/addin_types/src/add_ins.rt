ghost use Rattle.std.specs.Prelude.{◌≡◌, ℕ, List, IfOk};
ghost use Rattle.cell_values.specs.declared.values.Value.{Value as OneValue};

use cell_values::{Memory, Name, Value};
use std::alloc::Global;

/// The functions that are added to a host. What they answer is the same for all values of a type.
pub trait AddIns {
    // The answer to a name and arguments.
    ghost answer: { List ℕ → List OneValue → OneValue };

    /// The answer of the function of this name. Names are upper case. No argument is a Blank: the caller made each
    /// Blank 0.
    fn call(&self, alloc: Global, name: &Name, args: &[Value]) -> Result<Value, Memory>
        ensures { IfOk result (λ value. value ≡ answer name.now args.now) };

    /// A second value of the type. It takes no memory.
    fn share(&self) -> Self;
}
