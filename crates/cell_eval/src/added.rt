ghost use Rattle.std.specs.Prelude.{◌≡◌, map};
ghost use Rattle.cell_values.specs.Value.{final_of};
ghost use Rattle.workbook.specs.Evaluation.{kind_answer};
ghost use Rattle.workbook.specs.Registry.{registration_of};
ghost use Rattle.cell_eval.specs.Added.{kind_called};
ghost use Rattle.cell_eval.specs.Jobs.{world_of};
ghost use Rattle.cell_eval.specs.Steps.{ComesTo};

use super::halts::Halt;
use super::jobs::Job;
use super::lookups::{registration_of, result_at};
use addin_types::{AddIns, Kind, Registration};
use cell_values::{ErrorKind, Name, Value};
use functions::Values;
use std::alloc::Global;

/// The kind of the added function of this name where it takes so many arguments, or what is wrong with the call.
pub fn called_kind(
    functions: &[(Name, Registration)],
    name: &Name,
    count: usize,
) -> Result<Kind, ErrorKind>
    ensures { result ≡ kind_called (registration_of functions.now name.now) count }
{
    match registration_of(functions, name) {
        None => Err(ErrorKind::Name),
        Some(registration) => {
            if count == usize::from(registration.arguments) {
                Ok(registration.kind)
            } else {
                Err(ErrorKind::Value)
            }
        }
    }
}

/// The answer of an added function, or the call that is asked for.
pub fn added_answer<F: AddIns>(
    alloc: Global,
    job: &Job,
    addins: &F,
    kind: Kind,
    site: u16,
    name: &Name,
    values: Vec<Value>,
) -> Result<Value, Halt>
    ensures { ComesTo
        (kind_answer (world_of F.answer job.now) kind site name.now values.items) result }
{
    match kind {
        Kind::Plain => Ok(addins.call(alloc, name, values.as_slice())?),
        Kind::Asynchronous { .. } => match result_at(job.results.as_slice(), site)? {
            Some(value) => Ok(value),
            None => Err(Halt::Call {
                site,
                name: name.copy()?,
                args: Values::new(values),
            }),
        },
    }
}

/// Values, where each Blank is made 0.
pub fn all_finished(values: Vec<Value>) -> Vec<Value>
    ensures { result.items ≡ map final_of values.items }
{
    let mut values = values;
    for value in values.iter_mut() {
        if matches!(value, Value::Blank) {
            *value = Value::Num(0);
        }
    }
    values
}
