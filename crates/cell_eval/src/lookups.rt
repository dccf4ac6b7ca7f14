ghost use Rattle.std.specs.Prelude.{◌≡◌, IfOk};
ghost use Rattle.workbook.specs.Registry.{registration_of};
ghost use Rattle.cell_eval.specs.Jobs.{topic_value, result_at};

use addin_types::Registration;
use cell_values::{Memory, Name, Topic, Value};

/// The value of a topic, where it is among the topics.
pub fn topic_value(topics: &[(Topic, Value)], topic: &Topic) -> Result<Option<Value>, Memory>
    ensures { IfOk result (λ value. value ≡ topic_value topics.now topic.now) }
{
    for (known, value) in topics {
        if topic == known {
            return Ok(Some(value.copy()?));
        }
    }
    Ok(None)
}

/// The accepted value of a site, if there is one.
pub fn result_at(results: &[(u16, Value)], site: u16) -> Result<Option<Value>, Memory>
    ensures { IfOk result (λ value. value ≡ result_at results.now site) }
{
    for (place, value) in results {
        if site == *place {
            return Ok(Some(value.copy()?));
        }
    }
    Ok(None)
}

/// What a name was registered with, if it was.
pub fn registration_of(functions: &[(Name, Registration)], name: &Name) -> Option<Registration>
    ensures { result ≡ registration_of functions.now name.now }
{
    for (registered, registration) in functions {
        if name == registered {
            return Some(*registration);
        }
    }
    None
}
