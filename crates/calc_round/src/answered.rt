use cell_values::{Name, Value};
use functions::Values;

/// What a job comes to where each topic has a value: a value, or the first asynchronous call whose value isn't there.
#[derive(Drop)]
pub enum Answered {
    Value(Value),
    Asks { site: u16, name: Name, args: Values },
}
