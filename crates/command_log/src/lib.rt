//! The commands that a host answered, and the values that it accepted for asynchronous calls.
#![tactic(auto)]

mod heads;
mod logs;
#[cfg(test)]
mod tests;

pub use cell_refs::{Cell, Handle};
pub use cell_values::{Memory, Value};
pub use logs::CommandLog;
pub use workbook::{Command, Entry};
