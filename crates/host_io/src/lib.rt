//! Where bytes come from and go to, and the lines that are cut from them.
#![tactic(auto)]

mod call_plans;
mod counts;
mod failures;
mod limits;
mod line_buffer;
mod memory_sinks;
mod memory_sources;
mod putting;
mod reader;
mod run_faults;
mod sinks;
mod sources;
mod std_sinks;
mod std_sources;
#[cfg(test)]
mod tests;

pub use failures::Failed;
pub use limits::{MAX_INPUT, MAX_LINE};
pub use memory_sinks::MemorySink;
pub use memory_sources::MemorySource;
pub use putting::put;
pub use reader::{Line, LineFault, Lines};
pub use run_faults::RunFault;
pub use sinks::Sink;
pub use sources::Source;
pub use std_sinks::StdSink;
pub use std_sources::StdSource;
