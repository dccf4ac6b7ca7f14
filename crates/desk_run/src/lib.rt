//! A session over a desk: the lines of a script are read, acted on and answered.
#![tactic(auto)]

mod answering;
mod bad_lines;
mod running;
mod session;

pub use running::run_desk;

// A line that a reader gives out whole is one that a script may have.
const _: () = prove!(host_io::MAX_LINE == session_script::MAX_LINE);
