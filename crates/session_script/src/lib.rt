//! What the lines of a script say, and the lines of commands.
#![tactic(auto)]

mod arguments;
mod bad_words;
mod calls;
mod cells;
mod contents;
mod faults;
mod forms;
mod laws;
mod limits;
mod parsed;
mod pushing;
mod rounds;
mod script;
mod servers;
mod strings;
mod verbs;
mod writing;

pub use bad_words::bad_word;
pub use faults::BadLine;
pub use forms::a_command_in_form_has_a_line;
pub use laws::{a_written_line_reads_back, what_is_read_has_a_line};
pub use limits::MAX_LINE;
pub use parsed::Parsed;
pub use script::read_line;
pub use writing::write_line;
