//! The grammar of formulas: texts and their trees, both ways.
#![tactic(auto)]

mod callees;
mod faults;
mod growing;
mod laws;
mod lexing;
mod limits;
mod naming;
mod nodes;
mod operators;
mod parser;
mod printer;
mod reader;
mod stack;
mod tokens;
mod trees;

pub use callees::Callee;
pub use faults::ParseFault;
pub use laws::{
    a_text_has_one_tree, each_fault_has_its_cause, reading_gives_what_is_written,
    trees_are_within_limits, what_is_printed_reads_back,
};
pub use limits::{LARGEST_AREA, LONGEST_FORMULA, MOST_CALLS, MOST_OPEN};
pub use naming::{CallTest, any_call, called_names, has_rtd_call, names, sites};
pub use nodes::Node;
pub use operators::Operator;
pub use parser::parse;
pub use printer::print;
pub use tokens::Token;
pub use trees::Tree;
