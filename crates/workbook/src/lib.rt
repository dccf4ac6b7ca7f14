//! The book, the commands on it and their replies, with the definitions of what a workbook means.
#![tactic(auto)]

mod books;
mod commands;
mod contents;
mod desks;
mod history;
mod history_laws;
mod laws;
mod lists;
mod registry;
mod replies;

pub use books::{Book, CELL_LIMIT, FORMULA_LIMIT, SetFault};
pub use commands::{BeginKind, Command, Form, Moment};
pub use contents::Content;
pub use desks::{Desk, DeskFault};
pub use history::Entry;
pub use history_laws::{
    a_flag_stays_up_until_it_is_pulled, a_handle_writes_at_most_once,
    an_answered_call_is_asked_no_more,
};
pub use laws::{
    answers_of_formulas, circular_cells, completed_meanings, kept_between_settings, kept_meanings,
    meanings_of_formulas, nothing_is_asked, reached_cells, settled_meanings, topics_of_formulas,
};
pub use lists::{Calls, EventList, Names};
pub use replies::{Reply, SheetCells};
