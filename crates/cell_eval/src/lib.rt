//! Evaluates one formula, as far as it comes with what is known.
#![tactic(auto)]

mod added;
mod area_values;
mod choices;
mod evaluation;
mod halts;
mod jobs;
mod laws;
mod lookups;
mod operations;
mod orders;
mod outcomes;
mod resuming;
mod sites;
mod topics;

pub use cell_values::Topic;
pub use jobs::{Inputs, Job, Outcome, Registrations, Results, Topics};
pub use laws::sufficient_topics;
pub use orders::is_in_order;
pub use outcomes::eval;
pub use resuming::eval_closed;
