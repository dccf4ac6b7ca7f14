//! What gives a recalculation the values of its topics, and notes which cell reads which.
#![tactic(auto)]

mod no_topics;
mod sources;
#[cfg(test)]
mod tests;

pub use cell_values::{Memory, Topic};
pub use no_topics::NoTopics;
pub use sources::TopicSource;
