//! When a pull of real-time data is due.
#![tactic(auto)]

mod limits;
mod pacing;
#[cfg(test)]
mod tests;

pub use limits::{DEFAULT_INTERVAL, MAX_INTERVAL, MAX_MOMENT, MIN_INTERVAL};
pub use pacing::{Due, Throttle};
