//! All that a host keeps of real-time data: the known servers, the connected topics, and the throttle.
#![tactic(auto)]

mod leaving;
mod pulls;
mod servers;
mod sources;
#[cfg(test)]
mod tests;
mod topics;

pub use topics::{NewServer, PullNews, RtdTopics};
