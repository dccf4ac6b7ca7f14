//! Servers of real-time data: the trait of a server, and servers in memory.
#![tactic(auto)]

mod boards;
mod feeds;
mod links;
mod makers;
mod servers;
mod strings;
#[cfg(test)]
mod tests;

pub use cell_values::Memory;
pub use feeds::Feed;
pub use makers::{FeedMaker, Maker};
pub use servers::{Failed, RtdServer, ServerFault};
