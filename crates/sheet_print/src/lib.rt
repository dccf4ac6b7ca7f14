//! The written replies of a host.
#![tactic(auto)]

mod calls;
mod lines;
mod records;
mod replies;
mod sheets;
#[cfg(test)]
mod tests;

pub use replies::{bad_text, reply_text};
