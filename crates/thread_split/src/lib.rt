//! On which thread a formula is to be evaluated.
#![tactic(auto)]

mod sides;
mod splitting;
#[cfg(test)]
mod tests;

pub use sides::Side;
pub use splitting::side;
