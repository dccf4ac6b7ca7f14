//! Tests of `cell_eval`, over its library as it was proved.
#![tactic(auto)]

#[cfg(test)]
mod tests;
