//! Tests of `formula_parse`, over its library as it was proved.
#![tactic(auto)]

#[cfg(test)]
mod tests;
