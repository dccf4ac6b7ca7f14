//! Tests of `calc_chain`, over its library as it was proved: a chain beside a plain vector.
#![tactic(auto)]

#[cfg(test)]
mod plain;
#[cfg(test)]
mod tests;
