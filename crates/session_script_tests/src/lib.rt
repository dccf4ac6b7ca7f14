//! Tests of `session_script`, over its library as it was proved.
#![tactic(auto)]

#[cfg(test)]
mod hostile_tests;
#[cfg(test)]
mod tests;
#[cfg(test)]
mod written_tests;
