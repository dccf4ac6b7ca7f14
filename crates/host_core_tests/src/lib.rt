//! Tests of `host_core`, over its library as it was proved.
#![tactic(auto)]

#[cfg(test)]
mod random_oracle;
#[cfg(test)]
mod random_rows;
#[cfg(test)]
mod random_steps;
#[cfg(test)]
mod random_tests;
#[cfg(test)]
mod random_topics;
#[cfg(test)]
mod samples;
#[cfg(test)]
mod tests;
