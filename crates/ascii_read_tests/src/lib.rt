//! Tests of output that is read back.
#![tactic(auto)]

#[cfg(test)]
mod examples;
#[cfg(test)]
mod printed;
#[cfg(test)]
mod splits;
