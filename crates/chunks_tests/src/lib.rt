//! Tests of output in chunks.
#![tactic(auto)]

#[cfg(test)]
mod read;
#[cfg(test)]
mod samples;
#[cfg(test)]
mod whole;
