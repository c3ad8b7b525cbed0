//! Tests of the commands on chunk files.
#![tactic(auto)]

#[cfg(test)]
mod commands;
#[cfg(test)]
mod samples;
#[cfg(test)]
mod stops;
