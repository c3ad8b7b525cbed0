//! Tests of the faults' messages, which are the words that the program prints of them.
#![tactic(auto)]

#[cfg(test)]
mod common;
#[cfg(test)]
mod files;
#[cfg(test)]
mod jobs;
#[cfg(test)]
mod regions;
#[cfg(test)]
mod runs;
#[cfg(test)]
mod schedules;
#[cfg(test)]
mod thorns;
