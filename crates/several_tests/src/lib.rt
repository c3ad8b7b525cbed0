//! Tests of files that take turns, with the program's routines and over devices in memory.
#![tactic(auto)]

#[cfg(test)]
mod batches;
#[cfg(test)]
mod calls;
#[cfg(test)]
mod devices;
#[cfg(test)]
mod failing;
#[cfg(test)]
mod files;
