//! Tests of messages and ghost zones, and of runs in parts: their output, in whatever order their events come.
#![tactic(auto)]

#[cfg(test)]
mod ahead;
#[cfg(test)]
mod caps;
#[cfg(test)]
mod ends;
#[cfg(test)]
mod exchange;
#[cfg(test)]
mod grids;
#[cfg(test)]
mod in_memory;
#[cfg(test)]
mod jobs;
#[cfg(test)]
mod mails;
#[cfg(test)]
mod orders;
#[cfg(test)]
mod rounds;
#[cfg(test)]
mod routines;
#[cfg(test)]
mod rows;
#[cfg(test)]
mod runs;
#[cfg(test)]
mod samples;
#[cfg(test)]
mod turns;
#[cfg(test)]
mod wires;
