//! Tests of the disk over folders, in memory and of the host.
#![tactic(auto)]

#[cfg(test)]
mod disks;
#[cfg(test)]
mod hosts;
#[cfg(test)]
mod memory;
#[cfg(test)]
mod telling;
