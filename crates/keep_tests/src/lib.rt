//! Tests of checkpoints, of slots on a disk that stops, and of the keeper.
#![tactic(auto)]

#[cfg(test)]
mod bytes;
#[cfg(test)]
mod checks;
#[cfg(test)]
mod disks;
#[cfg(test)]
mod newest;
#[cfg(test)]
mod rows;
#[cfg(test)]
mod saves;
#[cfg(test)]
mod slots;
#[cfg(test)]
mod starts;
#[cfg(test)]
mod stops;
