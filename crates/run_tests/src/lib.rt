//! Tests of the top call with the sample thorns, also in parts, of their schedules as lists of operations, and of the
//! folder as a shelf.
#![tactic(auto)]

#[cfg(test)]
mod calls;
#[cfg(test)]
mod chunks;
#[cfg(test)]
mod cuts;
#[cfg(test)]
mod faults;
#[cfg(test)]
mod flats;
#[cfg(test)]
mod jobs;
#[cfg(test)]
mod parts;
#[cfg(test)]
mod physics;
#[cfg(test)]
mod schedules;
#[cfg(test)]
mod steers;
#[cfg(test)]
mod weights;
