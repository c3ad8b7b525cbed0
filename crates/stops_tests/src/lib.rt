//! Tests of runs that are stopped, of devices that fail, and of starts on what others left: a former version, a run that
//! was stopped, one with another steer file.
#![tactic(auto)]

#[cfg(test)]
mod balance;
#[cfg(test)]
mod boxes;
#[cfg(test)]
mod chains;
#[cfg(test)]
mod devices;
#[cfg(test)]
mod failing;
#[cfg(test)]
mod former;
#[cfg(test)]
mod makes;
#[cfg(test)]
mod migrations;
#[cfg(test)]
mod steers;
#[cfg(test)]
mod stops;
#[cfg(test)]
mod wires;
