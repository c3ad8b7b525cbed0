//! Tests of the front, from thorns and names to plans that are checked, through public names.
#![tactic(auto)]

#[cfg(test)]
mod bind;
#[cfg(test)]
mod common;
#[cfg(test)]
mod least;
#[cfg(test)]
mod order;
#[cfg(test)]
mod region;
#[cfg(test)]
mod scope;
#[cfg(test)]
mod steers;
#[cfg(test)]
mod values;
