//! Tests of the files of a made run, and of the line that sums it up.
#![tactic(auto)]

#[cfg(test)]
mod made;
