//! Tests of how work is shared out: tasks that take turns, disks that note whose turn it was, widths by the weight of planes,
//! and cuts by the weight of points.
#![tactic(auto)]

#[cfg(test)]
mod counter;
#[cfg(test)]
mod notes;
#[cfg(test)]
mod turns;
#[cfg(test)]
mod weights;
#[cfg(test)]
mod widths;
