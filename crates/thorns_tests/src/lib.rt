//! Tests of grids and cuts, of plans, of routines, of the thorns and of the output's text, through what their crates hand out.
#![tactic(auto)]

#[cfg(test)]
mod ascii;
#[cfg(test)]
mod ca;
#[cfg(test)]
mod cut_faults;
#[cfg(test)]
mod fields;
#[cfg(test)]
mod grid;
#[cfg(test)]
mod parts;
#[cfg(test)]
mod pde;
#[cfg(test)]
mod plan;
#[cfg(test)]
mod points;
#[cfg(test)]
mod rule;
#[cfg(test)]
mod stages;
#[cfg(test)]
mod sweeps;
#[cfg(test)]
mod trials;
#[cfg(test)]
mod widths;
