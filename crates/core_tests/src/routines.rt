//! The sample thorns' routines.

use crate::ends::DiffEnds;
use cx_rule::Routine;
use cx_thorn_ca::{CaCount, CaInit, CaStep, CaZero};
use cx_thorn_pde::{DiffFlat, DiffInit, DiffStep, DiffSum};
use std::alloc::Global;
use std::test::Fail;

/// Adds those of the automaton.
pub(crate) fn push_automaton(
    alloc: Global,
    routines: &mut Vec<Box<dyn Routine>>,
) -> Result<(), Fail> {
    routines.push(Box::new(alloc, CaInit::new(alloc)?)?)?;
    routines.push(Box::new(alloc, CaStep::new(alloc)?)?)?;
    routines.push(Box::new(alloc, CaZero::new(alloc)?)?)?;
    routines.push(Box::new(alloc, CaCount::new(alloc)?)?)?;
    Ok(())
}

/// Adds those of the heat, with other ends.
pub(crate) fn push_heat(alloc: Global, routines: &mut Vec<Box<dyn Routine>>) -> Result<(), Fail> {
    routines.push(Box::new(alloc, DiffInit::new(alloc)?)?)?;
    routines.push(Box::new(alloc, DiffEnds::new(alloc)?)?)?;
    routines.push(Box::new(alloc, DiffStep::new(alloc)?)?)?;
    routines.push(Box::new(alloc, DiffFlat::new(alloc)?)?)?;
    routines.push(Box::new(alloc, DiffSum::new(alloc)?)?)?;
    Ok(())
}
