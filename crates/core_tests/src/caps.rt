//! A routine that sweeps small parts alone.

ghost use Rattle.cx_rule.specs.Single.{zero_rule};
ghost use Rattle.core_tests.specs.Caps.{capped_step_spec};

use crate::jobs::too_large;
use crate::samples::CA;
use cx_plan::{ItemKind, Region};
use cx_rule::{Cells, Overflow, Place, PointRule, Routine, RoutineOf, Spec, Window};
use cx_text::Memory;
use cx_thorn_ca::{CaCount, CaInit, CaZero};
use std::alloc::Global;
use std::test::Fail;
use test_cases::same;

/// A routine `ca_step` that clears the cells of parts of at most nine points.
type CappedStep = RoutineOf<CappedStepRule>;

/// Its rule.
#[derive(Drop)]
struct CappedStepRule;

impl PointRule for CappedStepRule {
    ghost said = { capped_step_spec };

    ghost law = { zero_rule };

    fn new() -> Self {
        CappedStepRule
    }

    fn describe(alloc: Global) -> Result<Spec, Memory> {
        let mut spec = Spec::new(alloc, b"ElemCA", b"ca_step", ItemKind::Cell)?;
        spec.add_read(alloc, b"ca::cell", Region::Everywhere, 1)?;
        spec.add_write(alloc, b"ca::cell", Region::Interior)?;
        spec.add_param(alloc, b"ca::rule")?;
        spec.limit(9);
        Ok(spec)
    }

    fn numbers(&self, _w: &Window, _at: &Place, out: &mut Cells) -> Result<(), Overflow> {
        out.set_only(0);
        Ok(())
    }
}

/// The routines of the automaton with this step.
fn routines(alloc: Global) -> Result<Vec<Box<dyn Routine>>, Fail> {
    let mut routines: Vec<Box<dyn Routine>> = Vec::new(alloc);
    routines.push(Box::new(alloc, CaInit::new(alloc)?)?)?;
    routines.push(Box::new(alloc, CappedStep::new(alloc)?)?)?;
    routines.push(Box::new(alloc, CaZero::new(alloc)?)?)?;
    routines.push(Box::new(alloc, CaCount::new(alloc)?)?)?;
    Ok(routines)
}

#[test]
fn parts_of_ten_points_and_of_six(rt: HostRuntime) -> Result<(), Fail> {
    let routines = routines(rt.alloc())?;
    let Some(told) = too_large(rt.alloc(), CA, b"", &routines)? else {
        return Err(Fail::new("one part of ten points makes a job"));
    };
    let found = (told.path.as_slice(), told.points, told.cap);
    let want = (b"EVOL/ca_step".as_slice(), 10, 9);
    same(&"one part of ten points", &found, &want)?;
    let large = too_large(rt.alloc(), CA, b"driver::parts_x = 2\n", &routines)?;
    same(&"two parts of six points", &large.is_none(), &true)
}
