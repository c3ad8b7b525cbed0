//! A rule at a point as a routine.
ghost use Rattle.std.specs.Prelude.{◌≡◌, Some, None, length, IfOk, OnOk, OnErr};
ghost use Rattle.cx_rule.specs.Routine.{Fits};

use crate::sweep::sweep_rule;
use crate::{Cells, Meter, Overflow, Patch, Place, Routine, Spec, Window, Zone};
use cx_plan::Item;
use cx_text::Memory;
use std::alloc::Global;

/// A rule at a point, as code, and what its routine says of itself.
pub trait PointRule: Drop {
    ghost use Rattle.cx_rule.specs.Routine.{Rule};
    ghost use Rattle.cx_rule.specs.declared.spec.Spec.{Spec as SpecValue};

    /// What the routine says of itself.
    ghost said: { SpecValue };

    /// The numbers at a place, or none.
    ghost law: { Rule };

    /// The rule.
    fn new() -> Self;

    /// What the routine says of itself.
    fn describe(alloc: Global) -> Result<Spec, Memory>
        ensures { IfOk result (λ spec. spec ≡ said) };

    /// The rule's numbers at one place, one for each write.
    ///
    /// # Errors
    ///
    /// `Overflow` exactly where the rule gives no numbers. `out` is then as it was.
    fn numbers(&self, w: &Window, at: &Place, out: &mut Cells) -> Result<(), Overflow>
        requires { Fits said w.now.seen at.now out.old }
        ensures numbers { OnOk result (law w.now.seen at.now ≡ Some out.new) }
        ensures overflow { OnErr result (law w.now.seen at.now ≡ None) }
        ensures unchanged { OnErr result (out.new ≡ out.old) }
        ensures room { length out.new ≡ length out.old };
}

/// The routine that computes a rule at each point.
#[derive(Drop)]
pub struct RoutineOf<R: PointRule> {
    spec: Spec,
    rule: R,
    ghost is: { spec ≡ R.said },
}

impl<R: PointRule> RoutineOf<R> {
    /// The routine as an object.
    pub fn new(alloc: Global) -> Result<Self, Memory> {
        Ok(RoutineOf {
            spec: R::describe(alloc)?,
            rule: R::new(),
        })
    }
}

impl<R: PointRule> Routine for RoutineOf<R> {
    ghost spec_of = { λ _. R.said };

    ghost rule = { λ _. R.law };

    /// What the routine reads, writes and takes.
    fn spec(&self) -> &Spec {
        &self.spec
    }

    /// The most points of a part that the routine sweeps.
    fn cap(&self) -> u64 {
        self.spec.cap
    }

    /// Computes the numbers at one point by the rule, and counts the point.
    fn point(
        &self,
        w: &Window,
        at: &Place,
        out: &mut Cells,
        meter: &mut Meter,
    ) -> Result<(), Overflow> {
        meter.add(1);
        self.rule.numbers(w, at, out)
    }

    /// Computes all points of the zone by the rule, one by one.
    fn sweep(
        &self,
        item: &Item,
        patch: &mut Patch,
        zone: &Zone,
        iteration: u64,
        meter: &mut Meter,
    ) -> Result<(), Overflow> {
        sweep_rule(&self.rule, item, patch, zone, iteration, meter)
    }
}
