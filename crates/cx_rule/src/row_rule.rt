//! A rule along a row of points as a routine.
ghost use Rattle.std.specs.Prelude.{◌≡◌, length, OnOk, OnErr};
ghost use Rattle.cx_rule.specs.Rows.{seen_row, FitsRow, GivesRow, LacksOne};

use crate::rows::sweep_rows;
use crate::{Cells, Meter, Overflow, Patch, Place, PointRule, Routine, Row, Spec, Window, Zone};
use cx_plan::Item;
use cx_text::Memory;
use std::alloc::Global;

/// A rule of one write at a point that is also computed along a row of points.
pub trait RowRule: PointRule {
    /// The rule's numbers at the points of a row, one for each. All reads are of grid variables.
    ///
    /// # Errors
    ///
    /// `Overflow` exactly where the rule gives no numbers at one of these points. Which numbers `out` then has is left open.
    fn row(&self, row: &Row, out: &mut [i64]) -> Result<(), Overflow>
        requires fits { FitsRow Self.said (seen_row row.now) }
        requires count { length out.old ≡ row.now.count }
        ensures numbers { OnOk result (GivesRow Self.law (seen_row row.now) out.new) }
        ensures overflow { OnErr result (LacksOne Self.law (seen_row row.now)) }
        ensures room { length out.new ≡ length out.old };
}

/// The routine that computes a rule along rows of points where a Cell item has one write and reads grid variables alone, whatever
/// region it writes, and else at each point.
#[derive(Drop)]
pub struct RowsOf<R: RowRule> {
    spec: Spec,
    rule: R,
    ghost is: { spec ≡ R.said },
}

impl<R: RowRule> RowsOf<R> {
    /// The routine as an object.
    pub fn new(alloc: Global) -> Result<Self, Memory> {
        Ok(RowsOf {
            spec: R::describe(alloc)?,
            rule: R::new(),
        })
    }
}

impl<R: RowRule> Routine for RowsOf<R> {
    ghost spec_of = { λ _. R.said };

    ghost rule = { λ _. R.law };

    /// What the routine reads, writes and takes.
    fn spec(&self) -> &Spec {
        &self.spec
    }

    /// The most points of a part that the routine sweeps.
    fn cap(&self) -> u64 {
        self.spec.cap
    }

    /// Computes the numbers at one point by the rule, and counts the point.
    fn point(
        &self,
        w: &Window,
        at: &Place,
        out: &mut Cells,
        meter: &mut Meter,
    ) -> Result<(), Overflow> {
        meter.add(1);
        self.rule.numbers(w, at, out)
    }

    /// Computes all points of the zone by the rule, row by row.
    fn sweep(
        &self,
        item: &Item,
        patch: &mut Patch,
        zone: &Zone,
        iteration: u64,
        meter: &mut Meter,
    ) -> Result<(), Overflow> {
        sweep_rows(&self.rule, item, patch, zone, iteration, meter)
    }
}
