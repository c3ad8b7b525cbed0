//! What a routine computes.
ghost use Rattle.std.specs.Prelude.{◌≡◌, ◌<◌, ℤ, List as ListOf, map, Option, Some, None, length, slice_index_or, OnOk, OnErr};
ghost use Rattle.cx_rule.specs.Meter.{raised};
ghost use Rattle.cx_rule.specs.Seen.{Seen};
ghost use Rattle.cx_rule.specs.Routine.{Fits, rule_at};
ghost use Rattle.cx_rule.specs.Swept.{swept_zone, CanSweep, Sweeps};
ghost use Rattle.cx_rule.specs.declared.place.Place.{Place};
ghost use Rattle.cx_rule.specs.declared.spec.Spec.{Spec};

use crate::{Cells, Meter, Patch, Place, Spec, Window, Zone};
use cx_plan::Item;
use thiserror::Error;

/// A rule gives no numbers at a point: a number leaves its type.
#[derive(Clone, Copy, Debug, Error, PartialEq, Eq)]
#[error("Overflow")]
pub struct Overflow;

/// A routine of a thorn, as an object. Its meaning is its rule, a function of what a window shows and of a place.
pub trait Routine: Drop {
    /// What the routine says of itself.
    ghost spec_of: { Self → Spec };

    /// The numbers at a place, one for each write, or none where a number leaves its type.
    ghost rule: { Self → Seen → Place → Option (ListOf ℤ) };

    /// What the routine says of itself.
    fn spec(&self) -> &Spec
        ensures { result.now ≡ spec_of self.now };

    /// The most points that a part may hold for the routine to be swept, as `spec` says it.
    fn cap(&self) -> u64
        ensures { result ≡ (spec_of self.now).cap };

    /// Computes the rule at one point, and counts the point.
    ///
    /// `w` holds the values around the point, `at` is the point's place, and `out` takes the numbers. The window's reads,
    /// the place's parameters and the writes are those of `spec`.
    ///
    /// # Errors
    ///
    /// `Overflow` exactly where the rule gives no numbers. `out` is then as it was; the point is counted.
    fn point(
        &self,
        w: &Window,
        at: &Place,
        out: &mut Cells,
        meter: &mut Meter,
    ) -> Result<(), Overflow>
        requires { Fits (spec_of self.now) w.now.seen at.now out.old }
        ensures numbers { OnOk result (rule self.now w.now.seen at.now ≡ Some out.new) }
        ensures overflow { OnErr result (rule self.now w.now.seen at.now ≡ None) }
        ensures unchanged { OnErr result (out.new ≡ out.old) }
        ensures room { length out.new ≡ length out.old }
        ensures meter { meter.new ≡ raised meter.old 1 };

    /// Computes an item of this routine at each point of its zone in a part, which are those of `Patch::item_points`. All are computed
    /// from the numbers before, and counted.
    ///
    /// It asks for an item in a shape of the table of regions, no larger than the items that the patch was made for, that names
    /// stored levels alone, and for a part of at most `cap` points, its ghosts among them.
    ///
    /// # Errors
    ///
    /// `Overflow` exactly where the rule gives no numbers at one of these points, or a number leaves its variable's type. No number
    /// of the part has changed then, though some may be staged, and the meter rose by at most the number of the points.
    fn sweep(
        &self,
        item: &Item,
        patch: &mut Patch,
        zone: &Zone,
        iteration: u64,
        meter: &mut Meter,
    ) -> Result<(), Overflow>
        requires can { CanSweep (spec_of self.now) item.now patch.old }
        requires zone { zone.now ≡ swept_zone patch.old item.now }
        ensures swept { Sweeps patch.old (rule self.now) item.now iteration patch.new
            meter.old meter.new result };
}

/// Computes a boxed routine's rule at one point, as its `point`.
///
/// # Errors
///
/// `Overflow` exactly where the rule gives no numbers; `out` is then as it was.
pub fn apply(
    routine: &Box<dyn Routine>,
    w: &Window,
    at: &Place,
    out: &mut Cells,
    meter: &mut Meter,
) -> Result<(), Overflow>
    requires { Fits (spec_of routine.now) w.now.seen at.now out.old }
    ensures numbers { OnOk result (rule routine.now w.now.seen at.now ≡ Some out.new) }
    ensures overflow { OnErr result (rule routine.now w.now.seen at.now ≡ None) }
    ensures unchanged { OnErr result (out.new ≡ out.old) }
    ensures room { length out.new ≡ length out.old }
    ensures meter { meter.new ≡ raised meter.old 1 }
{
    routine.point(w, at, out, meter)
}

/// The object with this number. Its rule and what it says of itself are those with this number in the lists of all.
#[tactic(auto, using(crate::specs::Routine::picked))]
pub fn object(routines: &[Box<dyn Routine>], k: usize) -> &Box<dyn Routine>
    requires { k < length routines.now }
    ensures rule { rule result.now ≡ rule_at (map rule routines.now) k }
    ensures spec { spec_of result.now
        ≡ slice_index_or (map spec_of routines.now) k (spec_of result.now) }
{
    &routines[k]
}
