//! A count of turns.
ghost use Rattle.std.specs.Prelude.{◌≡◌, ◌-ℤ◌};
ghost use Rattle.cx_thorn_pde.specs.Control.{control_set_spec, control_set_rule, control_spin_spec, control_spin_rule};

use crate::exact::in_64_bits;
use cx_plan::{ItemKind, Region};
use cx_rule::{Cells, Overflow, Place, PointRule, RoutineOf, Spec, Window};
use cx_text::Memory;
use std::alloc::Global;

/// The routine `control_set`: `control::count` becomes `control::turns`.
pub type ControlSet = RoutineOf<ControlSetRule>;

/// The rule of `control_set`.
#[derive(Debug, Drop)]
pub struct ControlSetRule;

impl PointRule for ControlSetRule {
    ghost said = { control_set_spec };

    ghost law = { control_set_rule };

    fn new() -> Self {
        ControlSetRule
    }

    /// Writes the count, and takes the number of turns.
    fn describe(alloc: Global) -> Result<Spec, Memory> {
        let mut spec = Spec::new(alloc, b"Control", b"control_set", ItemKind::Scalar)?;
        spec.add_write(alloc, b"control::count", Region::Everywhere)?;
        spec.add_param(alloc, b"control::turns")?;
        Ok(spec)
    }

    /// The count begins at the number of turns.
    fn numbers(&self, _w: &Window, at: &Place, out: &mut Cells) -> Result<(), Overflow> {
        out.set_only(at.param(0));
        Ok(())
    }
}

/// The routine `control_spin`: `control::count` becomes less by `control::drop`.
pub type ControlSpin = RoutineOf<ControlSpinRule>;

/// The rule of `control_spin`.
#[derive(Debug, Drop)]
pub struct ControlSpinRule;

impl PointRule for ControlSpinRule {
    ghost said = { control_spin_spec };

    ghost law = { control_spin_rule };

    fn new() -> Self {
        ControlSpinRule
    }

    /// Reads and writes the count, and takes how much it drops.
    fn describe(alloc: Global) -> Result<Spec, Memory> {
        let mut spec = Spec::new(alloc, b"Control", b"control_spin", ItemKind::Scalar)?;
        spec.add_read(alloc, b"control::count", Region::Everywhere, 0)?;
        spec.add_write(alloc, b"control::count", Region::Everywhere)?;
        spec.add_param(alloc, b"control::drop")?;
        Ok(spec)
    }

    /// The count less its drop; an overflow if that has more than 64 bits.
    fn numbers(&self, w: &Window, at: &Place, out: &mut Cells) -> Result<(), Overflow> {
        out.set_if(in_64_bits(minus(w.here(0), at.param(0))))
    }
}

/// The count less its drop, exactly.
fn minus(count: i64, drop: i64) -> i128
    ensures { result ≡ count -ℤ drop }
{
    count as i128 - drop as i128
}
