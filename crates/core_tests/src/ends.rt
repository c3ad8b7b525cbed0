//! A routine for two points.

ghost use Rattle.core_tests.specs.Ends.{ends_spec, ends_rule};

use cx_plan::{ItemKind, Region};
use cx_rule::{Cells, Overflow, Place, PointRule, RoutineOf, Spec, Window};
use cx_text::Memory;
use std::alloc::Global;

/// The routine `diff_ends`: the first point takes one parameter, all others another one.
pub(crate) type DiffEnds = RoutineOf<DiffEndsRule>;

/// Its rule.
#[derive(Drop)]
pub(crate) struct DiffEndsRule;

impl PointRule for DiffEndsRule {
    ghost said = { ends_spec };

    ghost law = { ends_rule };

    fn new() -> Self {
        DiffEndsRule
    }

    fn describe(alloc: Global) -> Result<Spec, Memory> {
        let mut spec = Spec::new(alloc, b"DiffInt", b"diff_ends", ItemKind::Cell)?;
        spec.add_write(alloc, b"diff::u", Region::Everywhere)?;
        spec.add_param(alloc, b"diff::amount")?;
        spec.add_param(alloc, b"diff::edge")?;
        Ok(spec)
    }

    fn numbers(&self, _w: &Window, at: &Place, out: &mut Cells) -> Result<(), Overflow> {
        let first = at.index() == 0;
        out.set_only(if first { at.param(0) } else { at.param(1) });
        Ok(())
    }
}
