//! How a wave starts.
ghost use Rattle.std.specs.Prelude.{◌≡◌, length, OnOk, OnErr, Some, None};
ghost use Rattle.cx_thorn_pde.specs.Wave.{wave_init_spec, wave_init_rule, wave_init1_spec, wave_init1_rule, number_twice};

use crate::start::start_at;
use cx_plan::{ItemKind, Region};
use cx_rule::{Cells, Overflow, Place, PointRule, RoutineOf, Spec, Window};
use cx_text::Memory;
use std::alloc::Global;

/// The routine `wave_init`: `wave::phi` and the level before it become the start, by `wave::pattern`, `wave::amount`,
/// `wave::start` and `wave::seed`.
pub type WaveInit = RoutineOf<WaveInitRule>;

/// The rule of `wave_init`.
#[derive(Debug, Drop)]
pub struct WaveInitRule;

impl PointRule for WaveInitRule {
    ghost said = { wave_init_spec };

    ghost law = { wave_init_rule };

    fn new() -> Self {
        WaveInitRule
    }

    /// Writes the wave and the wave before everywhere, and takes the pattern that they start with.
    fn describe(alloc: Global) -> Result<Spec, Memory> {
        let mut spec = Spec::new(alloc, b"WaveInt", b"wave_init", ItemKind::Cell)?;
        spec.add_write(alloc, b"wave::phi", Region::Everywhere)?;
        spec.add_write(alloc, b"wave::phi_p", Region::Everywhere)?;
        spec.add_param(alloc, b"wave::pattern")?;
        spec.add_param(alloc, b"wave::amount")?;
        spec.add_param(alloc, b"wave::start")?;
        spec.add_param(alloc, b"wave::seed")?;
        Ok(spec)
    }

    /// The number that the pattern gives the point, for both levels.
    fn numbers(&self, _w: &Window, at: &Place, out: &mut Cells) -> Result<(), Overflow> {
        set_both(out, start_at(at))
    }
}

/// The routine `wave_init1`: `wave::phi` alone becomes the start.
pub type WaveInit1 = RoutineOf<WaveInit1Rule>;

/// The rule of `wave_init1`.
#[derive(Debug, Drop)]
pub struct WaveInit1Rule;

impl PointRule for WaveInit1Rule {
    ghost said = { wave_init1_spec };

    ghost law = { wave_init1_rule };

    fn new() -> Self {
        WaveInit1Rule
    }

    /// Writes the wave everywhere, and takes the pattern that it starts with.
    fn describe(alloc: Global) -> Result<Spec, Memory> {
        let mut spec = Spec::new(alloc, b"WaveInt", b"wave_init1", ItemKind::Cell)?;
        spec.add_write(alloc, b"wave::phi", Region::Everywhere)?;
        spec.add_param(alloc, b"wave::pattern")?;
        spec.add_param(alloc, b"wave::amount")?;
        spec.add_param(alloc, b"wave::start")?;
        spec.add_param(alloc, b"wave::seed")?;
        Ok(spec)
    }

    /// The number that the pattern gives the point.
    fn numbers(&self, _w: &Window, at: &Place, out: &mut Cells) -> Result<(), Overflow> {
        out.set_if(start_at(at))
    }
}

/// Sets the numbers of both writes that there are, if there is a number.
#[tactic(auto, using(crate::proofs::Pairs::only_two))]
fn set_both(out: &mut Cells, value: Option<i64>) -> Result<(), Overflow>
    requires { length out.old ≡ 2 }
    ensures numbers { OnOk result (number_twice value ≡ Some out.new) }
    ensures overflow { OnErr result (number_twice value ≡ None) }
    ensures unchanged { OnErr result (out.new ≡ out.old) }
    ensures room { length out.new ≡ length out.old }
{
    match value {
        Some(number) => {
            out.set(0, number);
            out.set(1, number);
            Ok(())
        }
        None => Err(Overflow),
    }
}
