//! How heat starts, and where it may flow.
ghost use Rattle.std.specs.Prelude.{◌≡◌, ◌≤◌, ◌<◌, ◌^◌, ◌∷◌, [], Some, length};
ghost use Rattle.cx_grid.specs.Boxes.{IsIn};
ghost use Rattle.cx_grid.specs.Grid.{IsShape, whole};
ghost use Rattle.cx_thorn_physics.specs.Flux.{heatflux_init_spec, heatflux_init_rule, start_at, start_number, point_start, random_start};

use cx_grid::is_boundary;
use cx_plan::{ItemKind, Region};
use cx_rule::{Cells, Overflow, Place, PointRule, RoutineOf, Spec, Window, mix_from};
use cx_text::Memory;
use std::alloc::Global;

/// The routine `heatflux_init`: `heatflux::u` becomes the start, by `heatflux::pattern`, `heatflux::amount`,
/// `heatflux::start` and `heatflux::seed`, and `heatflux::mask` 1; both become 0 in the boundary.
pub type HeatInit = RoutineOf<HeatInitRule>;

/// The rule of `heatflux_init`.
#[derive(Debug, Drop)]
pub struct HeatInitRule;

impl PointRule for HeatInitRule {
    ghost said = { heatflux_init_spec };

    ghost law = { heatflux_init_rule };

    fn new() -> Self {
        HeatInitRule
    }

    /// Writes the heat and the mask everywhere, and takes the pattern that the heat starts with.
    fn describe(alloc: Global) -> Result<Spec, Memory> {
        let mut spec = Spec::new(alloc, b"HeatFlux", b"heatflux_init", ItemKind::Cell)?;
        spec.add_write(alloc, b"heatflux::u", Region::Everywhere)?;
        spec.add_write(alloc, b"heatflux::mask", Region::Everywhere)?;
        spec.add_param(alloc, b"heatflux::pattern")?;
        spec.add_param(alloc, b"heatflux::amount")?;
        spec.add_param(alloc, b"heatflux::start")?;
        spec.add_param(alloc, b"heatflux::seed")?;
        Ok(spec)
    }

    /// The heat that the pattern gives the point, and 1; in the boundary 0 and 0.
    fn numbers(&self, _w: &Window, at: &Place, out: &mut Cells) -> Result<(), Overflow> {
        if is_boundary(&at.shape, at.at) {
            set_both(out, 0, 0);
        } else {
            set_both(out, start_at(at), 1);
        }
        Ok(())
    }
}

/// The start at a place, by its parameters: pattern, amount, start and seed.
fn start_at(at: &Place) -> i64
    requires shape { IsShape at.now.shape }
    requires point { IsIn (whole at.now.shape) at.now.at }
    requires params { 4 ≤ length at.now.params }
    ensures { result ≡ start_at at.now }
{
    start_number(
        at.param(0),
        at.param(1),
        at.param(2),
        at.param(3),
        at.index(),
    )
}

/// The number that a pattern gives a point: one point or random numbers.
fn start_number(pattern: i64, amount: i64, start: i64, seed: i64, index: usize) -> i64
    requires { index < 2 ^ 24 }
    ensures { result ≡ start_number pattern amount start seed index }
{
    if pattern == 0 {
        point_start(amount, start, index)
    } else {
        random_start(amount, seed, index)
    }
}

/// The amount at one place, else 0.
fn point_start(amount: i64, start: i64, index: usize) -> i64
    requires { index < 2 ^ 24 }
    ensures { result ≡ point_start amount start index }
{
    if start == index as i64 { amount } else { 0 }
}

/// From 0 to the amount by the seed, and 0 for an amount below 0.
fn random_start(amount: i64, seed: i64, index: usize) -> i64
    ensures { result ≡ random_start amount seed index }
{
    if amount < 0 {
        return 0;
    }
    let choices = amount as u64 + 1;
    (mix_from(seed, index) % choices) as i64
}

/// Sets the numbers of both writes that there are.
#[tactic(auto, using(crate::proofs::Cells::only_two))]
fn set_both(out: &mut Cells, first: i64, second: i64)
    requires { length out.old ≡ 2 }
    ensures { out.new ≡ first ∷ second ∷ [] }
{
    out.set(0, first);
    out.set(1, second);
}
