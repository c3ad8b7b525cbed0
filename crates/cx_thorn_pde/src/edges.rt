//! The edges of waves and heat.
ghost use Rattle.std.specs.Prelude.{◌≡◌, ◌≤◌, ◌<◌, length, Some};
ghost use Rattle.cx_rule.specs.Rows.{GivesRow, seen_row, reach_at};
ghost use Rattle.cx_rule.specs.Single.{read_rule, param_rule};
ghost use Rattle.cx_thorn_pde.specs.Rows.{AreBy};
ghost use Rattle.cx_thorn_pde.specs.Wave.{wave_flat_spec, wave_flat_rule, wave_copy_spec, wave_copy_rule, wave_scalar_spec, wave_scalar_rule};
ghost use Rattle.cx_thorn_pde.specs.Heat.{diff_flat_spec, diff_flat_rule, diff_scalar_spec, diff_scalar_rule};

use cx_plan::{ItemKind, Region};
use cx_rule::{Cells, Overflow, Place, PointRule, Row, RowRule, RowsOf, Spec, Window};
use cx_text::Memory;
use std::alloc::Global;

/// The routine `wave_flat`: each boundary point becomes what is read, `wave::phi` at the nearest point inside.
pub type WaveFlat = RowsOf<WaveFlatRule>;

/// The rule of `wave_flat`.
#[derive(Debug, Drop)]
pub struct WaveFlatRule;

impl PointRule for WaveFlatRule {
    ghost said = { wave_flat_spec };

    ghost law = { wave_flat_rule };

    fn new() -> Self {
        WaveFlatRule
    }

    /// Reads the wave in the interior, and writes it in the boundary.
    fn describe(alloc: Global) -> Result<Spec, Memory> {
        let mut spec = Spec::new(alloc, b"WaveInt", b"wave_flat", ItemKind::Cell)?;
        spec.add_read(alloc, b"wave::phi", Region::Interior, 0)?;
        spec.add_write(alloc, b"wave::phi", Region::Boundary)?;
        Ok(spec)
    }

    /// The wave at the nearest point of the interior.
    fn numbers(&self, w: &Window, _at: &Place, out: &mut Cells) -> Result<(), Overflow> {
        out.set_only(w.here(0));
        Ok(())
    }
}

impl RowRule for WaveFlatRule {
    /// Copies a row from the nearest points of the interior.
    fn row(&self, row: &Row, out: &mut [i64]) -> Result<(), Overflow> {
        read_along(row, out);
        Ok(())
    }
}

/// The routine `wave_copy`: each boundary point becomes what is read, the last level at the nearest point inside.
pub type WaveCopy = RowsOf<WaveCopyRule>;

/// The rule of `wave_copy`.
#[derive(Debug, Drop)]
pub struct WaveCopyRule;

impl PointRule for WaveCopyRule {
    ghost said = { wave_copy_spec };

    ghost law = { wave_copy_rule };

    fn new() -> Self {
        WaveCopyRule
    }

    /// Reads the wave before in the interior, and writes the wave in the boundary.
    fn describe(alloc: Global) -> Result<Spec, Memory> {
        let mut spec = Spec::new(alloc, b"WaveInt", b"wave_copy", ItemKind::Cell)?;
        spec.add_read(alloc, b"wave::phi_p", Region::Interior, 0)?;
        spec.add_write(alloc, b"wave::phi", Region::Boundary)?;
        Ok(spec)
    }

    /// The wave before at the nearest point of the interior.
    fn numbers(&self, w: &Window, _at: &Place, out: &mut Cells) -> Result<(), Overflow> {
        out.set_only(w.here(0));
        Ok(())
    }
}

impl RowRule for WaveCopyRule {
    /// Copies a row of the wave before from the nearest points of the interior.
    fn row(&self, row: &Row, out: &mut [i64]) -> Result<(), Overflow> {
        read_along(row, out);
        Ok(())
    }
}

/// The routine `wave_scalar`: each boundary point becomes `wave::edge`.
pub type WaveScalar = RowsOf<WaveScalarRule>;

/// The rule of `wave_scalar`.
#[derive(Debug, Drop)]
pub struct WaveScalarRule;

impl PointRule for WaveScalarRule {
    ghost said = { wave_scalar_spec };

    ghost law = { wave_scalar_rule };

    fn new() -> Self {
        WaveScalarRule
    }

    /// Writes the wave in the boundary, and takes the number there.
    fn describe(alloc: Global) -> Result<Spec, Memory> {
        let mut spec = Spec::new(alloc, b"WaveInt", b"wave_scalar", ItemKind::Cell)?;
        spec.add_write(alloc, b"wave::phi", Region::Boundary)?;
        spec.add_param(alloc, b"wave::edge")?;
        Ok(spec)
    }

    /// The number of the parameter.
    fn numbers(&self, _w: &Window, at: &Place, out: &mut Cells) -> Result<(), Overflow> {
        out.set_only(at.param(0));
        Ok(())
    }
}

impl RowRule for WaveScalarRule {
    /// Sets a row to the number of the parameter.
    fn row(&self, row: &Row, out: &mut [i64]) -> Result<(), Overflow> {
        param_along(row, out);
        Ok(())
    }
}

/// The routine `diff_flat`: each boundary point becomes what is read, `diff::u` at the nearest point inside.
pub type DiffFlat = RowsOf<DiffFlatRule>;

/// The rule of `diff_flat`.
#[derive(Debug, Drop)]
pub struct DiffFlatRule;

impl PointRule for DiffFlatRule {
    ghost said = { diff_flat_spec };

    ghost law = { diff_flat_rule };

    fn new() -> Self {
        DiffFlatRule
    }

    /// Reads the heat in the interior, and writes it in the boundary.
    fn describe(alloc: Global) -> Result<Spec, Memory> {
        let mut spec = Spec::new(alloc, b"DiffInt", b"diff_flat", ItemKind::Cell)?;
        spec.add_read(alloc, b"diff::u", Region::Interior, 0)?;
        spec.add_write(alloc, b"diff::u", Region::Boundary)?;
        Ok(spec)
    }

    /// The heat at the nearest point of the interior.
    fn numbers(&self, w: &Window, _at: &Place, out: &mut Cells) -> Result<(), Overflow> {
        out.set_only(w.here(0));
        Ok(())
    }
}

impl RowRule for DiffFlatRule {
    /// Copies a row from the nearest points of the interior.
    fn row(&self, row: &Row, out: &mut [i64]) -> Result<(), Overflow> {
        read_along(row, out);
        Ok(())
    }
}

/// The routine `diff_scalar`: each boundary point becomes `diff::edge`.
pub type DiffScalar = RowsOf<DiffScalarRule>;

/// The rule of `diff_scalar`.
#[derive(Debug, Drop)]
pub struct DiffScalarRule;

impl PointRule for DiffScalarRule {
    ghost said = { diff_scalar_spec };

    ghost law = { diff_scalar_rule };

    fn new() -> Self {
        DiffScalarRule
    }

    /// Writes the heat in the boundary, and takes the number there.
    fn describe(alloc: Global) -> Result<Spec, Memory> {
        let mut spec = Spec::new(alloc, b"DiffInt", b"diff_scalar", ItemKind::Cell)?;
        spec.add_write(alloc, b"diff::u", Region::Boundary)?;
        spec.add_param(alloc, b"diff::edge")?;
        Ok(spec)
    }

    /// The number of the parameter.
    fn numbers(&self, _w: &Window, at: &Place, out: &mut Cells) -> Result<(), Overflow> {
        out.set_only(at.param(0));
        Ok(())
    }
}

impl RowRule for DiffScalarRule {
    /// Sets a row to the number of the parameter.
    fn row(&self, row: &Row, out: &mut [i64]) -> Result<(), Overflow> {
        param_along(row, out);
        Ok(())
    }
}

/// The numbers of the first read along a row.
fn read_along(row: &Row, out: &mut [i64])
    requires some { 1 ≤ (seen_row row.now).dims }
    requires read { 0 < length (seen_row row.now).reaches }
    requires reach { reach_at (seen_row row.now) 0 ≡ 0 }
    requires count { length out.old ≡ row.now.count }
    ensures numbers { GivesRow read_rule (seen_row row.now) out.new }
    ensures room { length out.new ≡ length out.old }
{
    out.copy_from_slice(row.along(0, 0, 0));
}

/// The first parameter along a row.
fn param_along(row: &Row, out: &mut [i64])
    requires params { 0 < length ((seen_row row.now).place 0).params }
    requires count { length out.old ≡ row.now.count }
    ensures numbers { GivesRow param_rule (seen_row row.now) out.new }
    ensures room { length out.new ≡ length out.old }
{
    put_everywhere(row.param(0), out);
}

/// Sets all numbers of a row to one number.
fn put_everywhere(number: i64, out: &mut [i64])
    ensures numbers { AreBy (λ _. Some number) out.new (length out.old) }
    ensures room { length out.new ≡ length out.old }
{
    'places: for i in 0..out.len() {
        out[i] = number;
    }
}
