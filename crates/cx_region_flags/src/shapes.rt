//! The shapes of items: which declarations stand in the table, and what each read needs.

ghost use Rattle.std.specs.Prelude.{◌≡◌, ℕ, pos, ◌==◌, Some, None, ◌&&◌, ◌||◌, not, int_le, is_some, if◌then◌else◌};
ghost use Rattle.cx_plan.specs.declared.item.Region.TheVariants as regions;
ghost use Rattle.std.specs.List.{list_all, list_any};
ghost use Rattle.std.specs.Option.{option_copied};
ghost use Rattle.cx_grid.specs.Boxes.{along};
ghost use Rattle.cx_grid.specs.Grid.{IsShape};
ghost use Rattle.cx_region_flags.specs.Faces.{has_faced_direction};
ghost use Rattle.cx_region_flags.specs.Rows.{is_in_region, has_row};
ghost use Rattle.cx_plan.specs.Setups.{setup_of};
ghost use Rattle.cx_plan.specs.Lookups.{is_scalar};
ghost use Rattle.cx_plan.specs.Regions.{has_boundary, within_ghosts, same_region, cell_needs, region_of, grid_needs, read_needs, same_level, are_distinct, is_one, is_some_list, reduces, kinds_agree, has_shape};

use crate::variables::is_scalar;
use cx_grid::{Point, Shape};
use cx_plan::{Flag, Item, ItemKind, Job, Region, Touch};

/// Whether a direction has boundary points.
fn has_faces(periodic: bool, ghosts: i32) -> bool
    ensures { result ≡ (not periodic && int_le (pos 1) ghosts) }
{
    !periodic && ghosts >= 1
}

/// Whether some direction has boundary points: not periodic, and at least one ghost point wide.
fn has_faced_direction(shape: &Shape) -> bool
    ensures { result ≡ has_faced_direction shape.now }
{
    has_faces(shape.periodic[0], shape.ghost_.x)
        || has_faces(shape.periodic[1], shape.ghost_.y)
        || has_faces(shape.periodic[2], shape.ghost_.z)
}

/// Whether a grid has boundary points.
pub(crate) fn has_boundary(shape: &Shape) -> bool
    requires { IsShape shape.now }
    ensures { result ≡ has_boundary shape.now }
{
    has_faced_direction(shape)
}

/// A point's coordinate in a direction.
fn along(point: &Point, direction: u8) -> i32
    ensures { result ≡ along point.now direction }
{
    match direction {
        0 => point.x,
        1 => point.y,
        _ => point.z,
    }
}

/// Whether a read reaches no further than the ghost points of this direction.
fn is_within(shape: &Shape, reach: u8, direction: u8) -> bool
    ensures { result ≡ int_le (pos reach) (along shape.now.ghost_ direction) }
{
    reach as i32 <= along(&shape.ghost_, direction)
}

/// Whether a reach is at most the ghost width of each direction.
pub(crate) fn within_ghosts(shape: &Shape, reach: u8) -> bool
    ensures { result ≡ within_ghosts shape.now reach }
{
    for direction in 0..shape.dims {
        if !is_within(shape, reach, direction) {
            return false;
        }
    }
    true
}

/// Whether two regions are one.
fn same_region(a: Region, b: Region) -> bool
    ensures { result ≡ same_region a b }
{
    a == b
}

/// These flags, where the table has the row.
fn needs_if(has_row: bool, flags: &'static [Flag]) -> Option<&'static [Flag]>
    ensures { option_copied result ≡ (if has_row then Some flags.now else None) }
{
    if has_row { Some(flags) } else { None }
}

const INTERIOR: &[Flag] = &[Flag::I];

const NOT_GHOSTS: &[Flag] = &[Flag::I, Flag::B];

const NOT_BOUNDARY: &[Flag] = &[Flag::I, Flag::G];

const ALL: &[Flag] = &[Flag::I, Flag::B, Flag::G];

const SCALAR: &[Flag] = &[Flag::S];

/// What an item that writes this region needs of a read of this region and reach, or none where the table has no such row.
pub(crate) fn cell_needs(
    shape: &Shape,
    region: Region,
    read: Region,
    reach: u8,
) -> Option<&'static [Flag]>
    ensures { option_copied result ≡ cell_needs shape.now region read reach }
{
    match (region, read) {
        (Region::Interior, Region::Everywhere) => needs_if(within_ghosts(shape, reach), ALL),
        (Region::Interior, Region::Interior) => needs_if(reach == 0, INTERIOR),
        (Region::Everywhere, Region::Everywhere) => needs_if(reach == 0, ALL),
        (Region::Boundary, Region::Interior) => needs_if(reach == 0, NOT_BOUNDARY),
        _ => None,
    }
}

/// The region of an item's first write.
fn region_of(writes: &[Touch]) -> Region
    ensures { result ≡ region_of writes.now }
{
    match writes.first() {
        Some(write) => write.region,
        None => Region::Everywhere,
    }
}

/// Whether a read is of each point everywhere, without neighbours.
fn is_plain(read: &Touch) -> bool
    ensures { result ≡ (same_region read.now.region regions.Everywhere && read.now.reach == 0) }
{
    same_region(read.region, Region::Everywhere) && read.reach == 0
}

/// The flags that an item of this kind needs to read a grid variable so. None: it may not read so at all.
fn grid_needs(
    shape: &Shape,
    kind: ItemKind,
    region: Region,
    read: &Touch,
) -> Option<&'static [Flag]>
    ensures { option_copied result ≡ grid_needs shape.now kind region read.now }
{
    match kind {
        ItemKind::Cell => cell_needs(shape, region, read.region, read.reach),
        ItemKind::Scalar => None,
        ItemKind::Sum | ItemKind::Least | ItemKind::Greatest | ItemKind::Count => {
            needs_if(is_plain(read), NOT_GHOSTS)
        }
    }
}

/// What an item needs of one of its reads, or none where the table has no such row.
pub(crate) fn read_needs(job: &Job, item: &Item, read: &Touch) -> Option<&'static [Flag]>
    ensures { option_copied result ≡ read_needs (setup_of job.now) item.now read.now }
{
    if is_scalar(job, read.var) {
        return Some(SCALAR);
    }
    grid_needs(
        &job.shape,
        item.kind,
        region_of(item.writes.as_slice()),
        read,
    )
}

/// Whether two accesses are of one level of one variable.
fn same_level(a: &Touch, b: &Touch) -> bool
    ensures { result ≡ same_level a.now b.now }
{
    a.var.0 == b.var.0 && a.level == b.level
}

/// Whether one of the other accesses is of the same level of the same variable.
fn is_again(write: &Touch, others: &[Touch]) -> bool
    ensures { result ≡ list_any (same_level write.now) others.now }
{
    others.iter().any(|other| same_level(write, other))
}

/// Whether no variable's level is written twice.
pub(crate) fn are_distinct(writes: &[Touch]) -> bool
    ensures { result ≡ are_distinct writes.now }
{
    let mut rest = writes;
    while let [write, others @ ..] = rest {
        if is_again(write, others) {
            return false;
        }
        rest = others;
    }
    true
}

/// Whether all accesses are of scalars.
fn are_scalars(job: &Job, touches: &[Touch]) -> bool
    ensures { result ≡ list_all (λ t. is_scalar (setup_of job.now) t.var) touches.now }
{
    touches.iter().all(|touch| is_scalar(job, touch.var))
}

/// Whether all accesses are of grid variables.
fn are_grid_variables(job: &Job, touches: &[Touch]) -> bool
    ensures { result ≡ list_all (λ t. not (is_scalar (setup_of job.now) t.var)) touches.now }
{
    touches.iter().all(|touch| !is_scalar(job, touch.var))
}

/// Whether there is one read, of a grid variable, and one scalar is written.
fn reduces(job: &Job, item: &Item) -> bool
    ensures { result ≡ reduces (setup_of job.now) item.now }
{
    is_one(item.reads.as_slice())
        && is_one(item.writes.as_slice())
        && are_grid_variables(job, item.reads.as_slice())
        && are_scalars(job, item.writes.as_slice())
}

/// Whether there is exactly one access.
fn is_one(touches: &[Touch]) -> bool
    ensures { result ≡ is_one touches.now }
{
    match touches {
        [_] => true,
        _ => false,
    }
}

/// Whether an access is of a grid variable in this region.
fn is_in_region(job: &Job, region: Region, write: &Touch) -> bool
    ensures { result ≡ is_in_region (setup_of job.now) region write.now }
{
    !is_scalar(job, write.var) && same_region(write.region, region)
}

/// Whether these are writes of grid variables in one region.
fn are_in_region(job: &Job, region: Region, writes: &[Touch]) -> bool
    ensures { result ≡ list_all (is_in_region (setup_of job.now) region) writes.now }
{
    writes.iter().all(|write| is_in_region(job, region, write))
}

/// Whether an item's reads and writes are those of its kind.
pub(crate) fn kinds_agree(job: &Job, item: &Item) -> bool
    ensures { result ≡ kinds_agree (setup_of job.now) item.now item.now.kind }
{
    let reads = item.reads.as_slice();
    let writes = item.writes.as_slice();
    match item.kind {
        ItemKind::Cell => are_in_region(job, region_of(writes), writes),
        ItemKind::Scalar => are_scalars(job, writes) && are_scalars(job, reads),
        ItemKind::Sum | ItemKind::Least | ItemKind::Greatest | ItemKind::Count => {
            reduces(job, item)
        }
    }
}

/// Whether the item may read so at all, by its kind and region.
fn has_row(job: &Job, item: &Item, read: &Touch) -> bool
    ensures { result ≡ has_row (setup_of job.now) item.now read.now }
{
    read_needs(job, item, read).is_some()
}

/// Whether the item may read so at all, for each of its reads.
fn have_rows(job: &Job, item: &Item, reads: &[Touch]) -> bool
    ensures { result ≡ list_all (has_row (setup_of job.now) item.now) reads.now }
{
    reads.iter().all(|read| has_row(job, item, read))
}

/// Whether there is at least one access.
fn is_some_list(touches: &[Touch]) -> bool
    ensures { result ≡ is_some_list touches.now }
{
    match touches {
        [] => false,
        _ => true,
    }
}

/// Whether an item's declaration stands in the table.
pub fn has_shape(job: &Job, item: &Item) -> bool
    ensures { result ≡ has_shape (setup_of job.now) item.now }
{
    is_some_list(item.writes.as_slice())
        && are_distinct(item.writes.as_slice())
        && kinds_agree(job, item)
        && have_rows(job, item, item.reads.as_slice())
}
