//! How many numbers the parts of a job hold.

ghost use Rattle.std.specs.Prelude.{◌≡◌, ◌<◌, ◌≤◌, ◌*◌};
ghost use Rattle.std.specs.Int.{int_gap};
ghost use Rattle.cx_grid.specs.Boxes.{point_count};
ghost use Rattle.cx_cut.specs.Cuts.{part_count};
ghost use Rattle.cx_cut.specs.Faults.{parts_of};
ghost use Rattle.cx_job.specs.JobLimits.{run_count};
ghost use Rattle.cx_job.specs.LocalCells.{greatest, part_cells, cells_by, local_cells};
ghost use Rattle.cx_rule.specs.Patches.{write_count, value_count};
ghost use Rattle.cx_text.specs.Numbers.{in_64_bits};

use crate::counting::run_count;
use crate::limits::first_items;
use cx_cut::Cut;
use cx_grid::{Box3, count, reach_box};
use cx_job_values::grid_levels;
use cx_plan::{Item, Job};

/// How far the second number is above the first.
fn gap(low: i32, high: i32) -> u64
    ensures { result ≡ int_gap low high }
{
    if high < low {
        0
    } else {
        (high as i64 - low as i64) as u64
    }
}

/// The product of three numbers, or the greatest number of 64 bits.
#[tactic(auto, using(cx_cut::proofs::FaultLaws::kept_mul))]
fn product(x: u64, y: u64, z: u64) -> u64
    ensures { result ≡ in_64_bits (x * y * z) }
{
    x.saturating_mul(y).saturating_mul(z)
}

/// The number of points of a box, or the greatest number of 64 bits.
pub(crate) fn point_count(b: &Box3) -> u64
    ensures { result ≡ in_64_bits (point_count b.now) }
{
    product(
        gap(b.low.x, b.high.x),
        gap(b.low.y, b.high.y),
        gap(b.low.z, b.high.z),
    )
}

/// What a part holds that has so many numbers at each of its points, and one window.
fn part_cells(cut: &Cut, part: u32, each: u64, window: u64) -> u64
    requires { part < part_count cut.now }
    ensures { result ≡ in_64_bits (part_cells cut.now each window part) }
{
    point_count(&cut.local(part))
        .saturating_mul(each)
        .saturating_add(window)
}

/// What all parts hold.
fn cells_by(cut: &Cut, each: u64, window: u64) -> u64
    ensures { result ≡ in_64_bits (cells_by cut.now each window) }
{
    let mut cells = 0_u64;
    'parts: for part in 0..cut.count() {
        cells = cells.saturating_add(part_cells(cut, part, each, window));
    }
    cells
}

/// The number of writes of the item that writes most.
fn most_writes(items: &[Item]) -> u64
    ensures { result ≡ greatest write_count items.now }
{
    let mut most = 0;
    'items: for item in items {
        most = most.max(item.writes.len() as u64);
    }
    most
}

/// How many values an item's reads hand over, or the greatest number of 64 bits.
fn window_size(dims: u8, item: &Item) -> u64
    ensures { result ≡ in_64_bits (value_count dims item.now) }
{
    let reads = item.reads.as_slice();
    let mut values = 0_u64;
    'reads: for read in reads {
        values = values.saturating_add(count(&reach_box(dims, read.reach)) as u64);
    }
    values
}

/// The greatest number of values that an item's reads hand over, or the greatest number of 64 bits.
fn greatest_window(dims: u8, items: &[Item]) -> u64
    ensures { result ≡ in_64_bits (greatest (value_count dims) items.now) }
{
    let mut window = 0;
    'items: for item in items {
        window = window.max(window_size(dims, item));
    }
    window
}

/// How many numbers the parts of a job hold at once, or the greatest number of 64 bits.
///
/// Each point of a part, with its ghost zones, has a number for each stored level of each grid variable,
/// and one for each write of the item that writes most. Each part also has one window, of the greatest
/// number of values that an item reads. `make_job` refuses a job where this is above 2^27.
pub fn local_cells(cut: &Cut, job: &Job) -> u64
    requires few { run_count job.now.plan ≤ 4096 }
    requires cut { cut.now ≡ parts_of job.now.shape job.now.cut }
    ensures { result ≡ in_64_bits (local_cells job.now) }
{
    let items = first_items(job.items.as_slice(), run_count(&job.plan));
    let each = grid_levels(job.vars.as_slice()).saturating_add(most_writes(items));
    cells_by(cut, each, greatest_window(job.shape.dims, items))
}
