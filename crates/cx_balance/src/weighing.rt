//! What the planes of a direction weigh.
ghost use Rattle.std.specs.Prelude.{ℕ, ◌≡◌, ◌<◌, ◌≤◌, ◌+◌, ◌*◌, ◌/◌, ◌^◌, ◌==◌, pos, length, slice_index_or, unsigned_abs, IfOk, if◌then◌else◌};
ghost use Rattle.std.specs.Fork.{slice_chunk};
ghost use Rattle.std.specs.List.{range_with_len, sum_by};
ghost use Rattle.cx_grid.specs.Boxes.{along, point_count};
ghost use Rattle.cx_grid.specs.Grid.{IsShape, whole};
ghost use Rattle.cx_plan.specs.Whole.{IsWhole, IsVariable, level_count};
ghost use Rattle.cx_balance.specs.Choosing.{AreWeights};
ghost use Rattle.cx_balance.specs.Weighing.{planes, planes_by, levels_before, current_level, number_weight, weight_at, HasWeight};

use cx_chk::Checkpoint;
use cx_grid::{Point, Shape, count, whole};
use cx_plan::{Job, VarId, VarInfo};
use cx_text::{List, Memory};
use std::alloc::Global;

/// The weights of the planes of a direction (0, 1 and 2 are x, y and z), one for each coordinate,
/// from 0 on.
///
/// A point weighs 1. Where the job names a variable that weighs, it weighs `weight_factor` times
/// the distance of its number from 0 more; a distance above 2^20 counts as 2^20. The number is that
/// of the variable's current level in the checkpoint, whose points go x fastest, then y. So a
/// point weighs at most 2^40 + 1, and a plane less than 2^65.
///
/// # Errors
///
/// `Memory` when out of memory.
pub fn planes(alloc: Global, job: &Job, state: &Checkpoint, dir: u8) -> Result<List<u128>, Memory>
    requires whole { IsWhole job.now }
    requires state { HasWeight job.now state.now }
    requires direction { dir < job.now.shape.dims }
    ensures value { IfOk result (λ weights. weights ≡ planes job.now state.now dir) }
    ensures fit { IfOk result (λ weights. AreWeights weights) }
{
    match job.weight {
        Some(v) => {
            let level = current_level(job, state, v);
            weighed_planes(alloc, &job.shape, dir, level, job.weight_factor)
        }
        None => counted_planes(alloc, &job.shape, dir),
    }
}

/// How many points each plane of a direction has.
fn counted_planes(alloc: Global, shape: &Shape, dir: u8) -> Result<List<u128>, Memory>
    requires shape { IsShape shape.now }
    requires direction { dir < 3 }
    ensures { IfOk result (λ weights. weights ≡ planes_by shape.now (λ p. 1) dir) }
{
    let n = along(shape.n, dir) as usize;
    let each = count(&whole(shape)) / n;
    Ok(List::new(vec![in alloc; each as u128; n]?))
}

/// What each plane of a direction weighs by the numbers of a level, in one pass over them.
fn weighed_planes(
    alloc: Global,
    shape: &Shape,
    dir: u8,
    level: &[i64],
    factor: u64,
) -> Result<List<u128>, Memory>
    requires shape { IsShape shape.now }
    requires direction { dir < 3 }
    requires points { length level.now ≡ point_count (whole shape.now) }
    requires factor { factor ≤ 2 ^ 20 }
    ensures { IfOk result (λ weights.
        weights ≡ planes_by shape.now (weight_at shape.now factor level.now) dir) }
{
    let mut weights = vec![in alloc; 0; along(shape.n, dir) as usize]?;
    add_level(&mut weights, level, stretch(shape, dir), factor);
    Ok(List::new(weights))
}

/// How many points of a plane of a direction follow one another in a level.
fn stretch(shape: &Shape, dir: u8) -> usize
    requires shape { IsShape shape.now }
    ensures { result ≡ (if dir == 0 then 1 else (if dir == 1 then unsigned_abs shape.now.n.x
        else unsigned_abs shape.now.n.x * unsigned_abs shape.now.n.y)) }
{
    let x = shape.n.x.unsigned_abs() as usize;
    let y = shape.n.y.unsigned_abs() as usize;
    match dir {
        0 => 1,
        1 => x,
        _ => x * y,
    }
}

/// Adds to the weight of each plane what its points weigh by the numbers of a level.
///
/// The level is a row of blocks. Each block has a stretch of each plane, one after another.
fn add_level(weights: &mut [u128], level: &[i64], stretch: usize, factor: u64)
    requires some { 1 ≤ length weights.old * stretch }
    requires few { length weights.old * stretch ≤ 2 ^ 24 }
    requires points { length level.now ≤ 2 ^ 24 }
    requires factor { factor ≤ 2 ^ 20 }
    requires none { (k : ℕ) → k < length weights.old → slice_index_or weights.old k 0 ≡ 0 }
    ensures { (k : ℕ) → k < length weights.old → slice_index_or weights.new k 0
        ≡ sum_by (λ b. sum_by (number_weight factor)
        (slice_chunk level.now stretch (b * length weights.old + k)))
        (range_with_len 0 (length level.now / (length weights.old * stretch))) }
{
    let size = weights.len() * stretch;
    let count = level.len() / size;
    'rounds: for b in 0..count {
        add_block(weights, &level[b * size..(b + 1) * size], stretch, factor);
    }
}

/// Adds to the weight of each plane what its stretch of a block weighs.
fn add_block(weights: &mut [u128], block: &[i64], stretch: usize, factor: u64)
    requires room { length block.now ≡ length weights.old * stretch }
    requires few { length block.now ≤ 2 ^ 24 }
    requires factor { factor ≤ 2 ^ 20 }
    requires light { (k : ℕ) → k < length weights.old
        → slice_index_or weights.old k 0 ≤ 2 ^ 100 }
    ensures { (k : ℕ) → k < length weights.old → slice_index_or weights.new k 0
        ≡ slice_index_or weights.old k 0
        + sum_by (number_weight factor) (slice_chunk block.now stretch k) }
{
    if stretch == 1 {
        add_points(weights, block, factor);
    } else {
        add_stretches(weights, block, stretch, factor);
    }
}

/// Adds to the weight of each plane what its point of a row weighs.
fn add_points(weights: &mut [u128], row: &[i64], factor: u64)
    requires room { length row.now ≡ length weights.old }
    requires factor { factor ≤ 2 ^ 20 }
    requires light { (k : ℕ) → k < length weights.old
        → slice_index_or weights.old k 0 ≤ 2 ^ 100 }
    ensures { (k : ℕ) → k < length weights.old → slice_index_or weights.new k 0
        ≡ slice_index_or weights.old k 0
        + number_weight factor (slice_index_or row.now k (pos 0)) }
{
    'points: for k in 0..weights.len() {
        weights[k] += number_weight(row[k], factor);
    }
}

/// Adds to the weight of each plane what its stretch of a block weighs, where it has several points.
fn add_stretches(weights: &mut [u128], block: &[i64], stretch: usize, factor: u64)
    requires room { length block.now ≡ length weights.old * stretch }
    requires few { length block.now ≤ 2 ^ 24 }
    requires factor { factor ≤ 2 ^ 20 }
    requires light { (k : ℕ) → k < length weights.old
        → slice_index_or weights.old k 0 ≤ 2 ^ 100 }
    ensures { (k : ℕ) → k < length weights.old → slice_index_or weights.new k 0
        ≡ slice_index_or weights.old k 0
        + sum_by (number_weight factor) (slice_chunk block.now stretch k) }
{
    'planes: for k in 0..weights.len() {
        weights[k] += stretch_weight(&block[k * stretch..(k + 1) * stretch], factor);
    }
}

/// What points with these numbers weigh together.
fn stretch_weight(numbers: &[i64], factor: u64) -> u128
    requires few { length numbers.now ≤ 2 ^ 24 }
    requires factor { factor ≤ 2 ^ 20 }
    ensures value { result ≡ sum_by (number_weight factor) numbers.now }
    ensures most { result ≤ 2 ^ 24 * (1 + 2 ^ 40) }
{
    let mut weight = 0;
    'points: for number in numbers {
        weight += number_weight(*number, factor);
    }
    weight
}

/// What a point with this number weighs.
fn number_weight(number: i64, factor: u64) -> u128
    requires { factor ≤ 2 ^ 20 }
    ensures value { result ≡ number_weight factor number }
    ensures most { result ≤ 1 + 2 ^ 40 }
{
    let distance = number.unsigned_abs().min(1 << 20);
    1 + (factor * distance) as u128
}

/// The current level of a variable of the job, as the checkpoint holds it.
fn current_level<'a>(job: &Job, state: &'a Checkpoint, v: VarId) -> &'a [i64]
    requires variable { IsVariable job.now v }
    requires few { length job.now.vars ≤ 256 }
    requires there { levels_before job.now.vars v < length state.now.levels }
    ensures { result.now ≡ current_level job.now state.now v }
{
    let before = level_total(&job.vars.as_slice()[..v.0 as usize]);
    state.levels.as_slice()[before].as_slice()
}

/// How many levels of grid variables a checkpoint holds of these variables.
fn level_total(vars: &[VarInfo]) -> usize
    requires { length vars.now ≤ 256 }
    ensures { result ≡ sum_by level_count vars.now }
{
    let mut total = 0;
    'vars: for var in vars {
        total += level_count(var) as usize;
    }
    total
}

/// How many levels of a variable a checkpoint holds, if it is a grid variable.
fn level_count(var: &VarInfo) -> u8
    ensures { result ≡ level_count var.now }
{
    if var.scalar { 0 } else { var.levels }
}

/// What a point has for a direction, as a number from 0 up.
pub(crate) fn along(p: Point, dir: u8) -> u32
    ensures { result ≡ unsigned_abs (along p dir) }
{
    match dir {
        0 => p.x.unsigned_abs(),
        1 => p.y.unsigned_abs(),
        _ => p.z.unsigned_abs(),
    }
}
