//! Worked rows: a grid with the numbers that weigh its points, what its planes weigh, and the cut that
//! they choose.

ghost use Rattle.std.specs.Prelude.{◌≡◌, ◌<◌, None, IsTrue, IfOk};
ghost use Rattle.cx_grid.specs.Grid.{IsShape};
ghost use Rattle.cx_cut.specs.Faults.{parts_of, cut_fault};
ghost use Rattle.cx_plan.specs.Whole.{IsWhole};
ghost use Rattle.cx_balance.specs.Weighing.{HasWeight};
ghost use Rattle.sharing_tests.specs.Samples.{nothing, no_bins, sample, sample_state, sample_variables, weighing, AreNumbers};

use cx_balance::{cut_by_weight, planes};
use cx_chk::Checkpoint;
use cx_cut::cut;
use cx_grid::{Point, Shape, count, whole};
use cx_plan::{Cuts, Job, Recover, Schedule, Tree, VarId, VarInfo};
use cx_text::{CType, List, Memory, Text};
use std::alloc::Global;
use std::test::Fail;
use test_cases::same;

/// The grids of the rows, each with ghost zones of one point.
#[derive(Clone, Copy, Debug)]
enum Grid {
    /// A ring of eight points.
    Eight,
    /// A ring of ten points.
    Ten,
    /// Eight by eight points, periodic in both directions.
    Sheet,
    /// Eight points along x, y or z, with ghost zones of two points, and one in both other directions.
    AlongX,
    AlongY,
    AlongZ,
}

/// A grid and its own cut, the numbers that weigh the points, if some do, and what is wanted.
#[derive(Debug)]
struct Row {
    grid: Grid,
    /// The widths of its parts along x, y and z.
    own: [&'static [u32]; 3],
    weighed: bool,
    factor: u64,
    numbers: &'static [i64],
    /// What the planes of each direction weigh.
    planes: &'static [&'static [u128]],
    /// The chosen widths along x, y and z.
    chosen: [&'static [u32]; 3],
}

const SEVENS: &[i64] = &[0, 0, 0, 0, 7, 7, 0, 0];

/// The first share ends after one point, and the second one with the last point.
const ENDS: &[i64] = &[29, 0, 0, 0, 0, 0, 0, 29];

/// The cells (2, 1), (3, 2), (1, 3), (2, 3) and (3, 3).
const GLIDER: &[i64] = &[
    0, 0, 0, 0, 0, 0, 0, 0, //
    0, 0, 1, 0, 0, 0, 0, 0, //
    0, 0, 0, 1, 0, 0, 0, 0, //
    0, 1, 1, 1, 0, 0, 0, 0, //
    0, 0, 0, 0, 0, 0, 0, 0, //
    0, 0, 0, 0, 0, 0, 0, 0, //
    0, 0, 0, 0, 0, 0, 0, 0, //
    0, 0, 0, 0, 0, 0, 0, 0, //
];

const ROWS: &[Row] = &[
    Row {
        grid: Grid::Eight,
        own: [&[4, 4], &[1], &[1]],
        weighed: true,
        factor: 1,
        numbers: SEVENS,
        planes: &[&[1, 1, 1, 1, 8, 8, 1, 1]],
        chosen: [&[5, 3], &[1], &[1]],
    },
    Row {
        grid: Grid::Eight,
        own: [&[3, 3, 2], &[1], &[1]],
        weighed: true,
        factor: 1,
        numbers: SEVENS,
        planes: &[&[1, 1, 1, 1, 8, 8, 1, 1]],
        chosen: [&[5, 1, 2], &[1], &[1]],
    },
    // the greatest factor; a number counts by its distance from 0, at most 2^20
    Row {
        grid: Grid::Eight,
        own: [&[4, 4], &[1], &[1]],
        weighed: true,
        factor: 1048576,
        numbers: &[-3, 0, 0, i64::MIN, i64::MAX, -1048576, 1048577, 0],
        planes: &[&[
            3145729,
            1,
            1,
            1099511627777,
            1099511627777,
            1099511627777,
            1099511627777,
            1,
        ]],
        chosen: [&[5, 3], &[1], &[1]],
    },
    Row {
        grid: Grid::Ten,
        own: [&[2, 2, 6], &[1], &[1]],
        weighed: false,
        factor: 1,
        numbers: &[9, 9, 9, 9, 9, 0, 0, 0, 0, 0],
        planes: &[&[1, 1, 1, 1, 1, 1, 1, 1, 1, 1]],
        chosen: [&[4, 3, 3], &[1], &[1]],
    },
    Row {
        grid: Grid::Sheet,
        own: [&[8], &[3, 3, 2], &[1]],
        weighed: true,
        factor: 100,
        numbers: GLIDER,
        planes: &[
            &[8, 108, 208, 208, 8, 8, 8, 8],
            &[8, 108, 108, 308, 8, 8, 8, 8],
        ],
        chosen: [&[8], &[3, 1, 4], &[1]],
    },
    // the first part is to have two points, and so is the last one
    Row {
        grid: Grid::AlongX,
        own: [&[3, 3, 2], &[1], &[1]],
        weighed: true,
        factor: 1,
        numbers: ENDS,
        planes: &[&[30, 1, 1, 1, 1, 1, 1, 30], &[66], &[66]],
        chosen: [&[2, 4, 2], &[1], &[1]],
    },
    Row {
        grid: Grid::AlongY,
        own: [&[1], &[3, 3, 2], &[1]],
        weighed: true,
        factor: 1,
        numbers: ENDS,
        planes: &[&[66], &[30, 1, 1, 1, 1, 1, 1, 30], &[66]],
        chosen: [&[1], &[2, 4, 2], &[1]],
    },
    Row {
        grid: Grid::AlongZ,
        own: [&[1], &[1], &[3, 3, 2]],
        weighed: true,
        factor: 1,
        numbers: ENDS,
        planes: &[&[66], &[66], &[30, 1, 1, 1, 1, 1, 1, 30]],
        chosen: [&[1], &[1], &[2, 4, 2]],
    },
];

/// The size of a grid.
fn shape_of(grid: Grid) -> Shape
    ensures { IsShape result }
{
    match grid {
        Grid::Eight => Shape {
            dims: 1,
            n: Point { x: 8, y: 1, z: 1 },
            ghost_: Point { x: 1, y: 0, z: 0 },
            periodic: [true, false, false],
        },
        Grid::Ten => Shape {
            dims: 1,
            n: Point { x: 10, y: 1, z: 1 },
            ghost_: Point { x: 1, y: 0, z: 0 },
            periodic: [true, false, false],
        },
        Grid::Sheet => Shape {
            dims: 2,
            n: Point { x: 8, y: 8, z: 1 },
            ghost_: Point { x: 1, y: 1, z: 0 },
            periodic: [true, true, false],
        },
        Grid::AlongX => Shape {
            dims: 3,
            n: Point { x: 8, y: 1, z: 1 },
            ghost_: Point { x: 2, y: 0, z: 0 },
            periodic: [true, true, true],
        },
        Grid::AlongY => Shape {
            dims: 3,
            n: Point { x: 1, y: 8, z: 1 },
            ghost_: Point { x: 0, y: 2, z: 0 },
            periodic: [true, true, true],
        },
        Grid::AlongZ => Shape {
            dims: 3,
            n: Point { x: 1, y: 1, z: 8 },
            ghost_: Point { x: 0, y: 0, z: 2 },
            periodic: [true, true, true],
        },
    }
}

fn text(alloc: Global, bytes: &[u8]) -> Result<Text, Memory>
    ensures { IfOk result (λ text. text ≡ bytes.now) }
{
    Text::from_slice(alloc, bytes)
}

fn variables(alloc: Global) -> Result<List<VarInfo>, Memory>
    ensures { IfOk result (λ vars. vars ≡ sample_variables) }
{
    let first = VarInfo {
        full: text(alloc, b"a")?,
        ctype: CType::Int8,
        scalar: false,
        levels: 2,
    };
    let second = VarInfo {
        full: text(alloc, b"b")?,
        ctype: CType::Int8,
        scalar: false,
        levels: 1,
    };
    Ok(List::new(Vec::from_array(alloc, [first, second])?))
}

/// The cut of these widths.
fn own_cut(alloc: Global, widths: &[&[u32]; 3]) -> Result<Cuts, Memory> {
    Ok(Cuts {
        x: List::new(widths[0].to_vec(alloc)?),
        y: List::new(widths[1].to_vec(alloc)?),
        z: List::new(widths[2].to_vec(alloc)?),
    })
}

fn nothing(alloc: Global) -> Tree
    ensures { result ≡ nothing }
{
    Tree::Seq(List::empty(alloc))
}

fn bins(alloc: Global) -> Result<List<Tree>, Memory>
    ensures { IfOk result (λ bins. bins ≡ no_bins) }
{
    let bins = [
        nothing(alloc),
        nothing(alloc),
        nothing(alloc),
        nothing(alloc),
        nothing(alloc),
        nothing(alloc),
        nothing(alloc),
        nothing(alloc),
        nothing(alloc),
        nothing(alloc),
        nothing(alloc),
        nothing(alloc),
        nothing(alloc),
        nothing(alloc),
        nothing(alloc),
        nothing(alloc),
        nothing(alloc),
    ];
    Ok(List::new(Vec::from_array(alloc, bins)?))
}

/// The variable that weighs, if one does.
fn weighing(weighed: bool) -> Option<VarId>
    ensures { result ≡ weighing weighed }
{
    if weighed { Some(VarId(1)) } else { None }
}

/// A job of a grid, whose second variable may weigh the points.
fn job(alloc: Global, shape: Shape, own: Cuts, weighed: bool, factor: u64) -> Result<Job, Memory>
    ensures { IfOk result (λ job. job ≡ sample shape own weighed factor) }
{
    Ok(Job {
        shape,
        vars: variables(alloc)?,
        items: List::empty(alloc),
        steers: List::empty(alloc),
        plan: Schedule { bins: bins(alloc)? },
        cut: own,
        itlast: 4,
        while_limit: 1,
        lead: 0,
        balance: true,
        weight: weighing(weighed),
        weight_factor: factor,
        out_every: 0,
        out_vars: List::empty(alloc),
        chk_every: 4,
        keep: 1,
        on_end: false,
        recover: Recover::No,
        out_dir: text(alloc, b"")?,
        chk_dir: text(alloc, b"")?,
        key: text(alloc, b"")?,
        plan_text: text(alloc, b"")?,
        starred: text(alloc, b"")?,
    })
}

/// A checkpoint with the numbers that weigh behind the two levels of the first variable.
fn state(alloc: Global, numbers: &[i64]) -> Result<Checkpoint, Memory>
    ensures { IfOk result (λ state. state ≡ sample_state numbers.now) }
{
    let weights = List::new(numbers.to_vec(alloc)?);
    let levels = [List::empty(alloc), List::empty(alloc), weights];
    Ok(Checkpoint {
        version: 2,
        iteration: 4,
        key: text(alloc, b"")?,
        names: List::empty(alloc),
        lengths: List::empty(alloc),
        scalars: List::empty(alloc),
        levels: List::new(Vec::from_array(alloc, levels)?),
    })
}

/// Whether there is a number for each point of a grid, and a job may have the factor.
fn are_numbers(shape: &Shape, factor: u64, numbers: &[i64]) -> bool
    requires { IsShape shape.now }
    ensures { IsTrue result → AreNumbers shape.now factor numbers.now }
{
    numbers.len() == count(&whole(shape)) && factor <= 1 << 20
}

/// Whether the job's own cut cuts its grid.
fn can_be_cut(alloc: Global, job: &Job) -> bool
    requires { IsShape job.now.shape }
    ensures { IsTrue result → cut_fault (parts_of job.now.shape job.now.cut) ≡ None }
{
    cut(alloc, &job.shape, &job.cut).is_ok()
}

/// Whether the planes weigh as wanted, and the wanted cut is chosen.
fn chooses(alloc: Global, row: &Row, job: &Job, state: &Checkpoint) -> Result<(), Fail>
    requires whole { IsWhole job.now }
    requires cut { cut_fault (parts_of job.now.shape job.now.cut) ≡ None }
    requires state { HasWeight job.now state.now }
{
    same(row, &row.planes.len(), &(job.shape.dims as usize))?;
    'planes: for dir in 0..job.shape.dims {
        let found = planes(alloc, job, state, dir)?;
        if let Some(want) = row.planes.get(dir as usize) {
            same(row, &found.as_slice(), want)?;
        }
    }
    let cuts = cut_by_weight(alloc, job, state)?;
    let found = [cuts.x.as_slice(), cuts.y.as_slice(), cuts.z.as_slice()];
    same(row, &found, &row.chosen)
}

fn tries(alloc: Global, row: &Row) -> Result<(), Fail> {
    let shape = shape_of(row.grid);
    let own = own_cut(alloc, &row.own)?;
    let fit = are_numbers(&shape, row.factor, row.numbers);
    let job = job(alloc, shape, own, row.weighed, row.factor)?;
    let state = state(alloc, row.numbers)?;
    if fit && can_be_cut(alloc, &job) {
        return chooses(alloc, row, &job, &state);
    }
    Err(Fail::new(format_args!("{row:?}: nothing can be chosen")))
}

#[test]
fn weights_choose_the_cut(rt: HostRuntime) -> Result<(), Fail> {
    for row in ROWS {
        tries(rt.alloc(), row)?;
    }
    Ok(())
}
