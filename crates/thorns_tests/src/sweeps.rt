//! The sweeps of the thorns' Cell routines, worked out by hand, and beside what each gives at a point.

ghost use Rattle.thorns_tests.specs.Fields.{IsTested};

use crate::fields::{Grid, points, shape_of};
use crate::trials::{Outcome, tried};
use cx_rule::{Routine, mix};
use cx_text::Memory;
use cx_thorn_ca::{CaInit, CaStep, CaZero, LifeInit, LifeStep, LifeZero};
use cx_thorn_pde::{
    DiffFlat, DiffInit, DiffScalar, DiffStep, WaveCopy, WaveFlat, WaveInit, WaveScalar, WaveStep,
};
use std::test::Fail;
use test_cases::same;

const MOST: i64 = i64::MAX;

/// A routine of an automaton.
#[derive(Clone, Copy, Debug)]
enum Automaton {
    CaInit,
    CaStep,
    CaZero,
    LifeInit,
    LifeStep,
    LifeZero,
}

/// A routine of a wave.
#[derive(Clone, Copy, Debug)]
enum Wave {
    Init,
    Step,
    Flat,
    Copy,
    Scalar,
}

/// A routine of heat.
#[derive(Clone, Copy, Debug)]
enum Heat {
    Init,
    Step,
    Flat,
    Scalar,
}

/// A routine.
#[derive(Clone, Copy, Debug)]
enum Swept {
    Automaton(Automaton),
    Wave(Wave),
    Heat(Heat),
}

const CA_INIT: Swept = Swept::Automaton(Automaton::CaInit);

const CA_STEP: Swept = Swept::Automaton(Automaton::CaStep);

const CA_ZERO: Swept = Swept::Automaton(Automaton::CaZero);

const LIFE_INIT: Swept = Swept::Automaton(Automaton::LifeInit);

const LIFE_STEP: Swept = Swept::Automaton(Automaton::LifeStep);

const LIFE_ZERO: Swept = Swept::Automaton(Automaton::LifeZero);

const WAVE_INIT: Swept = Swept::Wave(Wave::Init);

const WAVE_STEP: Swept = Swept::Wave(Wave::Step);

const WAVE_FLAT: Swept = Swept::Wave(Wave::Flat);

const WAVE_COPY: Swept = Swept::Wave(Wave::Copy);

const WAVE_SCALAR: Swept = Swept::Wave(Wave::Scalar);

const HEAT_INIT: Swept = Swept::Heat(Heat::Init);

const HEAT_STEP: Swept = Swept::Heat(Heat::Step);

const HEAT_FLAT: Swept = Swept::Heat(Heat::Flat);

const HEAT_SCALAR: Swept = Swept::Heat(Heat::Scalar);

/// What came of a sweep, and the current numbers behind it.
type Came = (Outcome, Vec<i64>);

/// What comes of the sweep of a routine, if it could be made.
fn made_came<R: Routine>(
    rt: &HostRuntime,
    made: Result<R, Memory>,
    grid: Grid,
    params: &[i64; 4],
    numbers: &[i64],
) -> Result<Came, Fail>
    requires { (routine : R) → IsTested (R.spec_of routine) }
{
    let routine = made?;
    tried(rt, &routine, grid, params, numbers)
}

fn automaton_came(
    rt: &HostRuntime,
    routine: Automaton,
    grid: Grid,
    params: &[i64; 4],
    numbers: &[i64],
) -> Result<Came, Fail> {
    let alloc = rt.alloc();
    match routine {
        Automaton::CaInit => made_came(rt, CaInit::new(alloc), grid, params, numbers),
        Automaton::CaStep => made_came(rt, CaStep::new(alloc), grid, params, numbers),
        Automaton::CaZero => made_came(rt, CaZero::new(alloc), grid, params, numbers),
        Automaton::LifeInit => made_came(rt, LifeInit::new(alloc), grid, params, numbers),
        Automaton::LifeStep => made_came(rt, LifeStep::new(alloc), grid, params, numbers),
        Automaton::LifeZero => made_came(rt, LifeZero::new(alloc), grid, params, numbers),
    }
}

fn wave_came(
    rt: &HostRuntime,
    routine: Wave,
    grid: Grid,
    params: &[i64; 4],
    numbers: &[i64],
) -> Result<Came, Fail> {
    let alloc = rt.alloc();
    match routine {
        Wave::Init => made_came(rt, WaveInit::new(alloc), grid, params, numbers),
        Wave::Step => made_came(rt, WaveStep::new(alloc), grid, params, numbers),
        Wave::Flat => made_came(rt, WaveFlat::new(alloc), grid, params, numbers),
        Wave::Copy => made_came(rt, WaveCopy::new(alloc), grid, params, numbers),
        Wave::Scalar => made_came(rt, WaveScalar::new(alloc), grid, params, numbers),
    }
}

fn heat_came(
    rt: &HostRuntime,
    routine: Heat,
    grid: Grid,
    params: &[i64; 4],
    numbers: &[i64],
) -> Result<Came, Fail> {
    let alloc = rt.alloc();
    match routine {
        Heat::Init => made_came(rt, DiffInit::new(alloc), grid, params, numbers),
        Heat::Step => made_came(rt, DiffStep::new(alloc), grid, params, numbers),
        Heat::Flat => made_came(rt, DiffFlat::new(alloc), grid, params, numbers),
        Heat::Scalar => made_came(rt, DiffScalar::new(alloc), grid, params, numbers),
    }
}

/// What comes of a sweep of a grid with these numbers, level after level.
fn came(
    rt: &HostRuntime,
    routine: Swept,
    grid: Grid,
    params: &[i64; 4],
    numbers: &[i64],
) -> Result<Came, Fail> {
    match routine {
        Swept::Automaton(routine) => automaton_came(rt, routine, grid, params, numbers),
        Swept::Wave(routine) => wave_came(rt, routine, grid, params, numbers),
        Swept::Heat(routine) => heat_came(rt, routine, grid, params, numbers),
    }
}

/// A routine, a grid, the parameters, and the numbers of each level; what comes of it, and the current numbers then.
type Row = (
    Swept,
    Grid,
    [i64; 4],
    [&'static [i64]; 3],
    Outcome,
    &'static [i64],
);

/// Sweeps worked out by hand.
const BY_HAND: &[Row] = &[
    // 110 is 0b0110_1110: cells 110, 101, 011, 010 and 001 give 1, and 111, 100 and 000 give 0.
    // 101 1, 011 1, 111 0, 110 1, 100 0, between two edges that stay.
    (
        CA_STEP,
        Grid::Line(7),
        [110, 0, 0, 0],
        [&[1, 0, 1, 1, 1, 0, 0], &[], &[]],
        Outcome::Agrees,
        &[1, 1, 1, 0, 1, 0, 0],
    ),
    // The same as a ring: 010 1 at the first cell and 001 1 at the last one. The ghosts, a 0 and a 1, stay.
    (
        CA_STEP,
        Grid::Ring(7),
        [110, 0, 0, 0],
        [&[1, 0, 1, 1, 1, 0, 0], &[], &[]],
        Outcome::Agrees,
        &[0, 1, 1, 1, 0, 1, 0, 1, 1],
    ),
    // A blinker: the middle has 2 neighbours and stays, its left and right have 3 and are born, its ends have 1 and die.
    (
        LIFE_STEP,
        Grid::Sheet(5, 5),
        [12, 8, 0, 0],
        [
            &[
                0, 0, 0, 0, 0, //
                0, 0, 1, 0, 0, //
                0, 0, 1, 0, 0, //
                0, 0, 1, 0, 0, //
                0, 0, 0, 0, 0, //
            ],
            &[],
            &[],
        ],
        Outcome::Agrees,
        &[
            0, 0, 0, 0, 0, //
            0, 0, 0, 0, 0, //
            0, 1, 1, 1, 0, //
            0, 0, 0, 0, 0, //
            0, 0, 0, 0, 0, //
        ],
    ),
    // Quarters of bends: 0 + 1 - 200 is -199, a quarter of it -50, and 100 - 50 is 50; 100 + 0 - 2 is 98, a quarter 24, and
    // 1 + 24 is 25; 1 - 1 - 0 is 0.
    (
        HEAT_STEP,
        Grid::Line(5),
        [64, 0, 0, 0],
        [&[0, 100, 1, 0, -1], &[], &[]],
        Outcome::Agrees,
        &[0, 50, 25, 0, -1],
    ),
    // The one inner point: 1 + 2 along x, 3 + 4 along y and 5 + 6 along z are 21, less six times 10 is -39, and 10 - 39 is -29.
    (
        HEAT_STEP,
        Grid::Block(3, 3),
        [256, 0, 0, 0],
        [
            &[
                7, 7, 7, 7, 5, 7, 7, 7, 7, //
                7, 3, 7, 1, 10, 2, 7, 4, 7, //
                7, 7, 7, 7, 6, 7, 7, 7, 7, //
            ],
            &[],
            &[],
        ],
        Outcome::Agrees,
        &[
            7, 7, 7, 7, 5, 7, 7, 7, 7, //
            7, 3, 7, 1, -29, 2, 7, 4, 7, //
            7, 7, 7, 7, 6, 7, 7, 7, 7, //
        ],
    ),
    // Two inner points, and halves of bends. At 10: 1 - 3, 2 + 4 and 0 + 6 are 10, less 60 is -50, and 10 - 25 is -15. At -3: 10 + 8,
    // 5 - 1 and 7 + 2 are 31, and 18 more 49, half of it 24, and -3 + 24 is 21.
    (
        HEAT_STEP,
        Grid::Block(4, 3),
        [128, 0, 0, 0],
        [
            &[
                9, 9, 9, 9, 9, 0, 7, 9, 9, 9, 9, 9, //
                9, 2, 5, 9, 1, 10, -3, 8, 9, 4, -1, 9, //
                9, 9, 9, 9, 9, 6, 2, 9, 9, 9, 9, 9, //
            ],
            &[],
            &[],
        ],
        Outcome::Agrees,
        &[
            9, 9, 9, 9, 9, 0, 7, 9, 9, 9, 9, 9, //
            9, 2, 5, 9, 1, -15, 21, 8, 9, 4, -1, 9, //
            9, 9, 9, 9, 9, 6, 2, 9, 9, 9, 9, 9, //
        ],
    ),
    // Twice the last number, less the one before it, and the bend of the last numbers: 16 - 3 - 16 is -3, 0 - 5 + 8 is 3, and
    // 0 + 1 + 0 is 1.
    (
        WAVE_STEP,
        Grid::Line(5),
        [256, 0, 0, 0],
        [&[7, 7, 7, 7, 7], &[0, 8, 0, 0, 0], &[0, 3, 5, -1, 0]],
        Outcome::Agrees,
        &[7, -3, 3, 1, 7],
    ),
    // Twice the greatest number of 64 bits leaves these, and no bend is added. The first inner point would have 2.
    (
        WAVE_STEP,
        Grid::Line(5),
        [0, 0, 0, 0],
        [&[7, 7, 7, 7, 7], &[0, 1, MOST, 0, 0], &[0, 0, 0, 0, 0]],
        Outcome::Overflows,
        &[7, 7, 7, 7, 7],
    ),
    // Each point of the edge takes the nearest number inside.
    (
        WAVE_FLAT,
        Grid::Sheet(4, 4),
        [0, 0, 0, 0],
        [
            &[
                9, 9, 9, 9, //
                9, 1, 2, 9, //
                9, 3, 4, 9, //
                9, 9, 9, 9, //
            ],
            &[],
            &[],
        ],
        Outcome::Agrees,
        &[
            1, 1, 2, 2, //
            1, 1, 2, 2, //
            3, 3, 4, 4, //
            3, 3, 4, 4, //
        ],
    ),
];

/// Some numbers, and 0 behind them.
fn push_level(numbers: &mut Vec<i64>, level: &[i64], count: usize) -> Result<(), Fail> {
    'places: for place in 0..count {
        numbers.push(level.get(place).copied().unwrap_or(0))?;
    }
    Ok(())
}

/// The numbers of three levels, level after level.
fn joined(rt: &HostRuntime, grid: Grid, levels: &[&[i64]; 3]) -> Result<Vec<i64>, Fail> {
    let count = points(&shape_of(grid));
    let mut numbers = Vec::new(rt.alloc());
    'levels: for level in levels {
        push_level(&mut numbers, level, count)?;
    }
    Ok(numbers)
}

/// A sweep comes to what its row says.
fn sweep_gives(rt: &HostRuntime, row: &Row) -> Result<(), Fail> {
    let (routine, grid, params, levels, outcome, want) = *row;
    let numbers = joined(rt, grid, &levels)?;
    let (found, shown) = came(rt, routine, grid, &params, &numbers)?;
    let found = (found, shown.as_slice());
    same(&(routine, grid, params), &found, &(outcome, want))
}

#[test]
fn sweeps_give_what_is_worked_out_by_hand(rt: HostRuntime) -> Result<(), Fail> {
    for row in BY_HAND {
        sweep_gives(&rt, row)?;
    }
    Ok(())
}

/// Which numbers are drawn.
#[derive(Clone, Copy, Debug)]
enum Draw {
    /// As many 0 as others.
    Cells,
    /// 20 bits.
    Small,
    /// 20 bits in every other row, and in those between numbers near 2^62.
    Rows,
    /// 64 bits.
    All,
}

fn small(drawn: u64) -> i64 {
    (drawn / (1 << 44)) as i64 - 524288
}

/// A number of 64 bits.
fn of_all(drawn: u64) -> i64 {
    let half = (drawn / 2) as i64;
    if drawn % 2 == 0 { half } else { -1 - half }
}

fn cell(drawn: u64) -> i64 {
    match drawn % 4 {
        0 | 1 => 0,
        2 => 1,
        _ => of_all(drawn),
    }
}

/// A number that is drawn for a place of a row.
fn drawn_in(draw: Draw, drawn: u64, row: usize) -> i64 {
    match draw {
        Draw::Cells => cell(drawn),
        Draw::Small => small(drawn),
        Draw::All => of_all(drawn),
        Draw::Rows => {
            if row % 2 == 0 {
                small(drawn)
            } else {
                (1 << 62) - (drawn / (1 << 50)) as i64
            }
        }
    }
}

/// Numbers of three levels that are drawn by a seed.
fn drawn(rt: &HostRuntime, grid: Grid, draw: Draw, seed: u64) -> Result<Vec<i64>, Fail> {
    let shape = shape_of(grid);
    let (count, width) = (points(&shape), shape.n.x.unsigned_abs() as usize);
    let mut numbers = Vec::new(rt.alloc());
    'places: for place in 0..3 * count {
        let row = place
            .checked_rem(count)
            .and_then(|at| at.checked_div(width))
            .unwrap_or(0);
        numbers.push(drawn_in(draw, mix(seed, place as u64), row))?;
    }
    Ok(numbers)
}

/// What comes of a sweep of a grid with drawn numbers.
fn came_of(
    rt: &HostRuntime,
    routine: Swept,
    grid: Grid,
    params: &[i64; 4],
    draw: Draw,
    seed: u64,
) -> Result<Outcome, Fail> {
    let numbers = drawn(rt, grid, draw, seed)?;
    let (outcome, _shown) = came(rt, routine, grid, params, &numbers)?;
    Ok(outcome)
}

/// A routine, a grid, the parameters, and which numbers are drawn; and what comes of it.
type Drawn = (Swept, Grid, [i64; 4], Draw, Outcome);

const DRAWN: &[Drawn] = &[
    (
        CA_INIT,
        Grid::Line(9),
        [5, 0, 0, 0],
        Draw::Cells,
        Outcome::Agrees,
    ),
    (
        CA_INIT,
        Grid::Ring(6),
        [-1, 3, 0, 0],
        Draw::Cells,
        Outcome::Agrees,
    ),
    (
        CA_STEP,
        Grid::Line(40),
        [110, 0, 0, 0],
        Draw::Cells,
        Outcome::Agrees,
    ),
    (
        CA_STEP,
        Grid::Tube(6, 5),
        [30, 0, 0, 0],
        Draw::All,
        Outcome::Agrees,
    ),
    (
        CA_ZERO,
        Grid::Line(5),
        [0, 0, 0, 0],
        Draw::All,
        Outcome::Agrees,
    ),
    (
        LIFE_INIT,
        Grid::Sheet(5, 6),
        [0, 0, 0, 0],
        Draw::Cells,
        Outcome::Agrees,
    ),
    (
        LIFE_INIT,
        Grid::Tube(4, 5),
        [1, 9, 0, 0],
        Draw::Cells,
        Outcome::Agrees,
    ),
    (
        LIFE_STEP,
        Grid::Line(12),
        [12, 8, 0, 0],
        Draw::Cells,
        Outcome::Agrees,
    ),
    (
        LIFE_STEP,
        Grid::Sheet(11, 7),
        [12, 8, 0, 0],
        Draw::Cells,
        Outcome::Agrees,
    ),
    (
        LIFE_STEP,
        Grid::Tower(6, 4),
        [-29, 77, 0, 0],
        Draw::All,
        Outcome::Agrees,
    ),
    (
        LIFE_ZERO,
        Grid::Sheet(5, 4),
        [0, 0, 0, 0],
        Draw::Cells,
        Outcome::Agrees,
    ),
    (
        WAVE_INIT,
        Grid::Sheet(4, 3),
        [2, 8, 0, 0],
        Draw::Small,
        Outcome::Agrees,
    ),
    (
        WAVE_INIT,
        Grid::Sheet(4, 3),
        [2, i64::MIN, 0, 0],
        Draw::Small,
        Outcome::Overflows,
    ),
    (
        WAVE_STEP,
        Grid::Line(20),
        [100, 0, 0, 0],
        Draw::Small,
        Outcome::Agrees,
    ),
    (
        WAVE_STEP,
        Grid::Sheet(9, 8),
        [64, 0, 0, 0],
        Draw::Rows,
        Outcome::Agrees,
    ),
    (
        WAVE_STEP,
        Grid::Tube(8, 7),
        [64, 0, 0, 0],
        Draw::Rows,
        Outcome::Agrees,
    ),
    (
        WAVE_STEP,
        Grid::Tower(6, 5),
        [32, 0, 0, 0],
        Draw::Rows,
        Outcome::Agrees,
    ),
    (
        WAVE_STEP,
        Grid::Sheet(6, 5),
        [64, 0, 0, 0],
        Draw::All,
        Outcome::Overflows,
    ),
    (
        WAVE_FLAT,
        Grid::Block(5, 4),
        [0, 0, 0, 0],
        Draw::All,
        Outcome::Agrees,
    ),
    (
        WAVE_COPY,
        Grid::Sheet(6, 5),
        [0, 0, 0, 0],
        Draw::All,
        Outcome::Agrees,
    ),
    (
        WAVE_SCALAR,
        Grid::Tube(6, 5),
        [-7, 0, 0, 0],
        Draw::All,
        Outcome::Agrees,
    ),
    (
        HEAT_INIT,
        Grid::Block(4, 3),
        [3, 1000, 0, 5],
        Draw::Small,
        Outcome::Agrees,
    ),
    (
        HEAT_STEP,
        Grid::Ring(20),
        [-300, 0, 0, 0],
        Draw::Small,
        Outcome::Agrees,
    ),
    (
        HEAT_STEP,
        Grid::Sheet(9, 8),
        [64, 0, 0, 0],
        Draw::Rows,
        Outcome::Agrees,
    ),
    (
        HEAT_STEP,
        Grid::Tower(6, 5),
        [32, 0, 0, 0],
        Draw::Rows,
        Outcome::Agrees,
    ),
    (
        HEAT_STEP,
        Grid::Tube(6, 5),
        [256, 0, 0, 0],
        Draw::All,
        Outcome::Overflows,
    ),
    (
        HEAT_FLAT,
        Grid::Tower(5, 4),
        [0, 0, 0, 0],
        Draw::All,
        Outcome::Agrees,
    ),
    (
        HEAT_SCALAR,
        Grid::Line(5),
        [MOST, 0, 0, 0],
        Draw::All,
        Outcome::Agrees,
    ),
];

/// A sweep of drawn numbers comes to what its row says.
fn sweep_agrees(rt: &HostRuntime, row: &Drawn) -> Result<(), Fail> {
    let (routine, grid, params, draw, outcome) = *row;
    let found = came_of(rt, routine, grid, &params, draw, 7)?;
    same(&(routine, grid, draw), &found, &outcome)
}

#[test]
fn sweeps_give_what_each_point_gives(rt: HostRuntime) -> Result<(), Fail> {
    for row in DRAWN {
        sweep_agrees(&rt, row)?;
    }
    Ok(())
}

/// Widths of zones, around those of a whole number of machine words.
const WIDTHS: &[u8] = &[1, 7, 8, 9, 33];

/// What comes of a step of cells in grids with zones of a width, for each of these seeds.
fn stepped(rt: &HostRuntime, width: u8, seed: u64) -> Result<[Outcome; 5], Fail> {
    let (ca, life) = ([110, 0, 0, 0], [12, 8, 0, 0]);
    let open = width.saturating_add(2);
    let at = |routine, grid, params| came_of(rt, routine, grid, params, Draw::Cells, seed);
    Ok([
        at(CA_STEP, Grid::Line(open), &ca)?,
        at(CA_STEP, Grid::Ring(width), &ca)?,
        at(LIFE_STEP, Grid::Sheet(open, 5), &life)?,
        at(LIFE_STEP, Grid::Sheet(open, 6), &life)?,
        at(LIFE_STEP, Grid::Tube(width, 5), &life)?,
    ])
}

/// Each of these steps agrees.
fn steps_agree(rt: &HostRuntime, width: u8, seed: u64) -> Result<(), Fail> {
    let found = stepped(rt, width, seed)?;
    same(
        &("width", width, "seed", seed),
        &found,
        &[Outcome::Agrees; 5],
    )
}

#[test]
fn cells_step_alike_at_each_width(rt: HostRuntime) -> Result<(), Fail> {
    for width in WIDTHS {
        steps_agree(&rt, *width, 1)?;
        steps_agree(&rt, *width, 2)?;
        steps_agree(&rt, *width, 3)?;
    }
    Ok(())
}
