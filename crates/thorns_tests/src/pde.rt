//! The equations' routines at a point: what they read and take, and their numbers, worked out by hand.

use crate::points::{beside, here, in_ring, nothing, number, read, started, taken, twice};
use cx_rule::{Cells, Meter, Routine};
use cx_thorn_pde::{
    ControlSet, ControlSpin, DiffFlat, DiffInit, DiffScalar, DiffStep, DiffSum, WaveCopy, WaveFlat,
    WaveInit, WaveInit1, WaveScalar, WaveStep, WaveSum,
};
use std::test::Fail;
use test_cases::same;

const LEAST: i64 = i64::MIN;

const MOST: i64 = i64::MAX;

/// The place in the ring, the pattern, the amount, the start and the seed; and the start there.
type Start = (u8, [i64; 4], Option<i64>);

const STARTS: &[Start] = &[
    (2, [0, 8, 2, 0], Some(8)),
    (1, [0, 8, 2, 0], Some(0)),
    (5, [1, 8, 2, 0], Some(8)),
    (0, [1, MOST, 0, 0], Some(MOST)),
    (2, [2, 8, 0, 0], Some(8)),
    (1, [2, 8, 0, 0], Some(-8)),
    (4, [2, LEAST, 0, 0], Some(LEAST)),
    (3, [2, LEAST, 0, 0], None),
    (0, [3, -1, 0, 7], Some(0)),
    (5, [3, 8, 0, 1], Some(3)),
    (1, [3, MOST, 0, 0], Some(7070836379803831727)),
    (5, [3, MOST, 0, 1], Some(8195237237126968761)),
    (3, [3, MOST, 0, 42], Some(5139283748462763858)),
    (2, [3, MOST, 0, MOST], Some(8217944796589914439)),
    (4, [3, MOST, 0, -1], Some(7862637804313477842)),
];

/// The starts of a wave and of heat.
fn starts(rt: &HostRuntime, x: u8, params: [i64; 4]) -> Result<[Option<i64>; 2], Fail> {
    let wave = WaveInit1::new(rt.alloc())?;
    let heat = DiffInit::new(rt.alloc())?;
    Ok([
        started(rt, &wave, x % 8, params)?,
        started(rt, &heat, x % 8, params)?,
    ])
}

/// Both start as a row of the table says.
fn both_start(rt: &HostRuntime, start: &Start) -> Result<(), Fail> {
    let (x, params, want) = *start;
    let found = starts(rt, x, params)?;
    same(&("point", x, "parameters", params), &found, &[want, want])
}

#[test]
fn fields_start_by_their_patterns(rt: HostRuntime) -> Result<(), Fail> {
    for start in STARTS {
        both_start(&rt, start)?;
    }
    Ok(())
}

#[test]
fn a_wave_starts_at_two_levels(rt: HostRuntime) -> Result<(), Fail> {
    let alloc = rt.alloc();
    let wave = WaveInit::new(alloc)?;
    let w = nothing(alloc, 1)?;
    let at = in_ring(alloc, 1, &[2, 8, 0, 0])?;
    let mut out = Cells::new(alloc, 2)?;
    let mut meter = Meter::new(&rt);
    let done = wave.point(&w, &at, &mut out, &mut meter).is_ok();
    let found = (done, out.get(0), out.get(1), meter.count());
    same(
        &"both levels, and one point computed",
        &found,
        &(true, -8, -8, 1),
    )
}

/// The last values to the left, at and to the right of a point, the value before, and the factor; and the next value.
type WaveStepped = ([i64; 3], i64, i64, Option<i64>);

const WAVES: &[WaveStepped] = &[
    ([8, 0, 0], 0, 256, Some(8)),
    ([0, 8, 0], 8, 256, Some(-8)),
    // a 256th of -1 is -1, rounded down
    ([0, 0, -1], 0, 1, Some(-1)),
    // twice the greatest number leaves 64 bits, but not where it is taken off again
    ([MOST, MOST, MOST], MOST, 256, Some(MOST)),
    ([MOST, MOST, MOST], 0, 256, None),
    ([LEAST, LEAST, LEAST], LEAST, MOST, Some(LEAST)),
    ([0, LEAST, 0], 0, 128, Some(LEAST)),
    ([0, LEAST, 0], LEAST, 256, None),
];

/// The next value of a wave.
fn waved(rt: &HostRuntime, row: [i64; 3], before: i64, factor: i64) -> Result<Option<i64>, Fail> {
    let wave = WaveStep::new(rt.alloc())?;
    let w = twice(rt.alloc(), row, before)?;
    let at = in_ring(rt.alloc(), 0, &[factor])?;
    number(rt, &wave, &w, &at)
}

/// The values to the left, at and to the right of a point, and the factor; and the next value.
type HeatStepped = ([i64; 3], i64, Option<i64>);

const HEATS: &[HeatStepped] = &[
    ([0, 100, 1], 64, Some(50)),
    ([0, 0, -1], 1, Some(-1)),
    ([MOST, MOST, MOST], 256, Some(MOST)),
    ([LEAST, LEAST, LEAST], MOST, Some(LEAST)),
    ([MOST, MOST, 0], 256, Some(0)),
    ([MOST, 0, MOST], 128, Some(MOST)),
    ([MOST, 1, MOST], 256, None),
];

/// The next value of heat.
fn heated(rt: &HostRuntime, row: [i64; 3], factor: i64) -> Result<Option<i64>, Fail> {
    let heat = DiffStep::new(rt.alloc())?;
    let w = beside(rt.alloc(), row)?;
    let at = in_ring(rt.alloc(), 0, &[factor])?;
    number(rt, &heat, &w, &at)
}

/// Numbers that are handed on as they are.
const NUMBERS: &[i64] = &[LEAST, -3, 0, 1, MOST];

/// What a wave's edges and its sum take from the point that they read.
fn wave_reads(rt: &HostRuntime, value: i64) -> Result<[Option<i64>; 3], Fail> {
    let flat = read(rt, &WaveFlat::new(rt.alloc())?, value)?;
    let copy = read(rt, &WaveCopy::new(rt.alloc())?, value)?;
    let sum = read(rt, &WaveSum::new(rt.alloc())?, value)?;
    Ok([flat, copy, sum])
}

/// What the edge of heat and its sum take from the point that they read.
fn heat_reads(rt: &HostRuntime, value: i64) -> Result<[Option<i64>; 2], Fail> {
    let flat = read(rt, &DiffFlat::new(rt.alloc())?, value)?;
    let sum = read(rt, &DiffSum::new(rt.alloc())?, value)?;
    Ok([flat, sum])
}

/// What the edges take from their parameter, and how many turns are set.
fn set_by_parameters(rt: &HostRuntime, param: i64) -> Result<[Option<i64>; 3], Fail> {
    let wave = taken(rt, &WaveScalar::new(rt.alloc())?, param)?;
    let heat = taken(rt, &DiffScalar::new(rt.alloc())?, param)?;
    let turns = taken(rt, &ControlSet::new(rt.alloc())?, param)?;
    Ok([wave, heat, turns])
}

/// A number is handed on by each of them.
fn handed_on(rt: &HostRuntime, number: i64) -> Result<(), Fail> {
    let waves = wave_reads(rt, number)?;
    same(&("a wave reads", number), &waves, &[Some(number); 3])?;
    let heat = heat_reads(rt, number)?;
    same(&("heat reads", number), &heat, &[Some(number); 2])?;
    let set = set_by_parameters(rt, number)?;
    same(&("the parameter", number), &set, &[Some(number); 3])
}

#[test]
fn edges_sums_and_turns_hand_numbers_on(rt: HostRuntime) -> Result<(), Fail> {
    for number in NUMBERS {
        handed_on(&rt, *number)?;
    }
    Ok(())
}

/// The turns that are left, and how many are dropped; and the turns that are left then.
type Spin = (i64, i64, Option<i64>);

const SPINS: &[Spin] = &[
    (3, 1, Some(2)),
    (0, 1, Some(-1)),
    (LEAST, 0, Some(LEAST)),
    (LEAST, 1, None),
    (-1, LEAST, Some(MOST)),
    (0, LEAST, None),
];

/// The turns that are left.
fn spun(rt: &HostRuntime, count: i64, drop: i64) -> Result<Option<i64>, Fail> {
    let spin = ControlSpin::new(rt.alloc())?;
    let w = here(rt.alloc(), count)?;
    let at = in_ring(rt.alloc(), 0, &[drop])?;
    number(rt, &spin, &w, &at)
}

fn wave_steps(rt: &HostRuntime, step: &WaveStepped) -> Result<(), Fail> {
    let (row, before, factor, want) = *step;
    let found = waved(rt, row, before, factor)?;
    same(&("wave", row, before, "factor", factor), &found, &want)
}

fn heat_steps(rt: &HostRuntime, step: &HeatStepped) -> Result<(), Fail> {
    let (row, factor, want) = *step;
    let found = heated(rt, row, factor)?;
    same(&("heat", row, "factor", factor), &found, &want)
}

fn turns_drop(rt: &HostRuntime, spin: &Spin) -> Result<(), Fail> {
    let (count, drop, want) = *spin;
    let found = spun(rt, count, drop)?;
    same(&("turns", count, "dropped", drop), &found, &want)
}

#[test]
fn waves_heat_and_turns_step_exactly(rt: HostRuntime) -> Result<(), Fail> {
    for step in WAVES {
        wave_steps(&rt, step)?;
    }
    for step in HEATS {
        heat_steps(&rt, step)?;
    }
    for spin in SPINS {
        turns_drop(&rt, spin)?;
    }
    Ok(())
}
