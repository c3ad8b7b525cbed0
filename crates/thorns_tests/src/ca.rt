//! The automata's routines at a point: what they read and take, and their numbers, worked out by hand.

ghost use Rattle.std.specs.Prelude.{◌≤◌, ◌<◌};

use crate::points::{around, beside, in_ring, in_sheet, nothing, number, read, unread};
use cx_thorn_ca::{CaCount, CaInit, CaStep, CaZero, LifeCount, LifeInit, LifeStep, LifeZero};
use std::test::Fail;
use test_cases::same;

/// The seed and the start; and the first row.
type FirstRow = (i64, i64, [i64; 8]);

const FIRST_ROWS: &[FirstRow] = &[
    (-1, 3, [0, 0, 0, 1, 0, 0, 0, 0]),
    (i64::MIN, i64::MIN, [0; 8]),
    (1, 0, [1, 1, 1, 0, 1, 1, 0, 1]),
    (7, 0, [0, 1, 0, 0, 1, 0, 1, 0]),
    (i64::MAX, 0, [1, 1, 1, 0, 1, 1, 1, 1]),
];

/// The first cell at a place of the ring.
fn first_cell(rt: &HostRuntime, x: u8, seed: i64, start: i64) -> Result<i64, Fail> {
    let first = CaInit::new(rt.alloc())?;
    let w = nothing(rt.alloc(), 1)?;
    let at = in_ring(rt.alloc(), x % 8, &[seed, start])?;
    Ok(number(rt, &first, &w, &at)?.unwrap_or(-1))
}

fn first_row(rt: &HostRuntime, seed: i64, start: i64) -> Result<Vec<i64>, Fail> {
    let mut row = Vec::new(rt.alloc());
    for x in 0..8u8 {
        row.push(first_cell(rt, x, seed, start)?)?;
    }
    Ok(row)
}

/// The rule's number, and a cell between its neighbours; and the next cell.
type RowStep = (i64, [i64; 3], i64);

const STEPS: &[RowStep] = &[
    (90, [0, 0, 1], 1),
    (90, [0, 1, 0], 0),
    (90, [1, 0, 0], 1),
    (90, [1, 0, 1], 0),
    (90, [1, 1, 0], 1),
    (2, [0, 0, 1], 1),
    (255 - 32, [i64::MIN, 0, i64::MAX], 0),
    (i64::MIN, [1, 1, 1], 0),
    (-1, [0, 0, 0], 1),
];

/// The next of a cell between its neighbours.
fn next_in_row(rt: &HostRuntime, rule: i64, row: [i64; 3]) -> Result<Option<i64>, Fail> {
    let step = CaStep::new(rt.alloc())?;
    let w = beside(rt.alloc(), row)?;
    let at = in_ring(rt.alloc(), 0, &[rule])?;
    number(rt, &step, &w, &at)
}

/// A cell of a sheet amid its neighbours; and the next cell by births at 3 and survivals at 2 and 3.
type SheetStep = ([[i64; 3]; 3], i64);

const LIVES: &[SheetStep] = &[
    ([[1, 1, 1], [0, 0, 0], [0, 0, 0]], 1),
    ([[0, 0, 0], [1, 1, 1], [0, 0, 0]], 1),
    ([[1, 1, 1], [1, 1, 0], [0, 0, 0]], 0),
    ([[1, 0, 0], [0, 0, 0], [0, 0, 1]], 0),
    ([[i64::MIN, 0, 0], [-1, 0, 0], [0, 0, i64::MAX]], 1),
    ([[0, 0, 0], [0, i64::MIN, 0], [0, 0, 1]], 0),
];

/// The next of a cell amid its neighbours.
fn next_cell(rt: &HostRuntime, rows: [[i64; 3]; 3]) -> Result<Option<i64>, Fail> {
    let step = LifeStep::new(rt.alloc())?;
    let w = around(rt.alloc(), rows)?;
    let at = in_sheet(rt.alloc(), 0, 0, [12, 8])?;
    number(rt, &step, &w, &at)
}

/// A cell of a row steps as a row of the table says.
fn row_steps(rt: &HostRuntime, step: &RowStep) -> Result<(), Fail> {
    let (rule, row, want) = *step;
    let next = next_in_row(rt, rule, row)?;
    same(&("rule", rule, "row", row), &next, &Some(want))
}

/// A cell of a sheet steps as a row of the table says.
fn sheet_steps(rt: &HostRuntime, step: &SheetStep) -> Result<(), Fail> {
    let (rows, want) = *step;
    let next = next_cell(rt, rows)?;
    same(&("rows", rows), &next, &Some(want))
}

#[test]
fn cells_step_by_their_rules(rt: HostRuntime) -> Result<(), Fail> {
    for step in STEPS {
        row_steps(&rt, step)?;
    }
    for step in LIVES {
        sheet_steps(&rt, step)?;
    }
    Ok(())
}

/// The cell at a point of a sheet that closes round itself.
fn cell(sheet: &[i64], x: u8, y: u8) -> i64 {
    let place = 8 * (y % 8) + x % 8;
    sheet.get(place as usize).copied().unwrap_or(0)
}

/// Three cells of a sheet in a row, the first of them at a point.
fn three(sheet: &[i64], x: u8, y: u8) -> [i64; 3]
    requires { x ≤ 16 }
{
    [
        cell(sheet, x, y),
        cell(sheet, x + 1, y),
        cell(sheet, x + 2, y),
    ]
}

/// The cells of a sheet around a point.
fn rows_around(sheet: &[i64], x: u8, y: u8) -> [[i64; 3]; 3]
    requires columns { x < 8 }
    requires rows { y < 8 }
{
    [
        three(sheet, x + 7, y + 7),
        three(sheet, x + 7, y),
        three(sheet, x + 7, y + 1),
    ]
}

/// The next of a sheet's cells at a place.
fn next_at(rt: &HostRuntime, sheet: &[i64], place: u8) -> Result<i64, Fail> {
    let rows = rows_around(sheet, place % 8, place / 8 % 8);
    Ok(next_cell(rt, rows)?.unwrap_or(-1))
}

fn next_sheet(rt: &HostRuntime, sheet: &[i64]) -> Result<Vec<i64>, Fail> {
    let mut next = Vec::new(rt.alloc());
    for place in 0..64u8 {
        next.push(next_at(rt, sheet, place)?)?;
    }
    Ok(next)
}

/// The first cell at a place of the sheet.
fn first_life(rt: &HostRuntime, place: u8, pattern: i64, seed: i64) -> Result<i64, Fail> {
    let first = LifeInit::new(rt.alloc())?;
    let w = nothing(rt.alloc(), 2)?;
    let at = in_sheet(rt.alloc(), place % 8, place / 8 % 8, [pattern, seed])?;
    Ok(number(rt, &first, &w, &at)?.unwrap_or(-1))
}

fn first_sheet(rt: &HostRuntime, pattern: i64, seed: i64) -> Result<Vec<i64>, Fail> {
    let mut sheet = Vec::new(rt.alloc());
    for place in 0..64u8 {
        sheet.push(first_life(rt, place, pattern, seed)?)?;
    }
    Ok(sheet)
}

/// The glider four steps on, one cell to the right and down.
const GLIDER: [i64; 64] = [
    0, 0, 0, 0, 0, 0, 0, 0, //
    0, 0, 1, 0, 0, 0, 0, 0, //
    0, 0, 0, 1, 0, 0, 0, 0, //
    0, 1, 1, 1, 0, 0, 0, 0, //
    0, 0, 0, 0, 0, 0, 0, 0, //
    0, 0, 0, 0, 0, 0, 0, 0, //
    0, 0, 0, 0, 0, 0, 0, 0, //
    0, 0, 0, 0, 0, 0, 0, 0, //
];

#[test]
fn a_glider_moves_by_one_cell_in_four_steps(rt: HostRuntime) -> Result<(), Fail> {
    let mut sheet = first_sheet(&rt, 0, 0)?;
    for _ in 0..4 {
        sheet = next_sheet(&rt, &sheet)?;
    }
    same(&"after four steps", &sheet.as_slice(), &GLIDER.as_slice())
}

/// A row starts as a row of the table says.
fn row_starts(rt: &HostRuntime, first: &FirstRow) -> Result<(), Fail> {
    let (seed, start, want) = *first;
    let row = first_row(rt, seed, start)?;
    same(
        &("seed", seed, "start", start),
        &row.as_slice(),
        &want.as_slice(),
    )
}

/// The first row of a sheet with the seed -1.
fn sheet_starts(rt: &HostRuntime) -> Result<(), Fail> {
    let sheet = first_sheet(rt, 1, -1)?;
    let row = sheet.get(..8).unwrap_or(&[]);
    let want = [1, 0, 1, 1, 0, 0, 1, 1];
    same(&"a sheet's first row, seed -1", &row, &want.as_slice())
}

#[test]
fn cells_start_by_their_seeds(rt: HostRuntime) -> Result<(), Fail> {
    for first in FIRST_ROWS {
        row_starts(&rt, first)?;
    }
    sheet_starts(&rt)
}

/// Cells as counts see them.
const CELLS: &[i64] = &[i64::MIN, -1, 0, 1, i64::MAX];

/// What is counted of a row's cell and of a sheet's.
fn counted(rt: &HostRuntime, value: i64) -> Result<[Option<i64>; 2], Fail> {
    let row = CaCount::new(rt.alloc())?;
    let sheet = LifeCount::new(rt.alloc())?;
    Ok([read(rt, &row, value)?, read(rt, &sheet, value)?])
}

/// A cell is counted as it is.
fn counts(rt: &HostRuntime, value: i64) -> Result<(), Fail> {
    let found = counted(rt, value)?;
    same(&("the counts of a cell", value), &found, &[Some(value); 2])
}

/// Edges become 0.
fn edges_are_0(rt: &HostRuntime) -> Result<(), Fail> {
    let row = unread(rt, &CaZero::new(rt.alloc())?)?;
    let sheet = unread(rt, &LifeZero::new(rt.alloc())?)?;
    same(&"edges", &(row, sheet), &(Some(0), Some(0)))
}

#[test]
fn edges_are_0_and_counts_look_at_cells(rt: HostRuntime) -> Result<(), Fail> {
    edges_are_0(&rt)?;
    for value in CELLS {
        counts(&rt, *value)?;
    }
    Ok(())
}
