//! What an exchange leaves at each local point, and what a part takes where not all has been posted.

ghost use Rattle.std.specs.Prelude.{◌≡◌, IfOk};
ghost use Rattle.cx_cut.specs.Cuts.{IsWhole};
ghost use Rattle.core_tests.specs.Parts.{ring, HaveCells};

use crate::exchange::{exchanged, post_some, take_one};
use crate::grids::{block, is_true, parts, ring, show, widths};
use cx_cut::{Cut, cut};
use cx_field::Patch;
use cx_wire::MemoryWire;
use std::alloc::Global;
use std::test::Fail;
use test_cases::same;

/// The ring cut into parts of these widths.
fn ring_cut(alloc: Global, x: &[u32]) -> Result<Cut, Fail>
    ensures { IfOk result (λ cut. IsWhole cut × (cut.shape ≡ ring)) }
{
    Ok(cut(alloc, &ring(), &widths(alloc, x, &[1], &[1])?)?)
}

/// The numbers at the local points of all parts, part after part.
fn show_all(alloc: Global, patches: &Vec<Patch>) -> Result<Vec<i64>, Fail>
    requires { HaveCells patches.now.items }
{
    let mut shown = Vec::new(alloc);
    'parts: for k in 0..patches.len() {
        show(&patches[k], &mut shown)?;
    }
    Ok(shown)
}

/// The numbers at the local points of all parts of the ring after an exchange, part after part.
fn ring_shown(alloc: Global, x: &[u32]) -> Result<Vec<i64>, Fail> {
    let shape = ring();
    let cut = ring_cut(alloc, x)?;
    let (patches, _) = exchanged(alloc, &shape, &cut)?;
    show_all(alloc, &patches)
}

/// Widths of the ring's parts, and their local numbers.
type Ring = (&'static [u32], &'static [i64]);

const RINGS: &[Ring] = &[
    (&[8], &[17, 10, 11, 12, 13, 14, 15, 16, 17, 10]),
    (&[4, 4], &[17, 10, 11, 12, 13, 14, 13, 14, 15, 16, 17, 10]),
    (
        &[3, 1, 4],
        &[17, 10, 11, 12, 13, 12, 13, 14, 13, 14, 15, 16, 17, 10],
    ),
];

/// Whether all local points of all parts have their numbers.
fn are_true(patches: &Vec<Patch>) -> bool
    requires { HaveCells patches.now.items }
{
    'parts: for k in 0..patches.len() {
        if !is_true(&patches[k]) {
            return false;
        }
    }
    true
}

/// Whether all local points of the block have their numbers after an exchange, cut into 27 parts.
fn block_is_true(alloc: Global) -> Result<bool, Fail> {
    let shape = block();
    let widths = widths(alloc, &[1, 1, 2], &[2, 1, 2], &[1, 2, 3])?;
    let cut = cut(alloc, &shape, &widths)?;
    let (patches, _) = exchanged(alloc, &shape, &cut)?;
    Ok(are_true(&patches))
}

/// The parts of a ring have the numbers that their row says.
fn ring_has(alloc: Global, row: &Ring) -> Result<(), Fail> {
    let (x, want) = *row;
    let shown = ring_shown(alloc, x)?;
    same(&("parts of so many points", x), &shown.as_slice(), &want)
}

#[test]
fn ghosts_hold_the_neighbours_numbers(rt: HostRuntime) -> Result<(), Fail> {
    for row in RINGS {
        ring_has(rt.alloc(), row)?;
    }
    let found = block_is_true(rt.alloc())?;
    same(&"corners of 27 parts", &found, &true)
}

/// The message that part 0 of the ring misses along x where some parts have posted: from which part, and to which.
fn missed(alloc: Global, x: &[u32], senders: (u32, u32)) -> Result<Option<(u32, u32)>, Fail> {
    let shape = ring();
    let cut = ring_cut(alloc, x)?;
    let mut patches = parts(alloc, &shape, &cut)?;
    let mut wire = MemoryWire::new(alloc, cut.count())?;
    let senders = (senders.0, senders.1.min(cut.count()));
    post_some(alloc, &patches, &cut, 0, senders, &mut wire)?;
    if cut.count() == 0 {
        return Err(Fail::new("no parts"));
    }
    take_one(alloc, &mut patches, &cut, 0, 0, &mut wire)
}

/// Widths of the ring's parts, the parts from one on and below another that have posted, and what part 0 misses.
type Missed = (&'static [u32], (u32, u32), Option<(u32, u32)>);

const MISSED: &[Missed] = &[
    (&[8], (0, 0), Some((0, 0))),
    (&[8], (0, 1), None),
    (&[4, 4], (0, 0), Some((1, 0))),
    (&[4, 4], (0, 2), None),
    (&[3, 1, 4], (0, 0), Some((1, 0))),
    (&[3, 1, 4], (1, 2), Some((2, 0))),
    (&[3, 1, 4], (0, 3), None),
];

/// Part 0 misses what its row says.
fn misses(alloc: Global, row: &Missed) -> Result<(), Fail> {
    let (x, senders, want) = *row;
    let found = missed(alloc, x, senders)?;
    same(
        &("parts of so many points", x, "senders", senders),
        &found,
        &want,
    )
}

#[test]
fn take_reports_the_first_message_that_is_missing(rt: HostRuntime) -> Result<(), Fail> {
    for row in MISSED {
        misses(rt.alloc(), row)?;
    }
    Ok(())
}
