//! Files that take turns: their lines, their statuses, what they leave, and what is refused.

use crate::calls::{call, holds, is_told};
use crate::devices::{disks, new_list, noting, wires};
use cx_disk::MemoryDisk;
use cx_wire::MemoryWire;
use sample_runs::samples::{BOX_FIELDS, BOX_SUMS, CA_OUTPUT, USAGE};
use std::test::Fail;
use test_cases::same;

/// What is left of a call: how many points were computed, and the devices.
#[derive(Drop)]
struct Left {
    points: u128,
    disks: Vec<MemoryDisk>,
    wires: Vec<MemoryWire>,
}

/// Tests what words come to on new devices.
fn row(rt: &HostRuntime, words: &[&str], status: u8, printed: &str) -> Result<Left, Fail> {
    let alloc = rt.alloc();
    let mut disks = disks(alloc)?;
    let mut wires = wires(alloc)?;
    let came = call(rt, words, &mut disks, &mut wires)?;
    is_told(&words, &came, status, printed)?;
    Ok(Left {
        points: came.points,
        disks,
        wires,
    })
}

/// Tests that words aren't those of any command.
fn wrong(rt: &HostRuntime, words: &[&str]) -> Result<(), Fail> {
    let left = row(rt, words, 1, USAGE)?;
    same(&words, &left.points, &0)
}

#[test]
fn wrong_words(rt: HostRuntime) -> Result<(), Fail> {
    wrong(&rt, &["batch", "a.par"])?;
    wrong(&rt, &["batch", "ca.par", ""])?;
    wrong(&rt, &["batch", "ca.par", "-x"])?;
    wrong(&rt, &["batch", "1", "2", "3", "4", "5", "6", "7", "8", "9"])?;
    wrong(&rt, &["Batch", "ca.par", "box.par"])
}

/// Tests why files aren't run together.
fn refused(rt: &HostRuntime, words: &[&str], printed: &str) -> Result<(), Fail> {
    let left = row(rt, words, 2, printed)?;
    same(&words, &left.points, &0)
}

#[test]
fn refused_files(rt: HostRuntime) -> Result<(), Fail> {
    refused(
        &rt,
        &["batch", "a.par", "none.par", "open.par"],
        "refused: none.par NoFile none.par\n",
    )?;
    refused(
        &rt,
        &["batch", "a.par", "b.par", "open.par"],
        "refused: open.par open.par OpenQuote 1\n",
    )?;
    refused(
        &rt,
        &["batch", "a.par", "b.par"],
        "refused: SameFolder a.par b.par\n",
    )?;
    refused(
        &rt,
        &["batch", "box.par", "ca.par", "b.par", "ca.par"],
        "refused: SameFolder box.par b.par\n",
    )?;
    refused(
        &rt,
        &["batch", "ca.par", "apart.par"],
        "refused: SameFolder ca.par apart.par\n",
    )?;
    refused(
        &rt,
        &["batch", "g1.par", "g2.par", "g3.par", "g4.par", "g5.par"],
        "refused: Limit batch cells 83886080\n",
    )?;
    refused(
        &rt,
        &["batch", "g1.par", "g2.par", "g3.par", "g4.par"],
        "refused: Limit batch cells 134217740\n",
    )
}

/// Tests how many values a wire has given out.
fn gave(wires: &[MemoryWire], job: usize, values: u64) -> Result<(), Fail> {
    match wires.get(job) {
        Some(wire) => same(&job, &wire.received(), &values),
        None => Err(Fail::new("there is no such wire")),
    }
}

#[test]
fn automaton_and_box(rt: HostRuntime) -> Result<(), Fail> {
    let lines = "ca.par: done: iteration 2\nbox.par: done: iteration 40\n";
    let left = row(&rt, &["batch", "ca.par", "box.par"], 0, lines)?;
    same(&lines, &left.points, &4970)?;
    holds(&left.disks, 0, 9, CA_OUTPUT)?;
    holds(&left.disks, 1, 9, BOX_FIELDS)?;
    holds(&left.disks, 1, 10, BOX_SUMS)?;
    holds(&left.disks, 2, 9, b"")?;
    gave(&left.wires, 0, 4)?;
    gave(&left.wires, 1, 480)?;
    gave(&left.wires, 2, 0)
}

/// Tests the sum of the values that a wire has given out.
fn gave_sum(wires: &[MemoryWire], job: usize, sum: u64) -> Result<(), Fail> {
    match wires.get(job) {
        Some(wire) => same(&(job, "sum"), &wire.received_sum(), &sum),
        None => Err(Fail::new("there is no such wire")),
    }
}

#[test]
fn a_glider_that_is_cut_anew(rt: HostRuntime) -> Result<(), Fail> {
    let lines = "glider.par: done: iteration 5\nca.par: done: iteration 2\n";
    let left = row(&rt, &["batch", "glider.par", "ca.par"], 0, lines)?;
    same(&lines, &left.points, &486)?;
    gave(&left.wires, 0, 380)?;
    gave(&left.wires, 1, 4)?;
    // in its own cut to the end it would be 22
    gave_sum(&left.wires, 0, 25)
}

#[test]
fn other_words(rt: HostRuntime) -> Result<(), Fail> {
    let left = row(&rt, &["run", "ca.par"], 0, "done: iteration 2\n")?;
    same(&"run ca.par", &left.points, &26)?;
    holds(&left.disks, 0, 9, CA_OUTPUT)?;
    holds(&left.disks, 1, 9, b"")?;
    gave(&left.wires, 0, 4)?;
    gave(&left.wires, 1, 0)
}

#[test]
fn eight_files(rt: HostRuntime) -> Result<(), Fail> {
    let words = [
        "batch", "1.par", "2.par", "3.par", "4.par", "5.par", "6.par", "7.par", "8.par",
    ];
    let lines = "1.par: done: iteration 2\n2.par: done: iteration 2\n\
        3.par: done: iteration 2\n4.par: done: iteration 2\n5.par: done: iteration 2\n\
        6.par: done: iteration 2\n7.par: done: iteration 2\n8.par: done: iteration 2\n";
    let left = row(&rt, &words, 0, lines)?;
    for job in 0..8_usize {
        holds(&left.disks, job, 9, CA_OUTPUT)?;
        gave(&left.wires, job, 4)?;
    }
    same(&"eight files", &left.points, &208)
}

#[test]
fn heat_that_leaves_its_type(rt: HostRuntime) -> Result<(), Fail> {
    let lines = "d.par: ended: Overflow 7 EVOL/diff_step\nbox.par: done: iteration 40\n";
    let left = row(&rt, &["batch", "d.par", "box.par"], 3, lines)?;
    holds(&left.disks, 1, 9, BOX_FIELDS)
}

/// Whether a call of the first job comes between two of the second one, and another after them. So neither waits for the other's end.
fn takes_turns(jobs: &[u32]) -> bool {
    let mut seen = 0_u8;
    for job in jobs {
        seen = match (seen, *job) {
            (0, 1) => 1,
            (1, 0) => 2,
            (2, 1) => 3,
            (3, 0) => 4,
            _ => seen,
        };
    }
    seen == 4
}

#[test]
fn calls_take_turns(rt: HostRuntime) -> Result<(), Fail> {
    let alloc = rt.alloc();
    let list = new_list(alloc)?;
    let mut disks = noting(alloc, &list)?;
    let mut wires = wires(alloc)?;
    let came = call(&rt, &["batch", "box.par", "ca.par"], &mut disks, &mut wires)?;
    same(&"takes turns", &came.status, &0)?;
    let Ok(notes) = list.try_borrow() else {
        return Err(Fail::new("the list is in use"));
    };
    same(&"takes turns", &takes_turns(&notes), &true)
}
