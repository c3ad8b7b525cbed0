//! All parts post and take.

ghost use Rattle.std.specs.Prelude.{◌≡◌, ◌<◌, ◌≤◌, OnOk, IfOk, IfNone};
ghost use Rattle.cx_cut.specs.Cuts.{IsWhole, part_count};
ghost use Rattle.cx_ghost.specs.Takes.{TakesNeeded};
ghost use Rattle.core_tests.specs.Parts.{AreParts, HaveCells, told_queue, Posts, Holds, EmptyTo, EmptyFrom};

use crate::grids::{names, parts};
use cx_cut::Cut;
use cx_field::Patch;
use cx_ghost::{TakeFault, post, take};
use cx_grid::Shape;
use cx_wire::MemoryWire;
use std::alloc::Global;
use std::test::Fail;

/// Part k posts in a direction.
fn post_one(
    alloc: Global,
    patches: &Vec<Patch>,
    cut: &Cut,
    k: u32,
    dir: u8,
    wire: &mut MemoryWire,
) -> Result<(), Fail>
    requires whole { IsWhole cut.now }
    requires parts { AreParts cut.now (part_count cut.now) patches.now.items }
    requires part { k < part_count cut.now }
    requires dir { dir < cut.now.shape.dims }
    requires wire { part_count cut.now ≤ wire.old.parts }
    ensures posted { OnOk result
        (Posts cut.now dir k (told_queue wire.old) (told_queue wire.new)) }
    ensures wire { wire.new.parts ≡ wire.old.parts }
{
    let names = names(alloc)?;
    post(alloc, &patches[k as usize], cut, k, dir, &names, 0, wire)?;
    Ok(())
}

/// The parts from one on and below another post in a direction.
pub(crate) fn post_some(
    alloc: Global,
    patches: &Vec<Patch>,
    cut: &Cut,
    dir: u8,
    senders: (u32, u32),
    wire: &mut MemoryWire,
) -> Result<(), Fail>
    requires whole { IsWhole cut.now }
    requires parts { AreParts cut.now (part_count cut.now) patches.now.items }
    requires dir { dir < cut.now.shape.dims }
    requires senders { senders.1 ≤ part_count cut.now }
    requires wire { part_count cut.now ≤ wire.old.parts }
    requires empty { EmptyFrom cut.now 0 (told_queue wire.old) }
    ensures posted { OnOk result (Holds cut.now dir (told_queue wire.new)) }
    ensures wire { wire.new.parts ≡ wire.old.parts }
{
    let (first, end) = senders;
    'senders: for k in first..end {
        post_one(alloc, patches, cut, k, dir, wire)?;
    }
    Ok(())
}

/// What part k misses in a direction, if anything; else it has taken.
pub(crate) fn take_one(
    alloc: Global,
    patches: &mut Vec<Patch>,
    cut: &Cut,
    k: u32,
    dir: u8,
    wire: &mut MemoryWire,
) -> Result<Option<(u32, u32)>, Fail>
    requires whole { IsWhole cut.now }
    requires parts { AreParts cut.now (part_count cut.now) patches.old.items }
    requires part { k < part_count cut.now }
    requires dir { dir < cut.now.shape.dims }
    requires wire { part_count cut.now ≤ wire.old.parts }
    requires posted { Holds cut.now dir (told_queue wire.old) }
    ensures parts { AreParts cut.now (part_count cut.now) patches.new.items }
    ensures taken { IfOk result (λ missed. IfNone missed
        (TakesNeeded cut.now k dir (told_queue wire.old) (told_queue wire.new))) }
    ensures wire { wire.new.parts ≡ wire.old.parts }
{
    let names = names(alloc)?;
    match take(&mut patches[k as usize], cut, k, dir, &names, wire) {
        Ok(()) => Ok(None),
        Err(TakeFault::NotYet(from, to)) => Ok(Some((from, to))),
        Err(TakeFault::Wire) => Err(Fail::new("the wire failed")),
    }
}

/// All parts take in a direction.
fn take_all(
    alloc: Global,
    patches: &mut Vec<Patch>,
    cut: &Cut,
    dir: u8,
    wire: &mut MemoryWire,
) -> Result<(), Fail>
    requires whole { IsWhole cut.now }
    requires parts { AreParts cut.now (part_count cut.now) patches.old.items }
    requires dir { dir < cut.now.shape.dims }
    requires wire { part_count cut.now ≤ wire.old.parts }
    requires posted { Holds cut.now dir (told_queue wire.old) }
    ensures parts { AreParts cut.now (part_count cut.now) patches.new.items }
    ensures empty { OnOk result (EmptyTo cut.now (part_count cut.now) (told_queue wire.new)) }
    ensures wire { wire.new.parts ≡ wire.old.parts }
{
    'takers: for k in 0..cut.count() {
        if take_one(alloc, patches, cut, k, dir, wire)?.is_some() {
            return Err(Fail::new("a message is missing"));
        }
    }
    Ok(())
}

/// All parts of a cut after the rounds of all directions, and the wire.
pub(crate) fn exchanged(
    alloc: Global,
    shape: &Shape,
    cut: &Cut,
) -> Result<(Vec<Patch>, MemoryWire), Fail>
    requires whole { IsWhole cut.now }
    requires shape { shape.now ≡ cut.now.shape }
    ensures { IfOk result (λ r. HaveCells r.0.items) }
{
    let mut patches = parts(alloc, shape, cut)?;
    let mut wire = MemoryWire::new(alloc, cut.count())?;
    'rounds: for dir in 0..shape.dims {
        post_some(alloc, &patches, cut, dir, (0, cut.count()), &mut wire)?;
        take_all(alloc, &mut patches, cut, dir, &mut wire)?;
    }
    Ok((patches, wire))
}
