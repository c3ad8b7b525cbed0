//! A job of eight points in a ring, cut into parts of 3 and 5 points, and its files.

ghost use Rattle.std.specs.Prelude.{◌≡◌, IfOk};
ghost use Rattle.run_chunks_tests.specs.Samples.{no_bins, nothing, sample, sample_outputs, sample_variables};

use cx_disk::MemoryDisk;
use cx_grid::{Point, Shape};
use cx_plan::{Cuts, Job, Recover, Schedule, Tree, VarId, VarInfo};
use cx_text::{CType, List, Memory, Text};
use std::alloc::Global;

/// The output of three iterations of an automaton: 141 bytes.
pub(crate) const CELLS: &[u8] = b"# ca::cell iteration 0 size 8\n\
    0 0 0 1 0 0 0 0\n\
    \n\
    # ca::cell iteration 1 size 8\n\
    0 0 1 0 1 0 0 0\n\
    \n\
    # ca::cell iteration 2 size 8\n\
    0 1 0 0 0 1 0 0\n\
    \n";

/// A scalar's output.
pub(crate) const LIVE: &[u8] = b"# ca::live iteration 2 value 2\n";

/// The chunk of part 0.
pub(crate) const FIRST: &[u8] = b"# ca::cell iteration 0 part 0 of 2 from 0 size 3\n\
    0 0 0\n\
    \n\
    # ca::cell iteration 1 part 0 of 2 from 0 size 3\n\
    0 0 1\n\
    \n\
    # ca::cell iteration 2 part 0 of 2 from 0 size 3\n\
    0 1 0\n\
    \n";

/// The chunk of part 1.
pub(crate) const SECOND: &[u8] = b"# ca::cell iteration 0 part 1 of 2 from 3 size 5\n\
    1 0 0 0 0\n\
    \n\
    # ca::cell iteration 1 part 1 of 2 from 3 size 5\n\
    0 1 0 0 0\n\
    \n\
    # ca::cell iteration 2 part 1 of 2 from 3 size 5\n\
    0 0 1 0 0\n\
    \n";

/// The files of the two outputs, of the two chunks and of the recombined output.
pub(crate) const FILES: [u32; 5] = [9, 10, 1024, 1025, 1536];

fn ring() -> Shape
    ensures { result ≡ sample.shape }
{
    Shape {
        dims: 1,
        n: Point { x: 8, y: 1, z: 1 },
        ghost_: Point { x: 1, y: 0, z: 0 },
        periodic: [true, false, false],
    }
}

fn text(alloc: Global, bytes: &[u8]) -> Result<Text, Memory>
    ensures { IfOk result (λ text. text ≡ bytes.now) }
{
    Text::from_slice(alloc, bytes)
}

fn variables(alloc: Global) -> Result<List<VarInfo>, Memory>
    ensures { IfOk result (λ vars. vars ≡ sample_variables) }
{
    let cell = VarInfo {
        full: text(alloc, b"ca::cell")?,
        ctype: CType::Byte,
        scalar: false,
        levels: 1,
    };
    let live = VarInfo {
        full: text(alloc, b"ca::live")?,
        ctype: CType::Byte,
        scalar: true,
        levels: 1,
    };
    Ok(List::new(Vec::from_array(alloc, [cell, live])?))
}

fn outputs(alloc: Global) -> Result<List<VarId>, Memory>
    ensures { IfOk result (λ vs. vs ≡ sample_outputs) }
{
    Ok(List::new(Vec::from_array(alloc, [VarId(0), VarId(1)])?))
}

fn widths(alloc: Global) -> Result<Cuts, Memory>
    ensures { IfOk result (λ cuts. cuts ≡ sample.cut) }
{
    Ok(Cuts {
        x: List::new(Vec::from_array(alloc, [3, 5])?),
        y: List::new(Vec::from_array(alloc, [1])?),
        z: List::new(Vec::from_array(alloc, [1])?),
    })
}

fn nothing(alloc: Global) -> Tree
    ensures { result ≡ nothing }
{
    Tree::Seq(List::empty(alloc))
}

fn bins(alloc: Global) -> Result<List<Tree>, Memory>
    ensures { IfOk result (λ bins. bins ≡ no_bins) }
{
    let bins = [
        nothing(alloc),
        nothing(alloc),
        nothing(alloc),
        nothing(alloc),
        nothing(alloc),
        nothing(alloc),
        nothing(alloc),
        nothing(alloc),
        nothing(alloc),
        nothing(alloc),
        nothing(alloc),
        nothing(alloc),
        nothing(alloc),
        nothing(alloc),
        nothing(alloc),
        nothing(alloc),
        nothing(alloc),
    ];
    Ok(List::new(Vec::from_array(alloc, bins)?))
}

/// A job with a grid variable and a scalar, both of which are written.
pub(crate) fn job(alloc: Global) -> Result<Job, Memory>
    ensures { IfOk result (λ job. job ≡ sample) }
{
    Ok(Job {
        shape: ring(),
        vars: variables(alloc)?,
        items: List::empty(alloc),
        steers: List::empty(alloc),
        plan: Schedule { bins: bins(alloc)? },
        cut: widths(alloc)?,
        itlast: 2,
        while_limit: 1,
        lead: 0,
        balance: false,
        weight: None,
        weight_factor: 1,
        out_every: 1,
        out_vars: outputs(alloc)?,
        chk_every: 0,
        keep: 1,
        on_end: false,
        recover: Recover::No,
        out_dir: text(alloc, b"out")?,
        chk_dir: text(alloc, b"chk")?,
        key: text(alloc, b"")?,
        plan_text: text(alloc, b"")?,
        starred: text(alloc, b"")?,
    })
}

/// The bytes of a file.
fn bytes_of(texts: &[&'static [u8]], file: u32) -> &'static [u8] {
    for (given, bytes) in FILES.iter().zip(texts) {
        if *given == file {
            return bytes;
        }
    }
    b""
}

/// A disk with these bytes in the files `FILES`.
pub(crate) fn disk(alloc: Global, texts: &[&'static [u8]]) -> Result<MemoryDisk, Memory> {
    let mut files = List::empty(alloc);
    for file in 0..1537 {
        files.push(text(alloc, bytes_of(texts, file))?)?;
    }
    Ok(MemoryDisk::new(alloc, files))
}
