//! A job of eight points in a ring, cut into parts of 3 and 5 points.

ghost use Rattle.std.specs.Prelude.{◌≡◌, ◌<◌, All, IfOk, length};
ghost use Rattle.cx_grid.specs.Grid.{IsShape};
ghost use Rattle.cx_plan.specs.Whole.{IsVariable};
ghost use Rattle.cx_chunks.specs.Laws.{IsCutOf};

use cx_cut::{Cut, cut};
use cx_grid::{Point, Shape};
use cx_plan::{Cuts, Job, Recover, Schedule, VarId, VarInfo};
use cx_text::{CType, List, Memory, Text};
use std::alloc::Global;
use std::test::Fail;

/// The output of three iterations of an automaton: 141 bytes.
pub(crate) const CELLS: &[u8] = b"# ca::cell iteration 0 size 8\n\
    0 0 0 1 0 0 0 0\n\
    \n\
    # ca::cell iteration 1 size 8\n\
    0 0 1 0 1 0 0 0\n\
    \n\
    # ca::cell iteration 2 size 8\n\
    0 1 0 0 0 1 0 0\n\
    \n";

/// A scalar's output.
pub(crate) const LIVE: &[u8] = b"# ca::live iteration 2 value 2\n";

/// The chunk of part 0.
pub(crate) const FIRST: &[u8] = b"# ca::cell iteration 0 part 0 of 2 from 0 size 3\n\
    0 0 0\n\
    \n\
    # ca::cell iteration 1 part 0 of 2 from 0 size 3\n\
    0 0 1\n\
    \n\
    # ca::cell iteration 2 part 0 of 2 from 0 size 3\n\
    0 1 0\n\
    \n\
    # ca::live iteration 2 value 2\n";

/// The chunk of part 1.
pub(crate) const SECOND: &[u8] = b"# ca::cell iteration 0 part 1 of 2 from 3 size 5\n\
    1 0 0 0 0\n\
    \n\
    # ca::cell iteration 1 part 1 of 2 from 3 size 5\n\
    0 1 0 0 0\n\
    \n\
    # ca::cell iteration 2 part 1 of 2 from 3 size 5\n\
    0 0 1 0 0\n\
    \n";

fn ring() -> Shape
    ensures { IsShape result }
{
    Shape {
        dims: 1,
        n: Point { x: 8, y: 1, z: 1 },
        ghost_: Point { x: 1, y: 0, z: 0 },
        periodic: [true, false, false],
    }
}

fn variables(alloc: Global) -> Result<List<VarInfo>, Memory>
    ensures { IfOk result (λ vars. length vars ≡ 2) }
{
    let cell = VarInfo {
        full: Text::from_slice(alloc, b"ca::cell")?,
        ctype: CType::Byte,
        scalar: false,
        levels: 1,
    };
    let live = VarInfo {
        full: Text::from_slice(alloc, b"ca::live")?,
        ctype: CType::Byte,
        scalar: true,
        levels: 1,
    };
    Ok(List::new(Vec::from_array(alloc, [cell, live])?))
}

fn outputs(alloc: Global) -> Result<List<VarId>, Memory>
    ensures { IfOk result (λ vs. All (λ v. v.0 < 2) vs) }
{
    Ok(List::new(Vec::from_array(alloc, [VarId(0), VarId(1)])?))
}

fn widths(alloc: Global) -> Result<Cuts, Memory> {
    Ok(Cuts {
        x: List::new(Vec::from_array(alloc, [3, 5])?),
        y: List::new(Vec::from_array(alloc, [1])?),
        z: List::new(Vec::from_array(alloc, [1])?),
    })
}

fn empty(alloc: Global) -> Text {
    Text::new(Vec::new(alloc))
}

/// A job with a grid variable and a scalar, both of which are written.
pub(crate) fn job(alloc: Global) -> Result<Job, Memory>
    ensures shape { IfOk result (λ job. IsShape job.shape) }
    ensures outputs { IfOk result (λ job. All (IsVariable job) job.out_vars) }
{
    Ok(Job {
        shape: ring(),
        vars: variables(alloc)?,
        items: List::empty(alloc),
        steers: List::empty(alloc),
        plan: Schedule {
            bins: List::empty(alloc),
        },
        cut: widths(alloc)?,
        itlast: 2,
        while_limit: 1,
        lead: 0,
        balance: false,
        weight: None,
        weight_factor: 1,
        out_every: 1,
        out_vars: outputs(alloc)?,
        chk_every: 0,
        keep: 1,
        on_end: false,
        recover: Recover::No,
        out_dir: empty(alloc),
        chk_dir: empty(alloc),
        key: empty(alloc),
        plan_text: empty(alloc),
        starred: empty(alloc),
    })
}

/// The job's cut.
pub(crate) fn cut_of(alloc: Global, job: &Job) -> Result<Cut, Fail>
    requires { IsShape job.now.shape }
    ensures { IfOk result (λ cut. IsCutOf job.now cut) }
{
    Ok(cut(alloc, &job.shape, &job.cut)?)
}
