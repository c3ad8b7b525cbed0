//! Where one part stands, works of the writer, and events.
ghost use Rattle.std.specs.Prelude.{◌≡◌, ℤ};
ghost use Rattle.cx_plan.specs.declared.variable.VarId.{VarId};
ghost use Rattle.cx_plan.specs.Setups.{setup_of};
ghost use Rattle.cx_plan.specs.Whole.{IsWhole};
ghost use Rattle.cx_flat.specs.Code.{code, op_at};
ghost use Rattle.cx_core_place.specs.Steps.{IsReached, IsTested};
ghost use Rattle.cx_core_events.specs.Steps.{advanced, one_less};

use cx_core_place::Place;
use cx_flat::Op;
use cx_plan::{Job, VarId};

/// Where a part stands.
#[derive(Debug, Drop)]
pub struct Standing {
    /// Its place in the run.
    pub place: Place,
    /// How many operations it has done, modulo 2^64.
    pub count: u64,
    /// How many of the works that aren't done it has handed in.
    pub handed: usize,
}

impl Standing {
    /// It goes on behind an operation, which stands at its place, and has now handed in so many works.
    pub(crate) fn advance(&mut self, job: &Job, op: &Op, scalar: i64, handed: usize)
        requires whole { IsWhole job.now }
        requires reached { IsReached (setup_of job.now) self.old.place }
        requires here { op.now ≡ op_at (code (setup_of job.now)) self.old.place.pc }
        ensures { (scalars : VarId → ℤ) → IsTested op.now scalars scalar
            → self.new ≡ advanced (setup_of job.now) op.now scalars handed self.old }
    {
        self.place.advance(job, op, scalar);
        self.count = self.count.wrapping_add(1);
        self.handed = handed;
    }

    /// It has handed in one work less.
    pub(crate) fn lessen(&mut self)
        ensures { self.new ≡ one_less self.old }
    {
        self.handed = self.handed.saturating_sub(1);
    }
}

/// A piece of work of the writer.
#[derive(Clone, Copy, Debug)]
pub struct Work {
    /// The variable whose output it is; none for a checkpoint.
    pub var: Option<VarId>,
    /// The iteration.
    pub iteration: u64,
}

/// An event.
#[derive(Clone, Copy, Debug)]
pub enum Next {
    /// The next operation of a part.
    Part(u32),
    /// The first work that isn't done.
    Write,
    /// The end of the run.
    End,
}
