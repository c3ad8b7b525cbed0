//! Places in a run.

ghost use Rattle.std.specs.Prelude.{◌≡◌, ◌+◌, ◌-◌, ◌<◌, ◌≤◌, ◌^◌, ◌↔◌, ℤ, false, length, IsTrue, if◌then◌else◌};
ghost use Rattle.cx_model.specs.Courses.{by_zero};
ghost use Rattle.cx_plan.specs.declared.variable.VarId.{VarId};
ghost use Rattle.cx_plan.specs.declared.job.Job.{Job};
ghost use Rattle.cx_plan.specs.Setups.{setup_of};
ghost use Rattle.cx_plan.specs.Whole.{IsWhole};
ghost use Rattle.cx_flat.specs.Code.{analysis_place, code, op_at};
ghost use Rattle.cx_flat.specs.Flats.{to, next, opens, leaves_loop, turns_back, iterates, turn_control, control_after, last_turns};
ghost use Rattle.cx_flat.specs.Ways.{key, Less, at_place};
ghost use Rattle.cx_core_place.specs.Steps.{IsReached, IsTested};

use crate::opened::{OpenWhile, are_same, comes_before, last_turns};
use crate::skips::landing_place;
use cx_flat::Op;
use cx_plan::{Job, is_due, is_written};
use smallvec::SmallVec;
use std::alloc::Global;
use std::marker::Model;

/// Where a part stands in a run: before which operation, in which iteration, and in which turn of each WHILE that is open, of
/// which there are at most 32. A step takes no memory.
#[derive(Debug, Drop)]
pub struct Place {
    pc: u32,
    iteration: u64,
    opened: SmallVec<OpenWhile, 32>,
}

impl Model for Place {
    ghost use Rattle.std.specs.Prelude.{◌≤◌};
    ghost use Rattle.cx_flat.specs.Flats.{Control};
    ghost use Rattle.cx_core_place.specs.Seen.{all_opened};

    ghost Value = { Control };

    ghost view = { λ p. record {
      pc = p.pc;
      iteration = p.iteration;
      opened = all_opened p.opened.items;
    } };

    ghost invariant = { λ p. 32 ≤ p.opened.capacity };
}

impl Place {
    /// The beginning of a run.
    pub fn start(alloc: Global) -> Self
        ensures { result ≡ at_place 0 0 }
    {
        Place {
            pc: 0,
            iteration: 0,
            opened: SmallVec::new(alloc),
        }
    }

    /// ANALYSIS of an iteration, where a run is continued from a checkpoint. `ops` are the operations of the job.
    pub fn at_analysis(alloc: Global, ops: &[Op], iteration: u64) -> Self
        ensures { (job : Job) → IsWhole job → ops.now ≡ code (setup_of job)
            → result ≡ at_place (analysis_place (setup_of job)) iteration }
    {
        Place {
            pc: landing_place(ops),
            iteration,
            opened: SmallVec::new(alloc),
        }
    }

    /// The number of the operation that is next.
    pub fn pc(&self) -> u32
        ensures { result ≡ self.now.pc }
    {
        self.pc
    }

    /// The iteration.
    pub fn round(&self) -> u64
        ensures { result ≡ self.now.iteration }
    {
        self.iteration
    }

    /// How many turns the innermost open WHILE has taken; 0 where none is open.
    pub fn turns(&self) -> u64
        ensures { result ≡ last_turns self.now.opened }
    {
        last_turns(&self.opened)
    }

    /// Whether this place comes before another one of the same way.
    pub fn is_before(&self, other: &Place) -> bool
        ensures { IsTrue result ↔ Less (key self.now) (key other.now) }
    {
        if self.iteration != other.iteration {
            self.iteration < other.iteration
        } else {
            comes_before(&self.opened, self.pc, &other.opened, other.pc)
        }
    }

    /// Whether it is the same place.
    pub fn is_same(&self, other: &Place) -> bool
        ensures { IsTrue result ↔ (self.now ≡ other.now) }
    {
        if self.iteration != other.iteration || self.pc != other.pc {
            false
        } else {
            are_same(&self.opened, &other.opened)
        }
    }

    /// Goes on to the next operation.
    fn step(&mut self)
        requires { self.old.pc + 1 < 2 ^ 32 }
        ensures { self.new ≡ next self.old }
    {
        self.pc += 1;
    }

    /// Goes on to a later operation, so many further on.
    fn skip(&mut self, count: u32)
        requires { self.old.pc + count < 2 ^ 32 }
        ensures { self.new ≡ to self.old (self.old.pc + count) }
    {
        self.pc += count;
    }

    /// Goes on to the next operation, or skips so many.
    fn step_or_skip(&mut self, goes_on: bool, count: u32)
        requires next { self.old.pc + 1 < 2 ^ 32 }
        requires out { goes_on ≡ false → self.old.pc + count < 2 ^ 32 }
        ensures { self.new
            ≡ (if goes_on then next self.old else to self.old (self.old.pc + count)) }
    {
        if goes_on {
            self.step();
        } else {
            self.skip(count);
        }
    }

    /// Opens a `WHILE` that has had no pass yet.
    fn open(&mut self)
        requires room { length self.old.opened < 32 }
        requires pc { self.old.pc + 1 < 2 ^ 32 }
        ensures { self.new ≡ opens self.old }
    {
        self.pc += 1;
        self.opened.push_reserved(OpenWhile {
            place: self.pc,
            turns: 0,
        });
    }

    /// Closes the innermost `WHILE`, and goes on after it.
    fn leave(&mut self, count: u32)
        requires { self.old.pc + count < 2 ^ 32 }
        ensures { self.new ≡ leaves_loop self.old (self.old.pc + count) }
    {
        self.opened.pop();
        self.pc += count;
    }

    /// Begins a pass of the innermost `WHILE`, or leaves it: at a scalar of 0, or after the most passes.
    fn turn(&mut self, job: &Job, count: u32, scalar: i64)
        requires next { self.old.pc + 1 < 2 ^ 32 }
        requires out { self.old.pc + count < 2 ^ 32 }
        ensures { self.new ≡ turn_control (setup_of job.now) self.old count scalar }
    {
        if last_turns(&self.opened) == job.while_limit || scalar == 0 {
            self.leave(count);
        } else {
            self.step();
        }
    }

    /// Ends a pass of the innermost `WHILE`, counts it and goes back to its test.
    fn turn_back(&mut self, count: u32)
        requires depth { length self.old.opened ≤ 32 }
        requires turns { last_turns self.old.opened + 1 < 2 ^ 64 }
        ensures { self.new ≡ turns_back self.old (self.old.pc - count) }
    {
        self.pc = self.pc.saturating_sub(count);
        match self.opened.pop() {
            Some(open) => self.opened.push_reserved(open.turned()),
            None => {}
        }
    }

    /// Goes back to begin the next iteration; after the last one it goes on.
    fn iterate(&mut self, job: &Job, count: u32)
        requires { self.old.pc + 1 < 2 ^ 32 }
        ensures { self.new ≡ iterates (setup_of job.now) self.old (self.old.pc - count) }
    {
        if self.iteration < job.itlast {
            self.iteration += 1;
            self.pc = self.pc.saturating_sub(count);
        } else {
            self.step();
        }
    }

    /// Goes on into an `IF`, or skips it where the scalar is 0.
    fn test(&mut self, count: u32, scalar: i64)
        requires next { self.old.pc + 1 < 2 ^ 32 }
        requires out { self.old.pc + count < 2 ^ 32 }
        ensures { self.new ≡ by_zero scalar (to self.old (self.old.pc + count)) (next self.old) }
    {
        if scalar == 0 {
            self.skip(count);
        } else {
            self.step();
        }
    }

    /// Goes on behind an operation: `op`, which stands at this place. `scalar` is the scalar that it tests, if it tests one.
    pub fn advance(&mut self, job: &Job, op: &Op, scalar: i64)
        requires whole { IsWhole job.now }
        requires reached { IsReached (setup_of job.now) self.old }
        requires here { op.now ≡ op_at (code (setup_of job.now)) self.old.pc }
        ensures { (scalars : VarId → ℤ) → IsTested op.now scalars scalar
            → self.new ≡ control_after (setup_of job.now) op.now scalars self.old }
    {
        match op {
            Op::Sweep(_) => self.step(),
            Op::Apply(_) => self.step(),
            Op::Give(_) => self.step(),
            Op::Join(_) => self.step(),
            Op::Post(_, _) => self.step(),
            Op::Take(_, _, _) => self.step(),
            Op::Test(_, _, count) => self.test(*count, scalar),
            Op::Open => self.open(),
            Op::Turn(_, _, count) => self.turn(job, *count, scalar),
            Op::Again(count) => self.turn_back(*count),
            Op::Rotate => self.step(),
            Op::Due(count) => self.step_or_skip(is_due(job, self.iteration), *count),
            Op::Written(count) => self.step_or_skip(is_written(job, self.iteration), *count),
            Op::Skip(count) => self.skip(*count),
            Op::Next(count) => self.iterate(job, *count),
            Op::Piece(_) => self.step(),
            Op::Save => self.step(),
            Op::Halt => {}
        }
    }
}
