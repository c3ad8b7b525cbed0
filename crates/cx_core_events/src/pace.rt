//! Where the parts of a run stand, and which events can happen.
ghost use Rattle.std.specs.Prelude.{◌≡◌, ◌<◌, ℕ, ℤ, true, false, length, Some, IfOk, OnOk, OnErr, slice_get};
ghost use Rattle.cx_plan.specs.declared.variable.VarId.{VarId};
ghost use Rattle.cx_plan.specs.Setups.{setup_of};
ghost use Rattle.cx_plan.specs.Whole.{IsWhole};
ghost use Rattle.cx_cut.specs.Cuts as cuts;
ghost use Rattle.cx_flat.specs.Code.{code};
ghost use Rattle.cx_core_place.specs.Steps.{IsReached, IsTested};
ghost use Rattle.cx_core_events.specs.Paces.{part_of, op_of, iteration_of};
ghost use Rattle.cx_core_events.specs.declared.standing.Next.TheVariants as next;
ghost use Rattle.cx_core_events.specs.Events.{can_go, events, is_saving, lies_ahead, writer_going};
ghost use Rattle.cx_core_events.specs.Steps.{first_place, all_at, moved_on, met_by, wrote_one, over_now};

use crate::flags::Flags;
use crate::standing::{Next, Standing, Work};
use crate::standings::{Standings, all_at_first};
use cx_cut::Cut;
use cx_flat::Op;
use cx_plan::Job;
use cx_text::{List, Memory};
use std::alloc::Global;
use std::marker::Model;

/// Where the parts of a run stand, the works that they have handed in, and which events can happen.
#[derive(Debug, Drop)]
pub struct Pace {
    standings: Standings,
    flags: Flags,
}

impl Model for Pace {
    ghost use Rattle.cx_core_events.specs.Flags.{HasFlags};
    ghost use Rattle.cx_core_events.specs.Paces.{Paces};

    ghost Value = { Paces };

    ghost view = { λ p. p.standings };

    ghost invariant = { λ p. HasFlags p.standings p.flags };
}

impl Pace {
    /// All parts at the beginning of a run of a job, or at ANALYSIS of the iteration of a checkpoint from which it is continued. `ops`
    /// are the job's operations, and `cut` cuts its grid.
    ///
    /// # Errors
    ///
    /// `Memory` when out of memory.
    pub fn new(
        alloc: Global,
        job: &Job,
        cut: Cut,
        ops: List<Op>,
        from: Option<u64>,
    ) -> Result<Self, Memory>
        requires whole { IsWhole job.now }
        requires ops { ops ≡ code (setup_of job.now) }
        requires shape { cut.shape ≡ job.now.shape }
        requires cut { cuts.IsWhole cut }
        ensures { IfOk result (λ pace. pace
            ≡ all_at cut ops job.now.lead (first_place (setup_of job.now) from)) }
    {
        let standings = all_at_first(alloc, job, cut, ops, from)?;
        let flags = Flags::new(alloc, &standings)?;
        Ok(Pace { standings, flags })
    }

    /// How many events can happen.
    pub fn enabled(&self) -> u64
        ensures { result ≡ length (events self.now) }
    {
        self.flags.count()
    }

    /// The event of a number: those of the parts come first, by part, and the writer's comes last.
    pub fn event(&self, k: u64) -> Next
        requires { k < length (events self.now) }
        ensures { slice_get (events self.now) k ≡ Some result }
    {
        match self.flags.event(k) {
            Some(next) => next,
            None => unreachable!(),
        }
    }

    /// Whether the event of a number is an operation behind the writer's next checkpoint: that of a part which has handed in its piece of
    /// a checkpoint that isn't done.
    pub fn ahead(&self, k: u64) -> bool
        requires { k < length (events self.now) }
        ensures { result ≡ lies_ahead self.now (slice_get (events self.now) k) }
    {
        match self.event(k) {
            Next::Part(part) => self.standings.has_saved(part),
            Next::Write => false,
            Next::End => false,
        }
    }

    /// Whether a checkpoint was handed in that isn't done. Unless one was, no event lies ahead.
    pub fn is_saving(&self) -> bool
        ensures value { result ≡ is_saving self.now }
        ensures none { result ≡ false → (k : ℕ)
            → lies_ahead self.now (slice_get (events self.now) k) ≡ false }
    {
        self.standings.is_saving()
    }

    /// The number of parts.
    pub fn parts(&self) -> u32
        ensures { result ≡ length self.now.parts }
    {
        self.standings.count()
    }

    /// The cut.
    pub fn cut(&self) -> &Cut
        ensures { result.now ≡ self.now.cut }
    {
        &self.standings.cut
    }

    /// Where a part stands.
    pub fn part(&self, k: u32) -> &Standing
        requires { k < length self.now.parts }
        ensures { result.now ≡ part_of self.now k }
    {
        self.standings.part(k)
    }

    /// The next operation of a part that can go.
    pub fn op(&self, k: u32) -> &Op
        requires part { k < length self.now.parts }
        requires going { can_go self.now k ≡ true }
        ensures { result.now ≡ op_of self.now k }
    {
        self.standings.next(k)
    }

    /// The part that met the least end, if one has met an end.
    pub fn stopped(&self) -> Option<u32>
        ensures { result ≡ self.now.stopped }
    {
        self.standings.stopped
    }

    /// Whether the run is over.
    pub fn is_over(&self) -> bool
        ensures { result ≡ self.now.over }
    {
        self.standings.over
    }

    /// How many operations a part has done, modulo 2^64.
    pub fn count(&self, k: u32) -> u64
        requires { k < length self.now.parts }
        ensures { result ≡ (part_of self.now k).count }
    {
        self.standings.part(k).count
    }

    /// A part's iteration.
    pub fn iteration(&self, k: u32) -> u64
        requires { k < length self.now.parts }
        ensures { result ≡ iteration_of self.now k }
    {
        self.standings.part(k).place.round()
    }

    /// The first work that isn't done, which is the writer's next one.
    pub fn next_work(&self) -> Option<Work>
        ensures { result ≡ slice_get self.now.works 0 }
    {
        self.standings.works.as_slice().first().copied()
    }

    /// A part's operation is done: it goes on, and hands in its piece if the operation hands one in. `scalar` is the scalar that the
    /// operation tests, if it tests one.
    ///
    /// # Errors
    ///
    /// `Memory` when out of memory; then nothing has changed.
    pub fn moved(&mut self, job: &Job, k: u32, scalar: i64) -> Result<(), Memory>
        requires whole { IsWhole job.now }
        requires ops { self.old.ops ≡ code (setup_of job.now) }
        requires part { k < length self.old.parts }
        requires reached { IsReached (setup_of job.now) (part_of self.old k).place }
        ensures ok { (scalars : VarId → ℤ) → IsTested (op_of self.old k) scalars scalar
            → OnOk result (self.new ≡ moved_on (setup_of job.now) self.old k scalars) }
        ensures err { OnErr result (self.new ≡ self.old) }
    {
        let alone = self.standings.advance(job, k, scalar)?;
        self.flags.follow(&self.standings, k, alone);
        Ok(())
    }

    /// A part has met an end, which is before each one that was met before.
    pub fn met(&mut self, k: u32)
        ensures { self.new ≡ met_by self.old k }
    {
        self.standings.meet(k);
        self.flags.renew(&self.standings);
    }

    /// The writer has done the first work.
    pub fn wrote(&mut self)
        requires { writer_going self.old ≡ Some next.Write }
        ensures { self.new ≡ wrote_one self.old }
    {
        self.standings.write();
        self.flags.renew(&self.standings);
    }

    /// The run is over.
    pub fn over(&mut self)
        ensures { self.new ≡ over_now self.old }
    {
        self.standings.end();
        self.flags.renew(&self.standings);
    }
}
