//! Where the parts stand.
ghost use Rattle.std.specs.Prelude.{◌≡◌, true, false, IsTrue, IsSome, ◌↔◌, Some, ◌<◌, ◌≤◌, ◌+◌, ◌%◌, ◌^◌, length, replicate, MatchOption, IfOk, OnOk, OnErr};
ghost use Rattle.cx_grid.specs.Boxes.{along};
ghost use Rattle.cx_cut.specs.Cuts as cuts;
ghost use Rattle.cx_cut.specs.Cuts.{part_count};
ghost use Rattle.cx_plan.specs.declared.job.Job.{Job};
ghost use Rattle.cx_plan.specs.declared.variable.VarId.{VarId};
ghost use Rattle.std.specs.Prelude.{ℤ};
ghost use Rattle.cx_plan.specs.Setups.{setup_of};
ghost use Rattle.cx_plan.specs.Whole.{IsWhole};
ghost use Rattle.cx_flat.specs.declared.op.Op.TheVariants as op;
ghost use Rattle.cx_flat.specs.Code.{code, op_at};
ghost use Rattle.cx_flat.specs.Flats.{is_halt, control_after};
ghost use Rattle.cx_core_place.specs.Steps.{IsReached, IsTested};
ghost use Rattle.cx_core_events.specs.Paces.{part_of, op_of, iteration_of, other_hind};
ghost use Rattle.cx_core_events.specs.Flags.{IsAlone};
ghost use Rattle.cx_core_events.specs.Events.{is_ahead, goes_on, is_near, partner_at, waits_for, is_ready, work_of, has_room, can_go, all_in, all_stand, writer_going, has_saved, is_saving};
ghost use Rattle.cx_core_events.specs.Steps.{standing_at, first_place, all_at, gone_on, with_hind, moved_on, met_by, wrote_one, over_now};

use crate::order::{hindmost, is_before, twin};
use crate::standing::{Next, Standing, Work};
use crate::works::{
    all_handed, hand_in, has_buffer, is_halt, is_room, is_some_work, one_less, some_checkpoint,
    take_first, work_of,
};
use cx_core_place::{Place, places_fit};
use cx_cut::Cut;
use cx_flat::Op;
use cx_grid::{Point, Shape, Side};
use cx_plan::Job;
use cx_text::{List, Memory};
use std::alloc::Global;
use std::marker::Model;

/// Where the parts of a run stand, and the works that they have handed in.
#[derive(Debug, Drop)]
pub(crate) struct Standings {
    pub(crate) cut: Cut,
    pub(crate) shape: Shape,
    pub(crate) ops: List<Op>,
    pub(crate) lead: u64,
    pub(crate) parts: Vec<Standing>,
    pub(crate) works: Vec<Work>,
    pub(crate) stopped: Option<u32>,
    pub(crate) over: bool,
    pub(crate) hind: u32,
}

impl Model for Standings {
    ghost use Rattle.std.specs.Prelude.{length};
    ghost use Rattle.cx_core_events.specs.Paces.{Paces};
    ghost use Rattle.cx_core_events.specs.Flags.{IsStanding};

    ghost Value = { Paces };

    ghost view = { λ s. record {
      cut = s.cut;
      ops = s.ops;
      lead = s.lead;
      parts = s.parts.items;
      works = s.works.items;
      stopped = s.stopped;
      over = s.over;
      hind = s.hind;
    } };

    ghost invariant = { λ s. IsStanding s.shape s.cut (length s.parts.items) };
}

/// A coordinate of a point.
fn along(p: &Point, dir: u8) -> i32
    requires { dir < 3 }
    ensures { result ≡ along p.now dir }
{
    match dir {
        0 => p.x,
        1 => p.y,
        _ => p.z,
    }
}

/// Whether the hindmost place is known, no work has come, and the part didn't meet the least end.
fn is_alone(other: Option<u32>, known: usize, works: usize, stop: bool) -> bool
    ensures { IsTrue result → IsSome other × (works ≡ known) × (stop ≡ false) }
{
    match other {
        None => false,
        Some(_) => works == known && !stop,
    }
}

/// The operation at a place.
fn op_at(ops: &[Op], pc: u32) -> &Op
    requires { pc < length ops.now }
    ensures { result.now ≡ op_at ops.now pc }
{
    &ops[pc as usize]
}

impl Standings {
    /// The number of parts.
    pub(crate) fn count(&self) -> u32
        ensures value { result ≡ length self.now.parts }
        ensures few { result ≤ 512 }
        ensures whole { cuts.IsWhole self.now.cut }
        ensures all { length self.now.parts ≡ part_count self.now.cut }
    {
        let _ = &self.parts;
        self.cut.count()
    }

    /// Where a part stands.
    pub(crate) fn part(&self, k: u32) -> &Standing
        requires { k < length self.now.parts }
        ensures { result.now ≡ part_of self.now k }
    {
        &self.parts[k as usize]
    }

    /// The operation of a part, if one is left.
    fn op(&self, k: u32) -> Option<&Op>
        requires { k < length self.now.parts }
        ensures { MatchOption result (op_of self.now k ≡ op.Halt) (λ o. o.now ≡ op_of self.now k) }
    {
        let pc = self.part(k).place.pc();
        self.ops.as_slice().get(pc as usize)
    }

    /// The operation of a part that can go.
    pub(crate) fn next(&self, k: u32) -> &Op
        requires part { k < length self.now.parts }
        requires going { can_go self.now k ≡ true }
        ensures { result.now ≡ op_of self.now k }
    {
        op_at(self.ops.as_slice(), self.part(k).place.pc())
    }

    /// Whether a part has come to its last operation.
    fn halts(&self, k: u32) -> bool
        requires { k < length self.now.parts }
        ensures { result ≡ is_halt (op_of self.now k) }
    {
        match self.op(k) {
            None => true,
            Some(op) => is_halt(op),
        }
    }

    /// Whether a part stands before the end that a part has met.
    fn is_ahead(&self, k: u32) -> bool
        ensures { result ≡ is_ahead self.now.parts self.now.stopped k }
    {
        match self.stopped {
            None => true,
            Some(j) => is_before(self.parts.as_slice(), k, j),
        }
    }

    /// Whether an operation is left, and the part stands before the end that a part has met.
    fn goes_on(&self, k: u32) -> bool
        requires { k < length self.now.parts }
        ensures { result ≡ goes_on self.now k }
    {
        !self.halts(k) && self.is_ahead(k)
    }

    /// Whether a part's iteration is at most the lead above that of the hindmost one.
    fn is_near(&self, k: u32) -> bool
        requires { k < length self.now.parts }
        ensures { result ≡ is_near self.now k }
    {
        let least = self.iteration(self.hind);
        self.iteration(k) <= self.lead.saturating_add(least)
    }

    /// A part's iteration.
    fn iteration(&self, k: u32) -> u64
        ensures { result ≡ iteration_of self.now k }
    {
        match self.parts.as_slice().get(k as usize) {
            None => 0,
            Some(part) => part.place.round(),
        }
    }

    /// The part with which layers are exchanged at a side.
    pub(crate) fn partner(&self, k: u32, dir: u8, side: Side) -> Option<u32>
        requires { k < length self.now.parts }
        ensures { result ≡ partner_at self.now.cut k dir side }
    {
        if dir >= 3 || along(&self.shape.ghost_, dir) <= 0 {
            return None;
        }
        self.cut.neighbour(k, dir, side)
    }

    /// Whether the one who sends to a part from a side stands before it.
    fn waits(&self, k: u32, dir: u8, side: Side) -> bool
        requires { k < length self.now.parts }
        ensures { result ≡ waits_for self.now.parts (partner_at self.now.cut k dir side) k }
    {
        match self.partner(k, dir, side) {
            None => false,
            Some(j) => is_before(self.parts.as_slice(), j, k),
        }
    }

    /// Whether what an operation takes was sent.
    fn takes(&self, k: u32, op: &Op) -> bool
        requires { k < length self.now.parts }
        ensures { result ≡ is_ready self.now k op.now }
    {
        match op {
            Op::Take(dir, _, _) => {
                !self.waits(k, *dir, Side::Low) && !self.waits(k, *dir, Side::High)
            }
            Op::Join(_) => !is_before(self.parts.as_slice(), self.hind, k),
            _ => true,
        }
    }

    /// Whether what a part's operation takes was sent.
    fn is_ready(&self, k: u32) -> bool
        requires { k < length self.now.parts }
        ensures { result ≡ is_ready self.now k (op_of self.now k) }
    {
        match self.op(k) {
            None => true,
            Some(op) => self.takes(k, op),
        }
    }

    /// The work for which a part's operation hands in a piece.
    fn work(&self, k: u32) -> Option<Work>
        requires { k < length self.now.parts }
        ensures { result ≡ work_of (op_of self.now k) (iteration_of self.now k) }
    {
        match self.op(k) {
            None => None,
            Some(op) => work_of(op, self.iteration(k)),
        }
    }

    /// Whether no work that a part has handed in has the buffer of its next piece.
    fn has_room(&self, k: u32) -> bool
        requires { k < length self.now.parts }
        ensures { result ≡ has_room self.now k }
    {
        is_room(self.work(k), self.works.as_slice(), self.part(k).handed)
    }

    /// Whether a part has handed in its piece of a checkpoint that isn't done.
    pub(crate) fn has_saved(&self, k: u32) -> bool
        ensures { result ≡ has_saved self.now k }
    {
        match self.parts.as_slice().get(k as usize) {
            None => false,
            Some(part) => has_buffer(self.works.as_slice(), part.handed, None),
        }
    }

    /// Whether a checkpoint was handed in that isn't done.
    pub(crate) fn is_saving(&self) -> bool
        ensures { result ≡ is_saving self.now }
    {
        some_checkpoint(self.works.as_slice())
    }

    /// Whether a part can do its next operation.
    pub(crate) fn can_go(&self, k: u32) -> bool
        requires { k < length self.now.parts }
        ensures { result ≡ can_go self.now k }
    {
        !self.over && self.goes_on(k) && self.is_near(k) && self.is_ready(k) && self.has_room(k)
    }

    /// Whether all parts have handed in the first work.
    fn all_in(&self) -> bool
        ensures { result ≡ all_in self.now }
    {
        is_some_work(self.works.as_slice()) && all_handed(self.parts.as_slice())
    }

    /// Whether no part goes on.
    fn all_stand(&self) -> bool
        ensures { result ≡ all_stand self.now }
    {
        let mut stand = true;
        'parts: for k in 0..self.count() {
            stand = stand && !self.goes_on(k);
        }
        stand
    }

    /// What the writer can do.
    pub(crate) fn writer(&self) -> Option<Next>
        ensures { result ≡ writer_going self.now }
    {
        if self.over {
            None
        } else if self.all_in() {
            Some(Next::Write)
        } else if self.all_stand() {
            Some(Next::End)
        } else {
            None
        }
    }

    /// Where another part stands at the hindmost place, if it is known without a search among all parts once part k is away.
    fn other_hind(&self, k: u32) -> Option<u32>
        requires { k < length self.now.parts }
        ensures { result ≡ other_hind self.now k }
    {
        if k != self.hind {
            return Some(self.hind);
        }
        let _ = self.count();
        twin(self.parts.as_slice(), k, &self.part(k).place)
    }

    /// The number of works.
    fn work_count(&self) -> usize
        ensures { result ≡ length self.now.works }
    {
        self.works.len()
    }

    /// Whether a part is the one that met the least end.
    fn is_stop(&self, k: u32) -> bool
        ensures { IsTrue result ↔ (self.now.stopped ≡ Some k) }
    {
        match self.stopped {
            None => false,
            Some(j) => j == k,
        }
    }

    /// The hindmost part is the one that is known, or it is searched for.
    fn set_hind(&mut self, other: Option<u32>)
        ensures { self.new ≡ with_hind self.old other }
    {
        self.hind = match other {
            Some(j) => j,
            None => hindmost(self.parts.as_slice(), self.cut.count()),
        };
    }

    /// A part's operation is done: it goes on, and hands in its piece. `scalar` is the scalar that the operation tests, if it tests
    /// one. When out of memory, nothing has changed. The answer is whether it is told that only this part and those that exchange
    /// faces with it can now go where they couldn't, or can't where they could.
    pub(crate) fn advance(&mut self, job: &Job, k: u32, scalar: i64) -> Result<bool, Memory>
        requires whole { IsWhole job.now }
        requires ops { self.old.ops ≡ code (setup_of job.now) }
        requires part { k < length self.old.parts }
        requires reached { IsReached (setup_of job.now) (part_of self.old k).place }
        ensures ok { (scalars : VarId → ℤ) → IsTested (op_of self.old k) scalars scalar
            → OnOk result (self.new ≡ moved_on (setup_of job.now) self.old k scalars) }
        ensures alone { IfOk result (λ alone. IsTrue alone → IsAlone self.old self.new k) }
        ensures err { OnErr result (self.new ≡ self.old) }
    {
        let other = self.other_hind(k);
        let known = self.work_count();
        let stop = self.is_stop(k);
        self.go_on(job, k, scalar)?;
        self.set_hind(other);
        Ok(is_alone(other, known, self.work_count(), stop))
    }

    /// A part's operation is done: it goes on, and hands in its piece. The hindmost part isn't searched for.
    fn go_on(&mut self, job: &Job, k: u32, scalar: i64) -> Result<(), Memory>
        requires whole { IsWhole job.now }
        requires ops { self.old.ops ≡ code (setup_of job.now) }
        requires part { k < length self.old.parts }
        requires reached { IsReached (setup_of job.now) (part_of self.old k).place }
        ensures ok { (scalars : VarId → ℤ) → IsTested (op_of self.old k) scalars scalar
            → OnOk result (self.new ≡ gone_on (setup_of job.now) self.old k scalars) }
        ensures err { OnErr result (self.new ≡ self.old) }
    {
        places_fit(job);
        let work = self.work(k);
        let before = self.part(k).handed;
        let pc = self.part(k).place.pc();
        let handed = hand_in(&mut self.works, work, before)?;
        let op = op_at(self.ops.as_slice(), pc);
        let part = &mut self.parts[k as usize];
        part.advance(job, op, scalar, handed);
        Ok(())
    }

    /// A part has met an end.
    pub(crate) fn meet(&mut self, k: u32)
        ensures { self.new ≡ met_by self.old k }
    {
        self.stopped = Some(k);
    }

    /// The writer has done the first work.
    pub(crate) fn write(&mut self)
        requires { 0 < length self.old.works }
        ensures { self.new ≡ wrote_one self.old }
    {
        take_first(&mut self.works);
        one_less(&mut self.parts);
    }

    /// The run is over.
    pub(crate) fn end(&mut self)
        ensures { self.new ≡ over_now self.old }
    {
        self.over = true;
    }
}

/// The first place of a run, or of one that is continued from a checkpoint of an iteration.
fn first_place(alloc: Global, ops: &[Op], from: Option<u64>) -> Place
    ensures { (job : Job) → IsWhole job → ops.now ≡ code (setup_of job)
        → result ≡ first_place (setup_of job) from }
{
    match from {
        None => Place::start(alloc),
        Some(iteration) => Place::at_analysis(alloc, ops, iteration),
    }
}

/// So many parts that stand at the first place.
fn first_parts(
    alloc: Global,
    ops: &[Op],
    from: Option<u64>,
    count: u32,
) -> Result<Vec<Standing>, Memory>
    ensures { (job : Job) → IsWhole job → ops.now ≡ code (setup_of job)
        → IfOk result (λ parts. parts.items
        ≡ replicate count (standing_at (first_place (setup_of job) from))) }
{
    let mut parts = Vec::new(alloc);
    'parts: for _ in 0..count {
        parts.push(Standing {
            place: first_place(alloc, ops, from),
            count: 0,
            handed: 0,
        })?;
    }
    Ok(parts)
}

/// All parts at the first place.
pub(crate) fn all_at_first(
    alloc: Global,
    job: &Job,
    cut: Cut,
    ops: List<Op>,
    from: Option<u64>,
) -> Result<Standings, Memory>
    requires whole { IsWhole job.now }
    requires ops { ops ≡ code (setup_of job.now) }
    requires shape { cut.shape ≡ job.now.shape }
    requires cut { cuts.IsWhole cut }
    ensures { IfOk result (λ s. s
        ≡ all_at cut ops job.now.lead (first_place (setup_of job.now) from)) }
{
    let parts = first_parts(alloc, ops.as_slice(), from, cut.count())?;
    Ok(Standings {
        cut,
        shape: job.shape,
        ops,
        lead: job.lead,
        parts,
        works: Vec::new(alloc),
        stopped: None,
        over: false,
        hind: 0,
    })
}
