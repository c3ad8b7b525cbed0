//! A witness: a way through a job, with the flags that are set on it.

ghost use Rattle.std.specs.Prelude.{◌≡◌, ◌≤◌, length, option_map, not, IfOk, OnOk};
ghost use Rattle.cx_grid.specs.Grid.{IsShape};
ghost use Rattle.cx_plan.specs.Whole.{IsWhole};
ghost use Rattle.cx_region_flags.specs.Agreeing.{IsAct, Leaves};
ghost use Rattle.cx_region_flags.specs.AllPaths.{Only};
ghost use Rattle.cx_region_flags.specs.Cells.{flags_in};
ghost use Rattle.cx_region_flags.specs.Unmet.{seen, unmet_at};
ghost use Rattle.cx_region.specs.Witnesses.{act_of, start_of, with_letter, Takes, Comes};

use cx_plan::{Flag, Job, VarId};
use cx_region_flags::{
    FlagTable, Unmet, unmet_of_item, unmet_of_output, unmet_of_sync, unmet_of_test, write_item,
};
use cx_text::{Memory, Text};
use std::alloc::{AllocFailed, Global};

/// A way through a job up to a place, with its own flags. What isn't met on it isn't met on a path.
#[derive(Drop)]
pub(crate) struct Witness {
    /// The letters of the ways that it has taken at IFs, WHILEs and the CHECKPOINT bin, and of its iterations.
    pub(crate) letters: Text,
    /// The flags that are set where it ends.
    pub(crate) flags: FlagTable,
}

/// A flag that is followed through the levels of a variable.
#[derive(Clone, Copy, Debug)]
pub(crate) struct Followed {
    pub(crate) variable: VarId,
    pub(crate) flag: Flag,
}

/// What a way meets.
#[derive(Clone, Copy)]
pub(crate) enum Step<'a> {
    /// The item of this number runs.
    Turn(u32),
    /// Level 0 of these variables is exchanged, by the entry of this path.
    Exchange(&'a [VarId], &'a [u8]),
    /// The IF or WHILE of this path reads its scalar.
    Test(VarId, &'a [u8]),
    /// Levels move to the next older ones.
    Rotate,
    /// Output is written.
    Output,
}

/// Why ways don't go on.
#[derive(Drop)]
pub(crate) enum WitnessStop<'a> {
    /// On a way of these letters this need isn't met.
    Unset(Text, Unmet<'a>),
    /// Out of memory.
    Memory,
}

impl<'a> From<Memory> for WitnessStop<'a> {
    ghost use Rattle.std.specs.Prelude.{◌≡◌};
    ghost use Rattle.cx_region.specs.declared.witness.WitnessStop.TheVariants as stops;

    ghost from_gives = { λ _ e. e ≡ stops.Memory };

    fn from(_: Memory) -> Self {
        WitnessStop::Memory
    }
}

impl<'a, T: Drop> From<AllocFailed<T>> for WitnessStop<'a> {
    ghost use Rattle.std.specs.Prelude.{◌≡◌};
    ghost use Rattle.cx_region.specs.declared.witness.WitnessStop.TheVariants as stops;

    ghost from_gives = { λ _ e. e ≡ stops.Memory };

    fn from(_: AllocFailed<T>) -> Self {
        WitnessStop::Memory
    }
}

impl Witness {
    /// The beginning of all ways: no flag is set.
    pub(crate) fn start(alloc: Global, job: &Job) -> Result<Self, Memory>
        requires { length job.now.vars ≤ 256 }
        ensures { IfOk result (λ way. way ≡ start_of job.now) }
    {
        Ok(Witness {
            letters: Text::new(Vec::new(alloc)),
            flags: FlagTable::new(alloc, job)?,
        })
    }

    /// The first need of a step that isn't met here.
    fn unmet<'a>(&self, job: &'a Job, step: Step<'a>) -> Option<Unmet<'a>>
        requires { IsShape job.now.shape }
        ensures { option_map seen result ≡ unmet_at job.now self.now.flags (act_of step.entry) }
    {
        match step {
            Step::Turn(item) => unmet_of_item(job, &self.flags, item),
            Step::Exchange(variables, path) => unmet_of_sync(job, &self.flags, variables, path),
            Step::Test(variable, path) => unmet_of_test(job, &self.flags, variable, path),
            Step::Rotate => None,
            Step::Output => unmet_of_output(job, &self.flags),
        }
    }

    /// The way after a step, or where it stops.
    pub(crate) fn take<'a>(self, job: &'a Job, step: Step<'a>) -> Result<Self, WitnessStop<'a>>
        requires { IsWhole job.now }
        ensures takes { IsAct job.now (act_of step.entry)
            → Takes job.now (act_of step.entry) self result }
        ensures comes { IsAct job.now (act_of step.entry)
            → Comes job.now (Only (act_of step.entry)) self result }
    {
        if let Some(unmet) = self.unmet(job, step) {
            return Err(WitnessStop::Unset(self.letters, unmet));
        }
        let Witness { letters, mut flags } = self;
        leave(job, &mut flags, step);
        Ok(Witness { letters, flags })
    }

    /// A copy of the way with its flags.
    pub(crate) fn copy(&self, alloc: Global) -> Result<Self, Memory>
        ensures { IfOk result (λ way. way ≡ self.now) }
    {
        Ok(Witness {
            letters: Text::from_slice(alloc, self.letters.as_slice())?,
            flags: self.flags.copy(alloc)?,
        })
    }

    /// Notes one more letter.
    pub(crate) fn add_letter(&mut self, letter: u8) -> Result<(), Memory>
        ensures { OnOk result (self.new ≡ with_letter letter self.old) }
    {
        self.letters.push_slice(&[letter])
    }

    /// Whether a flag is cleared at a level.
    pub(crate) fn is_cleared(&self, followed: Followed, level: u8) -> bool
        ensures { result ≡ not (flags_in self.now.flags followed.variable level followed.flag) }
    {
        !self.flags.is_set(followed.variable, level, followed.flag)
    }
}

/// Notes what a step leaves.
fn leave(job: &Job, flags: &mut FlagTable, step: Step<'_>)
    ensures { IsAct job.now (act_of step.entry)
        → Leaves job.now (act_of step.entry) flags.old flags.new }
{
    match step {
        Step::Turn(number) => write_item(job, flags, number),
        Step::Exchange(variables, _) => flags.exchange(variables),
        Step::Rotate => flags.rotate(job),
        Step::Test(_, _) | Step::Output => {}
    }
}
