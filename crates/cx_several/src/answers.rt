//! What comes of a member's run, as the answer of its run alone.
ghost use Rattle.std.specs.Prelude.{◌≡◌, ◌⊎◌};
ghost use Rattle.cx_run.specs.Answers.{AnswersRun, answer_at, end_in};
ghost use Rattle.cx_run.specs.declared.reply.Answer.TheVariants as a;
ghost use Rattle.cx_run.specs.declared.words.Command.TheVariants as commands;
ghost use Rattle.cx_several.specs.Members.{AnswersStage};

use cx_core::Core;
use cx_plan::Job;
use cx_run::{Answer, answer_for, answer_to_outcome};
use cx_run_batch::{Member, Stage};
use cx_run_loop::DriveFault;
use std::alloc::Global;
use std::mem;

/// The answer to a member's run, whose core is dropped.
pub(crate) fn answer_to(alloc: Global, member: &mut Member) -> Answer
    ensures answers { AnswersStage member.old.job member.old.stage result }
{
    let stage = mem::replace(&mut member.stage, Stage::Over(Err(DriveFault::Memory)));
    answer_at_stage(alloc, &member.job, stage)
}

/// The answer to a run that is so far.
fn answer_at_stage(alloc: Global, job: &Job, stage: Stage) -> Answer
    ensures { AnswersStage job.now stage result }
{
    match stage {
        Stage::Going(_) => Answer::Memory,
        Stage::Over(came) => answer_to_run(alloc, job, came),
    }
}

/// The answer to a run that is over.
fn answer_to_run(alloc: Global, job: &Job, came: Result<Core, DriveFault>) -> Answer
    ensures { AnswersRun commands.Run job.now came result }
{
    match came {
        Ok(core) => answer_to_core(alloc, job, &core),
        Err(fault) => answer_for(fault),
    }
}

/// The answer to a run that came to its end, or want of memory.
fn answer_to_core(alloc: Global, job: &Job, core: &Core) -> Answer
    ensures { (result ≡ a.Memory)
        ⊎ (result ≡ answer_at job.now.itlast (end_in core.now.outcome)) }
{
    answer_to_outcome(alloc, job.itlast, core.outcome())
}
