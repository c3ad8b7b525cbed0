//! The texts that commands print of a job.
ghost use Rattle.std.specs.Prelude.{◌≡◌, ◌++◌, IfOk};
ghost use Rattle.cx_cut.specs.Faults.{parts_of};
ghost use Rattle.cx_run.specs.CutTexts.{cut_lines};

use crate::cut_texts::push_cut_lines;
use cx_plan::Job;
use cx_text::{Memory, Text};
use std::alloc::Global;

/// The schedule of a job as text: a line for each bin, group and call. It fails where memory runs out.
pub fn schedule_text(alloc: Global, job: &Job) -> Result<Text, Memory>
    ensures { IfOk result (λ text. text ≡ job.now.plan_text) }
{
    Text::from_slice(alloc, job.plan_text.as_slice())
}

/// The key of a job as text: a line for each thorn, direction of the grid, variable and parameter that says what is computed, then the
/// schedule text. It fails where memory runs out.
pub fn key_lines(alloc: Global, job: &Job) -> Result<Text, Memory>
    ensures { IfOk result (λ text. text ≡ job.now.key) }
{
    Text::from_slice(alloc, job.key.as_slice())
}

/// All that a job is made of, as text: its key, then a line for each parameter that only says how and where it is run, then a line for
/// each direction of the grid with the widths of its parts. It fails where memory runs out.
pub fn describe(alloc: Global, job: &Job) -> Result<Text, Memory>
    ensures { IfOk result (λ text. text ≡ job.now.key ++ job.now.starred
        ++ cut_lines (parts_of job.now.shape job.now.cut)) }
{
    let mut text = key_lines(alloc, job)?;
    text.push_slice(job.starred.as_slice())?;
    push_cut_lines(&mut text, alloc, job)?;
    Ok(text)
}
