//! Laws of a run in parts.
ghost use Rattle.std.specs.Prelude.{Bool, IsTrue, List};
ghost use Rattle.cx_grid.specs.Grid.{HasInterior};
ghost use Rattle.cx_plan.specs.Paths.{Sound};
ghost use Rattle.cx_plan.specs.Regions.{HasShapes};
ghost use Rattle.cx_plan.specs.Setups.{setup_of};
ghost use Rattle.cx_plan.specs.Whole.{IsWhole};
ghost use Rattle.cx_rule.specs.Routine.{Rule};
ghost use Rattle.cx_cut.specs.Cuts.{IsCut};
ghost use Rattle.cx_cut.specs.Faults.{parts_of};
ghost use Rattle.law_parts.specs.Beginnings.{Beginning, IsBeginning, run_of};
ghost use Rattle.law_parts.specs.Ends.{OneEnd};
ghost use Rattle.law_parts.specs.Laws.{EachOrder, StepsKeep};
ghost use Rattle.law_parts.specs.Nets.{within_lead, in_lockstep};
ghost use Rattle.law_parts.specs.Totals.{DoneCounts, undivided_from};
ghost use Rattle.law_parts.specs.Works.{OneWork};

use cx_flat::{all_ways, flat_is_run, operation_needs_met};
use cx_plan::Job;

/// In every order of events each part agrees with the undivided run, where wires carry what they are given.
///
/// The job is whole, its items have their shapes, its grid has interior points, the region check accepts it, and its widths cut
/// its grid. The run begins at its start, or in any whole state of the checkpoint place of an iteration; it goes by any rules,
/// and by the job's lead or in lockstep. Then in each state that any order of events reaches, each part agrees with the
/// undivided run at its own place, each queue holds exactly what was posted and not yet taken, some event can happen until the
/// end is reported, each event lessens what is left, and the end that is reported is the undivided run's. It does nothing that
/// shows; its clauses are the law.
pub fn each_order_agrees(job: &Job)
    requires whole { IsWhole job.now }
    requires shapes { HasShapes (setup_of job.now) }
    requires interior { HasInterior job.now.shape }
    requires sound { Sound (setup_of job.now) }
    requires cut { IsCut (parts_of job.now.shape job.now.cut) }
    ensures by_lead { (rules : List Rule) (b : Beginning) → IsBeginning (setup_of job.now) b
        → EachOrder within_lead (run_of job.now rules b) }
    ensures in_step { (rules : List Rule) (b : Beginning) → IsBeginning (setup_of job.now) b
        → EachOrder in_lockstep (run_of job.now rules b) }
{
    flat_is_run(job);
    all_ways(job);
    operation_needs_met(job);
}

/// Event by event the parts agree with the undivided run, for wires that report what they carry and for
/// those that don't: the run begins in a state in which each part agrees at its own place by what the parts
/// give for reductions, and each event that can happen leads to such a state. Where wires report, that is the
/// undivided run, and so are its ends. It does nothing that shows; its clause is the law.
pub fn each_event_keeps(job: &Job)
    requires whole { IsWhole job.now }
    requires shapes { HasShapes (setup_of job.now) }
    requires interior { HasInterior job.now.shape }
    requires sound { Sound (setup_of job.now) }
    requires cut { IsCut (parts_of job.now.shape job.now.cut) }
    ensures { (told : Bool) (rules : List Rule) (b : Beginning) → IsBeginning (setup_of job.now) b
        → StepsKeep (IsTrue told) (run_of job.now rules b) }
{
    flat_is_run(job);
    all_ways(job);
    operation_needs_met(job);
}

/// In every order of events, where the run in parts is over at its last place: the points that all parts computed, and the values
/// that all parts received, are as many as the undivided run's entries say. It does nothing that shows; its clauses are the law.
pub fn done_totals(job: &Job)
    requires whole { IsWhole job.now }
    requires shapes { HasShapes (setup_of job.now) }
    requires interior { HasInterior job.now.shape }
    requires sound { Sound (setup_of job.now) }
    requires cut { IsCut (parts_of job.now.shape job.now.cut) }
    ensures by_lead { (rules : List Rule) (b : Beginning) → IsBeginning (setup_of job.now) b
        → DoneCounts within_lead (run_of job.now rules b)
        (undivided_from (setup_of job.now) rules b) }
    ensures in_step { (rules : List Rule) (b : Beginning) → IsBeginning (setup_of job.now) b
        → DoneCounts in_lockstep (run_of job.now rules b)
        (undivided_from (setup_of job.now) rules b) }
{
    flat_is_run(job);
    all_ways(job);
    operation_needs_met(job);
}

/// In every order of events the end that is reported is the undivided run's: the Overflow, with its path, the WHILE limit or the
/// limit of an output that is met at the place that is reported; and none where none is met there. The entries noted before
/// that place are the first ones of the undivided run, in order. It does nothing that shows; its clauses are the law.
pub fn one_end(job: &Job)
    requires whole { IsWhole job.now }
    requires shapes { HasShapes (setup_of job.now) }
    requires interior { HasInterior job.now.shape }
    requires sound { Sound (setup_of job.now) }
    requires cut { IsCut (parts_of job.now.shape job.now.cut) }
    ensures by_lead { (rules : List Rule) (b : Beginning) → IsBeginning (setup_of job.now) b
        → OneEnd within_lead (run_of job.now rules b) (undivided_from (setup_of job.now) rules b) }
    ensures in_step { (rules : List Rule) (b : Beginning) → IsBeginning (setup_of job.now) b
        → OneEnd in_lockstep (run_of job.now rules b) (undivided_from (setup_of job.now) rules b) }
{
    flat_is_run(job);
    all_ways(job);
    operation_needs_met(job);
}

/// In every order of events, at each work that the writer can do next: the text that the pieces in front of it make is that of
/// the undivided run's entry there, and the pieces of a checkpoint are the entry's state, each over the points that its part
/// owns. It does nothing that shows; its clauses are the law.
pub fn one_work(job: &Job)
    requires whole { IsWhole job.now }
    requires shapes { HasShapes (setup_of job.now) }
    requires interior { HasInterior job.now.shape }
    requires sound { Sound (setup_of job.now) }
    requires cut { IsCut (parts_of job.now.shape job.now.cut) }
    ensures by_lead { (rules : List Rule) (b : Beginning) → IsBeginning (setup_of job.now) b
        → OneWork within_lead (run_of job.now rules b) }
    ensures in_step { (rules : List Rule) (b : Beginning) → IsBeginning (setup_of job.now) b
        → OneWork in_lockstep (run_of job.now rules b) }
{
    flat_is_run(job);
    all_ways(job);
    operation_needs_met(job);
}
