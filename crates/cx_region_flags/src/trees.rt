//! The trees of a plan.

ghost use Rattle.std.specs.Prelude.{◌≡◌, ◌≤◌, length, slice_get, IfSome, IfNone};
ghost use Rattle.std.specs.Option.{option_copied};
ghost use Rattle.cx_plan.specs.Bins.{bin_number};
ghost use Rattle.cx_region_flags.specs.AllPaths.{tree_in};

use cx_plan::{Bin, Job, Tree};

/// The tree of a bin, if the plan has one.
pub fn tree_of(job: &Job, bin: Bin) -> Option<&Tree>
    ensures tree { option_copied result ≡ slice_get job.now.plan.bins (bin_number bin) }
    ensures some { IfSome result (λ tree. tree.now ≡ tree_in job.now (bin_number bin)) }
    ensures none { IfNone result (length job.now.plan.bins ≤ bin_number bin) }
{
    job.plan.bins.as_slice().get(bin.number())
}
