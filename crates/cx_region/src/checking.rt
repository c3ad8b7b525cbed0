//! The region check.

ghost use Rattle.std.specs.Prelude.{◌≡◌, IfOk};
ghost use Rattle.cx_plan.specs.Paths.{Sound};
ghost use Rattle.cx_plan.specs.Setups.{setup_of};
ghost use Rattle.cx_plan.specs.Whole.{IsWhole};
ghost use Rattle.cx_region.specs.Checks.{unset, Checks, Finds};
ghost use Rattle.cx_region.specs.OneFlag.{IsAlwaysMet, AreAlwaysMet};
ghost use Rattle.cx_region_flags.specs.Unmet.{seen};

use crate::RegionFault;
use crate::check_shapes::check_shapes;
use crate::one_flag_job::follow_job;
use crate::witness::{Followed, WitnessStop};
use cx_plan::{Flag, Job, VarId};
use cx_region_flags::{Stop, Unmet, full_name, walk_job};
use cx_text::{Memory, Text};
use std::alloc::Global;

/// A need that isn't met on a way of these letters, in words.
fn unset(alloc: Global, job: &Job, letters: Text, unmet: &Unmet<'_>) -> Result<RegionFault, Memory>
    ensures { IfOk result (λ fault. fault ≡ unset (setup_of job.now) letters (seen unmet.now)) }
{
    Ok(RegionFault::Unset {
        path: letters,
        item: Text::from_slice(alloc, unmet.place)?,
        var: Text::from_slice(alloc, full_name(job, unmet.var))?,
        level: unmet.level,
        flag: unmet.flag,
    })
}

/// Follows one flag along all ways.
fn check_flag(alloc: Global, job: &Job, variable: VarId, flag: Flag) -> Result<(), RegionFault>
    requires { IsWhole job.now }
    ensures { Finds (setup_of job.now)
        (IsAlwaysMet (setup_of job.now) (record { variable = variable; flag = flag })) result }
{
    match follow_job(alloc, job, Followed { variable, flag }) {
        Ok(()) => Ok(()),
        Err(WitnessStop::Unset(letters, unmet)) => Err(unset(alloc, job, letters, &unmet)?),
        Err(WitnessStop::Memory) => Err(RegionFault::Memory),
    }
}

/// Follows each flag of a variable.
fn check_flags(alloc: Global, job: &Job, variable: VarId) -> Result<(), RegionFault>
    requires { IsWhole job.now }
    ensures { Finds (setup_of job.now) (AreAlwaysMet (setup_of job.now) variable) result }
{
    check_flag(alloc, job, variable, Flag::I)?;
    check_flag(alloc, job, variable, Flag::B)?;
    check_flag(alloc, job, variable, Flag::G)?;
    check_flag(alloc, job, variable, Flag::S)
}

/// Follows each flag of each variable.
fn check_variables(alloc: Global, job: &Job) -> Result<(), RegionFault>
    requires { IsWhole job.now }
    ensures { Finds (setup_of job.now) (Sound (setup_of job.now)) result }
{
    'numbers: for number in 0..job.vars.len() {
        check_flags(alloc, job, VarId(number as u32))?;
    }
    Ok(())
}

/// Tests that no need is unmet on any way: by one walk along all ways at once, and where that meets a need of a flag that isn't set on
/// every way, by following first this flag and then each one.
fn check_paths(alloc: Global, job: &Job) -> Result<(), RegionFault>
    requires { IsWhole job.now }
    ensures { Finds (setup_of job.now) (Sound (setup_of job.now)) result }
{
    match walk_job(alloc, job) {
        Ok(()) => Ok(()),
        Err(Stop::Unmet(unmet)) => {
            check_flag(alloc, job, unmet.var, unmet.flag)?;
            check_variables(alloc, job)
        }
        Err(Stop::Memory) => Err(RegionFault::Memory),
    }
}

/// Tests that no routine of a job reads a point that nobody has filled, whatever way a run takes.
///
/// Each level of a grid variable has three flags, which say that its interior points (I), its boundary points (B) and its ghost points
/// (G) are filled, and each scalar has one (S); all begin cleared. An item's declaration must stand in this table:
///
/// | kind and declaration | needs | leaves |
/// |---|---|---|
/// | Cell, WRITES interior, READS everywhere with a reach of at most the least ghost width | I, B, G of the read | |
/// | Cell, WRITES interior, READS interior with reach 0 | I | |
/// | Cell, WRITES interior | | I set, B and G cleared |
/// | Cell, WRITES everywhere, READS everywhere with reach 0 | I, B, G | |
/// | Cell, WRITES everywhere | | I, B, G set |
/// | Cell, WRITES boundary, READS interior with reach 0 | I, G | |
/// | Cell, WRITES boundary | | B set |
/// | a reduction, one read everywhere with reach 0, one scalar written | I, B | S set |
/// | any, a scalar read; IF; WHILE | S | |
/// | Scalar, only scalars read and written | | S set |
/// | SYNC | I | G set |
/// | rotation | | flags move with the levels, the current level's are cleared |
/// | output of a variable | I, B or S | |
///
/// All writes of a Cell item are of one region, and no level is written twice. B counts as set where the grid has no boundary points. A way
/// takes any number of iterations, each IF and the CHECKPOINT bin of each iteration either way, and each WHILE any number of turns; output is
/// met after each ANALYSIS where there is any.
///
/// Shape: the first item, in the order of items, that isn't in the table, with the full name of its first write. Unset: on a way of these
/// letters this need is the first that isn't met; at one entry its IF or WHILE comes first, then its reads in order, each with I before B
/// before G, then its SYNC. (This table is this project's own; READS and WRITES are those of the Cactus 4 Users' Guide, schedule.ccl.)
pub fn check(alloc: Global, job: &Job) -> Result<(), RegionFault>
    requires { IsWhole job.now }
    ensures { Checks (setup_of job.now) result }
{
    check_shapes(alloc, job)?;
    check_paths(alloc, job)
}
