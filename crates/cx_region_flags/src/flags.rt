//! Which flags of a level are set, and what writes make of them.

ghost use Rattle.std.specs.Prelude.{◌≡◌, ◌<◌, ◌&&◌, ◌||◌, not, ◌==◌, ◌+◌, ◌*◌, ℕ, length, slice_index_or, slice_set, if◌then◌else◌};
ghost use Rattle.cx_plan.specs.declared.flag.Flag.{Flag as FlagType};
ghost use Rattle.cx_plan.specs.Setups.{setup_of};
ghost use Rattle.cx_plan.specs.Lookups.{is_scalar};
ghost use Rattle.cx_plan.specs.Regions.{after_write, after_scalar, is_G};
ghost use Rattle.cx_region_flags.specs.Cells.{none_set, flag_of, flag_after};
ghost use Rattle.cx_region_flags.specs.AllPaths.{both, is_within};

use crate::variables::is_scalar;
use cx_plan::{Flag, Job, Region, Touch};

/// The flags of a level.
#[derive(Clone, Copy, Debug, PartialEq, Eq)]
pub struct LevelFlags {
    pub interior: bool,
    pub boundary: bool,
    pub ghosts: bool,
    pub scalar: bool,
}

/// No flag is set.
pub(crate) const NONE_SET: LevelFlags = LevelFlags {
    interior: false,
    boundary: false,
    ghosts: false,
    scalar: false,
};

/// Each flag is set.
pub(crate) const ALL_SET: LevelFlags = LevelFlags {
    interior: true,
    boundary: true,
    ghosts: true,
    scalar: true,
};

/// Whether a flag is set.
pub(crate) fn is_set(flags: LevelFlags, flag: Flag) -> bool
    ensures { result ≡ flag_of flags flag }
{
    match flag {
        Flag::I => flags.interior,
        Flag::B => flags.boundary,
        Flag::G => flags.ghosts,
        Flag::S => flags.scalar,
    }
}

/// The flags of a grid variable's level, once this region has been written.
fn after_write(flags: LevelFlags, region: Region) -> LevelFlags
    ensures { (f : FlagType) → flag_of result f ≡ after_write region f (flag_of flags f) }
{
    match region {
        Region::Interior => LevelFlags {
            interior: true,
            boundary: false,
            ghosts: false,
            scalar: flags.scalar,
        },
        Region::Everywhere => LevelFlags {
            interior: true,
            boundary: true,
            ghosts: true,
            scalar: flags.scalar,
        },
        Region::Boundary => LevelFlags {
            boundary: true,
            ..flags
        },
    }
}

/// The flags of a scalar, once it has been written.
fn after_scalar(flags: LevelFlags) -> LevelFlags
    ensures { (f : FlagType) → flag_of result f ≡ after_scalar f (flag_of flags f) }
{
    LevelFlags {
        scalar: true,
        ..flags
    }
}

/// The flags of a level, once it has been written.
pub(crate) fn after(job: &Job, write: &Touch, flags: LevelFlags) -> LevelFlags
    ensures { (f : FlagType)
        → flag_of result f ≡ flag_after (setup_of job.now) write.now f (flag_of flags f) }
{
    if is_scalar(job, write.var) {
        return after_scalar(flags);
    }
    after_write(flags, write.region)
}

/// The flags of a level, once it has been exchanged.
pub(crate) fn after_exchange(flags: LevelFlags) -> LevelFlags
    ensures { (f : FlagType) → flag_of result f ≡ (is_G f || flag_of flags f) }
{
    LevelFlags {
        ghosts: true,
        ..flags
    }
}

/// The flags that are set in both.
pub(crate) fn both(a: LevelFlags, b: LevelFlags) -> LevelFlags
    ensures { result ≡ both a b }
{
    LevelFlags {
        interior: a.interior && b.interior,
        boundary: a.boundary && b.boundary,
        ghosts: a.ghosts && b.ghosts,
        scalar: a.scalar && b.scalar,
    }
}

/// Whether each flag that is set in the first is set in the second.
pub(crate) fn is_within(a: LevelFlags, b: LevelFlags) -> bool
    ensures { result ≡ is_within a b }
{
    (!a.interior || b.interior)
        && (!a.boundary || b.boundary)
        && (!a.ghosts || b.ghosts)
        && (!a.scalar || b.scalar)
}
