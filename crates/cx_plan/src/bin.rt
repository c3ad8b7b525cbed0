//! The bins of a schedule.
ghost use Rattle.std.specs.Prelude.{◌≡◌, ◌<◌, nat_lt};
ghost use Rattle.cx_plan.specs.Bins.{bin_number};
ghost use Rattle.cx_plan.specs.Lookups.{bin_count, run_bin_count, bin_name};

/// A bin of a schedule. A plan has a tree for each of them, in this order; the last four aren't run.
#[derive(Clone, Copy, Debug, PartialEq, Eq)]
pub enum Bin {
    Startup,
    Wragh,
    Paramcheck,
    Basegrid,
    Initial,
    Postinitial,
    Prestep,
    Evol,
    Poststep,
    Checkpoint,
    Analysis,
    Terminate,
    Shutdown,
    Cpinitial,
    RecoverParameters,
    RecoverVariables,
    PostRecoverVariables,
}

impl Bin {
    /// What runs at iteration 0, before ANALYSIS.
    pub const START: &'static [Bin] = &[
        Bin::Startup,
        Bin::Wragh,
        Bin::Paramcheck,
        Bin::Basegrid,
        Bin::Initial,
        Bin::Postinitial,
        Bin::Poststep,
    ];

    /// What runs in each later iteration, before CHECKPOINT and ANALYSIS.
    pub const STEP: &'static [Bin] = &[Bin::Prestep, Bin::Evol, Bin::Poststep];

    /// What runs at the end.
    pub const END: &'static [Bin] = &[Bin::Terminate, Bin::Shutdown];

    /// The bins that are run, by their numbers.
    pub const RUN: &'static [Bin] = &[
        Bin::Startup,
        Bin::Wragh,
        Bin::Paramcheck,
        Bin::Basegrid,
        Bin::Initial,
        Bin::Postinitial,
        Bin::Prestep,
        Bin::Evol,
        Bin::Poststep,
        Bin::Checkpoint,
        Bin::Analysis,
        Bin::Terminate,
        Bin::Shutdown,
    ];

    /// All bins, by their numbers.
    pub const ALL: &'static [Bin] = &[
        Bin::Startup,
        Bin::Wragh,
        Bin::Paramcheck,
        Bin::Basegrid,
        Bin::Initial,
        Bin::Postinitial,
        Bin::Prestep,
        Bin::Evol,
        Bin::Poststep,
        Bin::Checkpoint,
        Bin::Analysis,
        Bin::Terminate,
        Bin::Shutdown,
        Bin::Cpinitial,
        Bin::RecoverParameters,
        Bin::RecoverVariables,
        Bin::PostRecoverVariables,
    ];

    /// Its place in a plan.
    pub fn number(self) -> usize
        ensures number { result ≡ bin_number self }
        ensures below { result < bin_count }
    {
        match self {
            Bin::Startup => 0,
            Bin::Wragh => 1,
            Bin::Paramcheck => 2,
            Bin::Basegrid => 3,
            Bin::Initial => 4,
            Bin::Postinitial => 5,
            Bin::Prestep => 6,
            Bin::Evol => 7,
            Bin::Poststep => 8,
            Bin::Checkpoint => 9,
            Bin::Analysis => 10,
            Bin::Terminate => 11,
            Bin::Shutdown => 12,
            Bin::Cpinitial => 13,
            Bin::RecoverParameters => 14,
            Bin::RecoverVariables => 15,
            Bin::PostRecoverVariables => 16,
        }
    }

    /// Its name in schedules.
    pub fn name(self) -> &'static [u8]
        ensures { result.now ≡ bin_name (bin_number self) }
    {
        match self {
            Bin::Startup => b"STARTUP",
            Bin::Wragh => b"WRAGH",
            Bin::Paramcheck => b"PARAMCHECK",
            Bin::Basegrid => b"BASEGRID",
            Bin::Initial => b"INITIAL",
            Bin::Postinitial => b"POSTINITIAL",
            Bin::Prestep => b"PRESTEP",
            Bin::Evol => b"EVOL",
            Bin::Poststep => b"POSTSTEP",
            Bin::Checkpoint => b"CHECKPOINT",
            Bin::Analysis => b"ANALYSIS",
            Bin::Terminate => b"TERMINATE",
            Bin::Shutdown => b"SHUTDOWN",
            Bin::Cpinitial => b"CPINITIAL",
            Bin::RecoverParameters => b"RECOVER_PARAMETERS",
            Bin::RecoverVariables => b"RECOVER_VARIABLES",
            Bin::PostRecoverVariables => b"POST_RECOVER_VARIABLES",
        }
    }

    /// Whether a run comes to it.
    pub fn is_run(self) -> bool
        ensures { result ≡ nat_lt (bin_number self) run_bin_count }
    {
        self.number() < Bin::RUN.len()
    }
}
