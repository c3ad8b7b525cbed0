//! Runs that are stopped and started again.
ghost use Rattle.std.specs.Prelude.{ℕ, suc, ◌<◌, ◌≤◌};
ghost use Rattle.law_restarts.specs.Restarts.{Start, IsStart, GoesOn, BeginsOnTrails, EndsAlike};

/// A run of a job that was started, stopped, and started again a number of times, start after start. It has no code: it says in one
/// place what the law asks for.
pub trait Restarts {
    /// What each start was handed, and what it left. The first one has the number 0.
    ghost start: { Self → ℕ → Start };

    /// How often the run was started again.
    ghost times: { Self → ℕ };

    /// Each start is a call of the program's top call, over a disk and a wire that tell what they hold.
    ghost calls: { (x : Self) (n : ℕ) → n ≤ times x → IsStart (start x n) };

    /// Each start but the first finds a disk that a crash may have left of the one before, whose checkpoints are of its run, too.
    ghost goes_on: { (x : Self) (n : ℕ) → n < times x → GoesOn (start x n) (start x (suc n)) };
}

/// However often a run is stopped, and at whatever moment of a start, its last start leaves what the undivided run of its job does.
/// It does nothing; its clause is the law.
///
/// The first start begins on trails: a disk without checkpoints is one. The starts may be of different parameter files, which say
/// otherwise how and where the run is done, and of other steers after the newest checkpoint (`one_run` says which). Where the last
/// start ends with status 0 or 3 the output of each variable is that of the undivided run of its job, in each image that a crash
/// may leave, too; at 0 the points computed and the values exchanged by this start are those of what was left to do after the
/// newest checkpoint.
pub fn restarts_end_alike<R: Restarts>(restarts: &R)
    ensures { BeginsOnTrails (R.start restarts.now 0)
        → EndsAlike (R.start restarts.now (R.times restarts.now)) }
{}
