//! Which event is next: the one that the source of turns picks.
ghost use Rattle.std.specs.Prelude.{◌≡◌, ◌<◌, ℕ, true, false, length, slice_get, Some};
ghost use Rattle.cx_core.specs.Cores.{ahead_in, enabled_in};
ghost use Rattle.cx_run_loop.specs.Turning.{Picks, waiting};

use cx_core::Core;
use cx_plan::Job;
use cx_turns::Turns;

/// The number of the event that the source picks: of all that can happen or, where a job is balanced, of those that don't lie
/// ahead. So the parts of such a job wait for each other at each checkpoint.
pub(crate) fn pick<T: Turns>(job: &Job, core: &Core, turns: &mut T) -> u64
    requires some { (k : ℕ) × (k < enabled_in core.now) × (ahead_in core.now k ≡ false) }
    ensures below { result < enabled_in core.now }
    ensures waits { job.now.balance ≡ true → ahead_in core.now result ≡ false }
    ensures picks { Picks T.Turns job.now.balance core.now turns.old result turns.new }
    ensures begun { T.begun turns.new ≡ T.begun turns.old }
{
    if job.balance {
        pick_waiting(core, turns)
    } else {
        turns.pick(core.enabled())
    }
}

/// The number of the event that the source picks among those that don't lie ahead. Most of the time none does, and none is sought.
fn pick_waiting<T: Turns>(core: &Core, turns: &mut T) -> u64
    requires some { (k : ℕ) × (k < enabled_in core.now) × (ahead_in core.now k ≡ false) }
    ensures below { result < enabled_in core.now }
    ensures waits { ahead_in core.now result ≡ false }
    ensures picks { Picks T.Turns true core.now turns.old result turns.new }
    ensures begun { T.begun turns.new ≡ T.begun turns.old }
{
    if core.is_saving() {
        let i = turns.pick(waiting(core));
        nth_waiting(core, i)
    } else {
        turns.pick(core.enabled())
    }
}

/// How many events can happen that don't lie ahead.
fn waiting(core: &Core) -> u64
    ensures { result ≡ length (waiting core.now) }
{
    let mut count = 0;
    'events: for k in 0..core.enabled() {
        if !core.ahead(k) {
            count += 1;
        }
    }
    count
}

/// The number of the i-th of them, among all that can happen.
fn nth_waiting(core: &Core, i: u64) -> u64
    requires there { i < length (waiting core.now) }
    ensures below { result < enabled_in core.now }
    ensures nth { slice_get (waiting core.now) i ≡ Some result }
    ensures waits { ahead_in core.now result ≡ false }
{
    let mut left = i;
    'events: for k in 0..core.enabled() {
        if !core.ahead(k) {
            if left == 0 {
                return k;
            }
            left -= 1;
        }
    }
    unreachable!()
}
