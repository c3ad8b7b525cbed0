//! One event of a core.
ghost use Rattle.std.specs.Prelude.{◌≡◌, ◌<◌, ◌≤◌, IsTrue, map, slice_get, IfOk};
ghost use Rattle.cx_disk.specs.Cause.{HasCause};
ghost use Rattle.cx_plan.specs.Setups.{setup_of};
ghost use Rattle.cx_rule.specs.Jobs.{FitJob};
ghost use Rattle.cx_cut.specs.Cuts.{part_count};
ghost use Rattle.cx_cut.specs.Faults.{parts_of};
ghost use Rattle.cx_core_events.specs.Events.{events};
ghost use Rattle.cx_core_part.specs.Jobs.{IsRunOf};
ghost use Rattle.law_parts.specs.Beginnings.{Beginning, IsBeginning, run_of};
ghost use Rattle.law_parts.specs.Runs.{Run};
ghost use Rattle.law_parts.specs.Totals.{undivided_from};
ghost use Rattle.cx_core.specs.Cores.{enabled_in};
ghost use Rattle.cx_core.specs.Hands.{StepsTo};
ghost use Rattle.cx_core.specs.Starts.{IsReady};
ghost use Rattle.cx_core.specs.Steps.{Counts, IsAt, IsRunning, RisesWithin, counts, event_costs, stands_at};

use crate::answers::{CoreFault, Event};
use crate::laws::run_laws;
use crate::machine::Core;
use crate::moving::go;
use crate::writing::{end, write};
use cx_core_events::Next;
use cx_plan::Job;
use cx_rule::{Meter, Routine};
use cx_wire::Wire;
use std::alloc::Global;

impl Core {
    /// Does the `k`-th event that can happen: those of the parts come first, by part, and the writer's comes last.
    ///
    /// `job`, `routines` and `wire` are the same in each step of a run, and the queues of the wire hold just the messages that this core
    /// has posted and not taken. A text with which its own output would pass the limit isn't handed out: that step answers `End`.
    ///
    /// # Errors
    ///
    /// `Wire`: the wire failed. `Memory`: out of memory. The core isn't used again then.
    pub fn step<W: Wire>(
        &mut self,
        alloc: Global,
        k: u64,
        job: &Job,
        routines: &[Box<dyn Routine>],
        wire: &mut W,
        meter: &mut Meter,
    ) -> Result<Event, CoreFault>
        requires job { IsReady job.now }
        requires routines { FitJob (map spec_of routines.now) job.now }
        requires there { IsRunning (IsTrue W.tells) job.now (map rule routines.now)
            (stands_at self.old
            (W.queue wire.old) meter.old (W.received wire.old) (W.sum wire.old)) }
        requires k { k < enabled_in self.old }
        requires parts { part_count (parts_of job.now.shape job.now.cut) ≤ W.parts wire.old }
        ensures does { (b : Beginning) → IsBeginning (setup_of job.now) b → (first : Counts)
            (at : IsAt (IsTrue W.tells) (run_of job.now (map rule routines.now) b) first self.old
            (W.queue wire.old) (counts meter.old (W.received wire.old) (W.sum wire.old)))
            → IfOk result (StepsTo (IsTrue W.tells) (run_of job.now (map rule routines.now) b)
            (undivided_from (setup_of job.now) (map rule routines.now) b) first k
            (stands_at self.old (W.queue wire.old) meter.old (W.received wire.old) (W.sum wire.old))
            (stands_at self.new (W.queue wire.new) meter.new (W.received wire.new) (W.sum wire.new))
            at) }
        ensures rises { (r : Run) → IsRunOf job.now r
            → RisesWithin
            (event_costs r self.old.pace (slice_get (events self.old.pace) k))
            (counts meter.old (W.received wire.old) (W.sum wire.old))
            (counts meter.new (W.received wire.new) (W.sum wire.new)) }
        ensures parts { W.parts wire.new ≡ W.parts wire.old }
        ensures cause { HasCause CoreFault.Wire (W.faults wire.old) (W.faults wire.new) result }
    {
        run_laws(job);
        match self.pace.event(k) {
            Next::Part(part) => {
                go(self, alloc, part, job, routines, wire, meter)?;
                Ok(Event::Part(part))
            }
            Next::Write => Ok(write(self, job)),
            Next::End => {
                end(self, alloc)?;
                Ok(Event::End)
            }
        }
    }
}
