//! The top call for one file, with the routines of the built-in thorns.
ghost use Rattle.std.specs.Prelude.{◌≤◌};
ghost use Rattle.cx_core.specs.Starts.{AreEmpty};

use cx_disk::Disk;
use cx_program::{Automata, Fields, Physics};
use cx_rule::{Meter, Routine};
use cx_run::{Shelf, Sink, cactus};
use cx_text::{Memory, Text};
use cx_turns::Turns;
use cx_wire::Wire;
use std::alloc::Global;

/// The status of words over one disk and one wire.
pub(crate) fn status_of<H: Shelf, D: Disk, W: Wire, T: Turns, O: Sink>(
    alloc: Global,
    words: &[Text],
    shelf: &mut H,
    disk: &mut D,
    wire: &mut W,
    turns: &mut T,
    out: &mut O,
    meter: &mut Meter,
) -> Result<u8, Memory>
    requires parts { 512 ≤ W.parts wire.old }
    requires empty { AreEmpty (W.queue wire.old) }
{
    let automata = Automata::new(alloc)?;
    let fields = Fields::new(alloc)?;
    let physics = Physics::new(alloc)?;
    let routines: [Box<dyn Routine>; 33] = [
        automata.ca_init,
        automata.ca_step,
        automata.ca_zero,
        automata.ca_count,
        automata.life_init,
        automata.life_step,
        automata.life_zero,
        automata.life_count,
        fields.wave_init,
        fields.wave_init1,
        fields.wave_step,
        fields.wave_copy,
        fields.wave_flat,
        fields.wave_scalar,
        fields.wave_sum,
        fields.diff_init,
        fields.diff_step,
        fields.diff_flat,
        fields.diff_scalar,
        fields.diff_sum,
        fields.control_set,
        fields.control_spin,
        physics.heat_init,
        physics.heat_step,
        physics.heat_zero,
        physics.heat_sum,
        physics.gas_init,
        physics.gas_step,
        physics.gas_zero,
        physics.gas_measure,
        physics.gas_particles,
        physics.gas_total_x,
        physics.gas_total_y,
    ];
    Ok(cactus(
        alloc, words, shelf, disk, wire, turns, out, &routines, meter,
    ))
}
