//! The routines of the built-in thorns, handed to the top call.

ghost use Rattle.std.specs.Prelude.{◌≡◌, ◌≤◌, true, false, IfOk, OnErr, length, map};
ghost use Rattle.std.specs.List.{AllByRecursion};
ghost use Rattle.cx_core.specs.Starts.{AreEmpty};
ghost use Rattle.cx_run.specs.Calls.{lent_shelf, lent_sink};
ghost use Rattle.cx_run.specs.Clauses.{Obeys};
ghost use Rattle.cx_run.specs.Turned.{FollowsTurns};
ghost use Rattle.cx_several.specs.Clauses.{ObeysAll, OnFirst};
ghost use Rattle.cx_several.specs.Words.{begins_batch};
ghost use Rattle.cx_program.specs.SampleCalls.{sample_batch, sample_call};
ghost use Rattle.cx_program.specs.Samples.{sample_rules, sample_specs};

use crate::thorns::{Automata, Fields, Physics};
use cx_disk::Disk;
use cx_rule::{Meter, Routine};
use cx_run::{Shelf, Sink};
use cx_several::cactus_all;
use cx_text::{Memory, Text};
use cx_turns::Turns;
use cx_wire::Wire;
use std::alloc::Global;

/// The words of the command line, and where the memory for their answer comes from.
#[derive(Clone, Copy)]
struct CommandLine<'a> {
    alloc: Global,
    words: &'a [Text],
}

/// What the top call answers over these devices, with the routines of all built-in thorns: its status, which obeys the
/// top call's clauses. There are eight disks and eight wires; each wire serves 512 parts, and its queues are empty.
///
/// # Errors
///
/// `Memory` where there is no room for the routines. Then nothing was touched.
pub fn answer<H: Shelf, D: Disk, W: Wire, T: Turns, O: Sink>(
    alloc: Global,
    words: &[Text],
    shelf: &mut H,
    disks: &mut Vec<D>,
    wires: &mut Vec<W>,
    turns: &mut T,
    out: &mut O,
    meter: &mut Meter,
) -> Result<u8, Memory>
    requires disks { 8 ≤ length disks.old.items }
    requires wires { 8 ≤ length wires.old.items }
    requires empty { AllByRecursion
        (λ wire. (512 ≤ W.parts wire) × AreEmpty (W.queue wire)) wires.old.items }
    ensures several { IfOk result (λ status. begins_batch words.now ≡ true → ObeysAll words.now
        (sample_batch D.Disk W.Wire (lent_shelf H.Shelf shelf.old shelf.new)
        disks.old.items disks.new.items wires.old.items wires.new.items
        meter.old meter.new (T.begun turns.new) (turns.new ≡ turns.old))
        (lent_sink O.Sink out.old out.new) status) }
    ensures one { IfOk result (λ status. begins_batch words.now ≡ false → OnFirst
        (λ a b v u. Obeys (sample_call H.Shelf D.Disk W.Wire words.now shelf.old shelf.new
        a b v u meter.old meter.new (T.begun turns.new)) (lent_sink O.Sink out.old out.new) status)
        disks.old.items disks.new.items wires.old.items wires.new.items) }
    ensures turned { IfOk result (λ status. begins_batch words.now ≡ false → OnFirst
        (λ a b v u. FollowsTurns T.Turns (sample_call H.Shelf D.Disk W.Wire words.now
        shelf.old shelf.new a b v u meter.old meter.new (T.begun turns.new))
        turns.old turns.new status)
        disks.old.items disks.new.items wires.old.items wires.new.items) }
    ensures wanting { OnErr result
        ((shelf.new ≡ shelf.old) × (disks.new ≡ disks.old) × (wires.new ≡ wires.old)
        × (turns.new ≡ turns.old) × (out.new ≡ out.old) × (meter.new ≡ meter.old)) }
{
    let automata = Automata::new(alloc)?;
    let fields = Fields::new(alloc)?;
    let physics = Physics::new(alloc)?;
    let routines: [Box<dyn Routine>; 33] = [
        automata.ca_init,
        automata.ca_step,
        automata.ca_zero,
        automata.ca_count,
        automata.life_init,
        automata.life_step,
        automata.life_zero,
        automata.life_count,
        fields.wave_init,
        fields.wave_init1,
        fields.wave_step,
        fields.wave_copy,
        fields.wave_flat,
        fields.wave_scalar,
        fields.wave_sum,
        fields.diff_init,
        fields.diff_step,
        fields.diff_flat,
        fields.diff_scalar,
        fields.diff_sum,
        fields.control_set,
        fields.control_spin,
        physics.heat_init,
        physics.heat_step,
        physics.heat_zero,
        physics.heat_sum,
        physics.gas_init,
        physics.gas_step,
        physics.gas_zero,
        physics.gas_measure,
        physics.gas_particles,
        physics.gas_total_x,
        physics.gas_total_y,
    ];
    let line = CommandLine { alloc, words };
    Ok(answer_with(line, shelf, disks, wires, turns, out, &routines, meter))
}

/// The top call with the built-in thorns' routines.
fn answer_with<H: Shelf, D: Disk, W: Wire, T: Turns, O: Sink>(
    line: CommandLine<'_>,
    shelf: &mut H,
    disks: &mut Vec<D>,
    wires: &mut Vec<W>,
    turns: &mut T,
    out: &mut O,
    routines: &[Box<dyn Routine>],
    meter: &mut Meter,
) -> u8
    requires rules { map rule routines.now ≡ sample_rules }
    requires specs { map spec_of routines.now ≡ sample_specs }
    requires disks { 8 ≤ length disks.old.items }
    requires wires { 8 ≤ length wires.old.items }
    requires empty { AllByRecursion
        (λ wire. (512 ≤ W.parts wire) × AreEmpty (W.queue wire)) wires.old.items }
    ensures several { begins_batch line.entry.words.now ≡ true → ObeysAll line.entry.words.now
        (sample_batch D.Disk W.Wire (lent_shelf H.Shelf shelf.old shelf.new)
        disks.old.items disks.new.items wires.old.items wires.new.items
        meter.old meter.new (T.begun turns.new) (turns.new ≡ turns.old))
        (lent_sink O.Sink out.old out.new) result }
    ensures one { begins_batch line.entry.words.now ≡ false → OnFirst
        (λ a b v u. Obeys (sample_call H.Shelf D.Disk W.Wire line.entry.words.now
        shelf.old shelf.new a b v u meter.old meter.new (T.begun turns.new))
        (lent_sink O.Sink out.old out.new) result)
        disks.old.items disks.new.items wires.old.items wires.new.items }
    ensures turned { begins_batch line.entry.words.now ≡ false → OnFirst
        (λ a b v u. FollowsTurns T.Turns (sample_call H.Shelf D.Disk W.Wire line.entry.words.now
        shelf.old shelf.new a b v u meter.old meter.new (T.begun turns.new))
        turns.old turns.new result)
        disks.old.items disks.new.items wires.old.items wires.new.items }
{
    cactus_all(
        line.alloc, line.words, shelf, disks, wires, turns, out, routines, meter,
    )
}
