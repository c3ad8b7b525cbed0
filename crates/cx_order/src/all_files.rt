//! What counts of the files of all thorns.

ghost use Rattle.std.specs.Prelude.{◌≡◌, ◌<◌, ◌≤◌, length, All, IfOk};
ghost use Rattle.cx_order.specs.Blocks.{AddsOr, CountsOr};
ghost use Rattle.cx_order.specs.Files.{all_counted, counted_in, input_of};

use crate::fault::OrderFault;
use crate::files::push_file;
use cx_bind::{Bound, Thorn};
use cx_order_entries::Counted;
use cx_sched::ScheduleFile;
use cx_values::Values;
use std::alloc::Global;

/// The thorns, of which there are few.
fn few_thorns(bound: &Bound) -> &[Thorn]
    ensures thorns { result.now ≡ bound.now }
    ensures few { length result.now ≤ 64 }
{
    bound.thorns().as_slice()
}

/// Adds what counts of the file of a thorn by its number.
fn push_thorn<'a>(
    counted: &mut Counted<'a>,
    alloc: Global,
    number: u32,
    thorn: &Thorn,
    values: &Values,
    file: &'a ScheduleFile,
) -> Result<(), OrderFault>
    ensures { let told = counted_in values.now number thorn.now file.now in
        AddsOr told counted.old counted.new result }
{
    push_file(
        counted,
        alloc,
        number,
        &thorn.name,
        &values.lookup(number),
        file,
    )
}

/// What counts of the files of all thorns, of each thorn one.
pub(crate) fn count_all<'a>(
    alloc: Global,
    bound: &Bound,
    files: &'a [ScheduleFile],
    values: &Values,
) -> Result<Counted<'a>, OrderFault>
    requires { length files.now ≡ length bound.now }
    ensures told { let input = input_of bound.now files.now values.now in
        CountsOr (all_counted input) result }
    ensures lines { IfOk result
        (λ counted. All (λ line. line.thorn < length bound.now) counted.lines.items) }
    ensures entries { IfOk result
        (λ counted. All (λ entry. entry.thorn < length bound.now) counted.entries.items) }
{
    let thorns = few_thorns(bound);
    let mut counted = Counted {
        lines: Vec::new(alloc),
        entries: Vec::new(alloc),
    };
    'thorns: for (number, thorn) in thorns.iter().enumerate() {
        let file = &files[number];
        push_thorn(&mut counted, alloc, number as u32, thorn, values, file)?;
    }
    Ok(counted)
}
