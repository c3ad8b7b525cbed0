//! Items of entries.

ghost use Rattle.std.specs.Prelude.{◌≡◌, IfOk};
ghost use Rattle.cx_order.specs.Files.{thorn_name};
ghost use Rattle.cx_order.specs.Meanings.{names_of};
ghost use Rattle.cx_order.specs.Plans.{item_of};
ghost use Rattle.cx_order_entries.specs.Seen.{seen_entry};
ghost use Rattle.cx_order.specs.Worlds.{world_of};

use crate::context::Context;
use crate::meaning::Meaning;
use cx_bind::Thorn;
use cx_order_entries::Entry;
use cx_plan::{Item, ItemKind, Touch};
use cx_text::{List, Memory, Text};
use std::alloc::Global;

/// A copy of accesses in their order.
fn copy_touches(alloc: Global, touches: &List<Touch>) -> Result<List<Touch>, Memory>
    ensures { IfOk result (λ copy. copy ≡ touches.now) }
{
    let copy = Vec::from_slice(alloc, touches.as_slice())?;
    Ok(List::new(copy))
}

/// A copy of a thorn's name.
fn copy_thorn(alloc: Global, thorns: &List<Thorn>, number: u32) -> Result<Text, Memory>
    ensures { IfOk result (λ name. name ≡ thorn_name thorns.now number) }
{
    match thorns.as_slice().get(number as usize) {
        Some(thorn) => thorn.name.copy(alloc),
        None => Ok(Text::new(Vec::new(alloc))),
    }
}

/// The item of a routine's entry.
pub(crate) fn item_of(
    alloc: Global,
    context: &Context<'_>,
    entry: &Entry<'_>,
    meaning: &Meaning,
    path: &Text,
) -> Result<Item, Memory>
    requires { meaning.now ≡ names_of (world_of context.now) (seen_entry entry.now) }
    ensures { let wanted = item_of (world_of context.now) (seen_entry entry.now) path.now in
        IfOk result (λ item. item ≡ wanted) }
{
    let thorn = copy_thorn(alloc, context.bound.thorns(), entry.thorn)?;
    let name = entry.block.name.copy(alloc)?;
    let path = path.copy(alloc)?;
    let reads = copy_touches(alloc, &meaning.reads)?;
    let writes = copy_touches(alloc, &meaning.writes)?;
    Ok(Item {
        thorn,
        name,
        path,
        kind: ItemKind::Cell,
        routine: 0,
        reads,
        writes,
        params: List::empty(alloc),
    })
}
