//! What parameters hold by default.

ghost use Rattle.std.specs.Prelude.{◌≡◌, map, IfOk};
ghost use Rattle.cx_plan.specs.Lists.{first_of_each};
ghost use Rattle.cx_text.specs.Telling.{Tells};
ghost use Rattle.cx_values.specs.Faults.{default_text, is_allowed, default_fault};
ghost use Rattle.cx_values.specs.Assigned.{default_of, slot};
ghost use Rattle.cx_values.specs.declared.fault.ValueFault.TheVariants as faults;

use crate::fault::ValueFault;
use crate::special::is_recover_dir;
use crate::spelling::{held_by, value_of_text};
use crate::values::Slot;
use cx_bind::Param;
use cx_param::{ParamDecl, Range, Value, allows};
use cx_text::{List, Memory, Text};
use std::alloc::Global;

/// The text of the declared default; empty for a use or an extension, which has none.
fn default_text(decl: &ParamDecl) -> &[u8]
    ensures { result.now ≡ default_text decl.now }
{
    match &decl.default {
        Some(text) => text.as_slice(),
        None => b"",
    }
}

/// Whether there is a value and the ranges allow it.
fn is_allowed(ranges: &List<Range>, value: &Option<Value>) -> bool
    ensures { result ≡ is_allowed ranges.now value.now }
{
    match value {
        None => false,
        Some(value) => allows(ranges, value),
    }
}

/// Tests that a parameter's default is a value of its type in its own ranges, extensions left out.
fn check_default(alloc: Global, param: &Param) -> Result<(), ValueFault>
    ensures { Tells faults.Memory (default_fault param.now) result }
{
    let value = value_of_text(alloc, param.decl.ptype, default_text(&param.decl))?;
    if is_allowed(&param.decl.ranges, &value) {
        return Ok(());
    }
    Err(ValueFault::BadDefault(Text::from_slice(alloc, param.full.as_slice())?))
}

/// Tests that each default is a value in the ranges of its declaration.
pub(crate) fn check_defaults(alloc: Global, params: &[Param]) -> Result<(), ValueFault>
    ensures { Tells faults.Memory (first_of_each default_fault params.now) result }
{
    for param in params {
        check_default(alloc, param)?;
    }
    Ok(())
}

/// A parameter's default, with `dir` for the folder of checkpoints.
fn default_of<'a>(dir: &'a [u8], param: &'a Param) -> &'a [u8]
    ensures { result.now ≡ default_of dir.now param.now }
{
    if is_recover_dir(param.full.as_slice()) {
        dir
    } else {
        default_text(&param.decl)
    }
}

/// What a parameter holds by default, with its full name and its array length.
fn slot(alloc: Global, dir: &[u8], param: &Param) -> Result<Slot, Memory>
    ensures { IfOk result (λ one. one ≡ slot dir.now param.now) }
{
    let text = default_of(dir, param);
    Ok(Slot {
        full: Text::from_slice(alloc, param.full.as_slice())?,
        length: param.decl.length,
        default: held_by(alloc, param.decl.ptype, param.ranges.as_slice(), text)?,
    })
}

/// All parameters with their defaults.
pub(crate) fn all_slots(alloc: Global, dir: &[u8], params: &[Param]) -> Result<List<Slot>, Memory>
    ensures { IfOk result (λ slots. slots ≡ map (slot dir.now) params.now) }
{
    let mut slots = List::empty(alloc);
    'params: for param in params {
        slots.push(slot(alloc, dir, param)?)?;
    }
    Ok(slots)
}
