//! Values for all parameters.

ghost use Rattle.std.specs.Prelude.{◌≡◌, IfOk};
ghost use Rattle.cx_bind.specs.NamePlaces.{place_of};
ghost use Rattle.cx_text.specs.Telling.{Tells};
ghost use Rattle.cx_values.specs.Faults.{fault_by};
ghost use Rattle.cx_values.specs.Assigned.{assigned_by, Assigns};
ghost use Rattle.cx_values.specs.declared.fault.ValueFault.TheVariants as faults;

use crate::fault::ValueFault;
use crate::given::all_given;
use crate::naming::all_names;
use crate::settings::checkpoint_dir;
use crate::slots::{all_slots, check_defaults};
use crate::tables::{Slots, Uses};
use crate::uses::{all_globals, all_uses};
use crate::values::Values;
use cx_bind::{Bound, NamePlaces, Param, Thorn};
use cx_parfile::{Setting, Settings};
use std::alloc::Global;

/// Checks defaults and settings and gives all parameters their values; `names` finds parameters by name.
fn assign_by(
    alloc: Global,
    params: &[Param],
    names: &NamePlaces,
    thorns: &[Thorn],
    settings: &[Setting],
) -> Result<Values, ValueFault>
    ensures told { Tells faults.Memory (fault_by params.now (place_of names.now) settings.now)
        result }
    ensures values { IfOk result
        (λ values. values
        ≡ assigned_by params.now (place_of names.now) thorns.now settings.now) }
{
    check_defaults(alloc, params)?;
    let dir = checkpoint_dir(alloc, params, names, settings)?;
    let given = all_given(alloc, params, names, dir.as_slice(), settings)?;
    Ok(Values {
        slots: Slots::new(alloc, all_slots(alloc, dir.as_slice(), params)?)?,
        given,
        uses: all_uses(alloc, params, names, thorns)?,
        globals: Uses::new(alloc, all_globals(alloc, params)?)?,
    })
}

/// Gives all parameters their values: each element holds what its setting says, else the default.
///
/// Defaults are tested first, in the order of declaration, the built-in ones before those of thorns: BadDefault. Then
/// settings are, in the order of the file, and each for the faults in the order in which ValueFault has them. A full
/// name goes before every other name; then a global parameter is named by its thorn or by its name alone, and last a
/// restricted one by its thorn. An element that two settings set, by whatever names, is Twice. Of the built-in
/// parameters, `IO::recover_dir` may only be the folder of checkpoints, and `IO::checkpoint_ID` only off: all else is OutOfRange.
pub fn assign(alloc: Global, bound: &Bound, settings: &Settings) -> Result<Values, ValueFault>
    ensures { Assigns bound.now settings.now.list result }
{
    let thorns = bound.thorns().as_slice();
    let params = bound.parameters().as_slice();
    let names = all_names(alloc, thorns, params)?;
    assign_by(alloc, params, &names, thorns, settings.list.as_slice())
}
