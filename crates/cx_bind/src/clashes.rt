//! Full names that are there twice.

ghost use Rattle.std.specs.Prelude.{◌≡◌, ◌++◌, ◌∷◌, [], ◌&&◌, Some, not, IsTrue, IfOk, OnOk};
ghost use Rattle.cx_bind.specs.NameSets.{has, folded_if};
ghost use Rattle.cx_bind.specs.Faults.{fault_if, is_clashing, two_variables, two_parameters};
ghost use Rattle.cx_text.specs.Telling.{Tells};
ghost use Rattle.cx_bind.specs.declared.thorns.BindFault.TheVariants as faults;
ghost use Rattle.cx_text.specs.Bytes.{folded};

use crate::BindFault;
use crate::known::Known;
use crate::name_set::NameSet;
use cx_plan::VarInfo;
use cx_text::Memory;
use std::alloc::Global;

/// Adds the full name of a variable, unless another variable has it.
fn check_variable(alloc: Global, names: &mut NameSet, info: &VarInfo) -> Result<(), BindFault>
    ensures told { Tells faults.Memory
        (fault_if (has names.old info.now.full) (faults.TwoVariables info.now.full)) result }
    ensures kept { OnOk result (names.new ≡ names.old ++ folded info.now.full ∷ []) }
{
    if names.insert(alloc, info.full.as_slice())? {
        return Ok(());
    }
    Err(BindFault::TwoVariables(info.full.copy(alloc)?))
}

/// Tests that no two variables have one full name.
pub(crate) fn check_variables(alloc: Global, infos: &[VarInfo]) -> Result<(), BindFault>
    ensures { Tells faults.Memory (two_variables infos.now) result }
{
    let mut names = NameSet::new(alloc);
    'infos: for info in infos {
        check_variable(alloc, &mut names, info)?;
    }
    Ok(())
}

/// The fault of a parameter whose name is taken.
fn two_parameters(alloc: Global, known: &Known) -> Result<(), BindFault>
    ensures { Tells faults.Memory (Some (faults.TwoParameters known.now.full)) result }
{
    Err(BindFault::TwoParameters(known.full.copy(alloc)?))
}

/// Adds the name of a global parameter, and says whether it wasn't there. Another parameter's isn't added.
fn insert_global(alloc: Global, globals: &mut NameSet, known: &Known) -> Result<bool, Memory>
    ensures new { IfOk result
        (λ new. new ≡ not (known.now.global && has globals.old known.now.name)) }
    ensures kept { IfOk result
        (λ new. IsTrue new → globals.new ≡ globals.old
        ++ folded_if known.now.global known.now.name) }
{
    if !known.global {
        return Ok(true);
    }
    globals.insert(alloc, known.name.as_slice())
}

/// Adds the names of a parameter: its full name, and if it is global its own name, unless one is taken.
fn check_parameter(
    alloc: Global,
    names: &mut NameSet,
    globals: &mut NameSet,
    known: &Known,
) -> Result<(), BindFault>
    ensures told { Tells faults.Memory
        (fault_if (is_clashing names.old globals.old known.now)
        (faults.TwoParameters known.now.full)) result }
    ensures names { OnOk result (names.new ≡ names.old ++ folded known.now.full ∷ []) }
    ensures globals { OnOk result
        (globals.new ≡ globals.old ++ folded_if known.now.global known.now.name) }
{
    if !names.insert(alloc, known.full.as_slice())? {
        return two_parameters(alloc, known);
    }
    if !insert_global(alloc, globals, known)? {
        return two_parameters(alloc, known);
    }
    Ok(())
}

/// Tests that no two parameters have one full name, and no two global ones one name.
pub(crate) fn check_parameters(alloc: Global, knowns: &[Known]) -> Result<(), BindFault>
    ensures { Tells faults.Memory (two_parameters knowns.now) result }
{
    let mut names = NameSet::new(alloc);
    let mut globals = NameSet::new(alloc);
    'knowns: for known in knowns {
        check_parameter(alloc, &mut names, &mut globals, known)?;
    }
    Ok(())
}
