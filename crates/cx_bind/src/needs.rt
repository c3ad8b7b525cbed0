//! What thorns need: implementations, capabilities and thorns.

ghost use Rattle.std.specs.Prelude.{◌≡◌, IfOk, Some};
ghost use Rattle.std.specs.Option.{option_copied};
ghost use Rattle.cx_plan.specs.Lists.{first_of_each};
ghost use Rattle.cx_bind.specs.NameSets.{has, HasThose};
ghost use Rattle.cx_bind.specs.Parameters.{shared_by};
ghost use Rattle.cx_bind.specs.Faults.{is_provided, missing_by_line, missing_inherited, missing_implementation_of, missing_implementation, missing_capability_of, missing_capability, missing_thorn_of, missing_thorn};
ghost use Rattle.cx_text.specs.Telling.{Tells};
ghost use Rattle.cx_bind.specs.declared.thorns.BindFault.TheVariants as faults;

use crate::active::Active;
use crate::name_set::NameSet;
use crate::{BindFault, Thorn};
use cx_param::{ParamDecl, Scope};
use cx_text::{Memory, Text};
use std::alloc::Global;

/// The implementation that a use or an extension of a parameter names. A declaration names none.
pub fn shared_by(scope: &Scope) -> Option<&Text>
    ensures { option_copied result ≡ shared_by scope.now }
{
    match scope {
        Scope::Uses(implementation) | Scope::Extends(implementation) => Some(implementation),
        Scope::Private | Scope::Restricted | Scope::Global => None,
    }
}

/// The fault of a thorn that needs an implementation that isn't active.
fn missing_implementation(
    alloc: Global,
    thorn: &Thorn,
    implementation: &Text,
) -> Result<(), BindFault>
    ensures { Tells faults.Memory
        (Some (faults.MissingImplementation thorn.now.name implementation.now)) result }
{
    Err(BindFault::MissingImplementation(thorn.name.copy(alloc)?, implementation.copy(alloc)?))
}

/// Tests that each implementation that a thorn inherits is active.
fn check_inherited(alloc: Global, active: &Active, thorn: &Thorn) -> Result<(), BindFault>
    ensures { Tells faults.Memory (missing_inherited active.now thorn.now) result }
{
    match active.find_unimplemented(alloc, thorn.interface.inherits.as_slice())? {
        None => Ok(()),
        Some(implementation) => missing_implementation(alloc, thorn, implementation),
    }
}

/// Tests that the implementation whose parameter a use or an extension names is active.
fn check_line(
    alloc: Global,
    active: &Active,
    thorn: &Thorn,
    decl: &ParamDecl,
) -> Result<(), BindFault>
    ensures { Tells faults.Memory (missing_by_line active.now thorn.now decl.now) result }
{
    let Some(implementation) = shared_by(&decl.scope) else {
        return Ok(());
    };
    if active.is_implemented(alloc, implementation.as_slice())? {
        return Ok(());
    }
    missing_implementation(alloc, thorn, implementation)
}

/// Tests that the implementations of a thorn's uses and extensions are active.
fn check_lines(
    alloc: Global,
    active: &Active,
    thorn: &Thorn,
    decls: &[ParamDecl],
) -> Result<(), BindFault>
    ensures { Tells faults.Memory (first_of_each (missing_by_line active.now thorn.now) decls.now)
        result }
{
    for decl in decls {
        check_line(alloc, active, thorn, decl)?;
    }
    Ok(())
}

/// Tests that each implementation that one thorn inherits or shares is active.
fn check_implementations_of(alloc: Global, active: &Active, thorn: &Thorn) -> Result<(), BindFault>
    ensures { Tells faults.Memory (missing_implementation_of active.now thorn.now) result }
{
    check_inherited(alloc, active, thorn)?;
    check_lines(alloc, active, thorn, thorn.params.as_slice())
}

/// Tests that each implementation that a thorn inherits or shares is active.
pub(crate) fn check_implementations(
    alloc: Global,
    active: &Active,
    thorns: &[Thorn],
) -> Result<(), BindFault>
    ensures { Tells faults.Memory (missing_implementation active.now thorns.now) result }
{
    for thorn in thorns {
        check_implementations_of(alloc, active, thorn)?;
    }
    Ok(())
}

/// The capabilities that thorns provide.
fn capabilities(alloc: Global, thorns: &[Thorn]) -> Result<NameSet, Memory>
    ensures { IfOk result (λ names. HasThose (is_provided thorns.now) names) }
{
    let mut names = NameSet::new(alloc);
    'thorns: for thorn in thorns {
        names.insert_all(alloc, thorn.conf.provides.as_slice())?;
    }
    Ok(names)
}

/// The fault of a thorn that requires a capability that no thorn provides.
fn missing_capability(alloc: Global, thorn: &Thorn, capability: &Text) -> Result<(), BindFault>
    ensures { Tells faults.Memory (Some (faults.MissingCapability thorn.now.name capability.now))
        result }
{
    Err(BindFault::MissingCapability(thorn.name.copy(alloc)?, capability.copy(alloc)?))
}

/// Tests that each capability that one thorn requires is provided.
fn check_capabilities_of(alloc: Global, provided: &NameSet, thorn: &Thorn) -> Result<(), BindFault>
    ensures { Tells faults.Memory (missing_capability_of (has provided.now) thorn.now) result }
{
    match provided.first_missing(alloc, thorn.conf.requires_.as_slice())? {
        None => Ok(()),
        Some(capability) => missing_capability(alloc, thorn, capability),
    }
}

/// Tests thorn by thorn that the required capabilities are among those provided.
fn check_provided(alloc: Global, provided: &NameSet, thorns: &[Thorn]) -> Result<(), BindFault>
    ensures { Tells faults.Memory
        (first_of_each (missing_capability_of (has provided.now)) thorns.now) result }
{
    for thorn in thorns {
        check_capabilities_of(alloc, provided, thorn)?;
    }
    Ok(())
}

/// Tests that each capability that a thorn requires is provided by a thorn.
pub(crate) fn check_capabilities(alloc: Global, thorns: &[Thorn]) -> Result<(), BindFault>
    ensures { Tells faults.Memory (missing_capability thorns.now thorns.now) result }
{
    let provided = capabilities(alloc, thorns)?;
    check_provided(alloc, &provided, thorns)
}

/// The fault of a thorn that requires a thorn that isn't active.
fn missing_thorn(alloc: Global, thorn: &Thorn, other: &Text) -> Result<(), BindFault>
    ensures { Tells faults.Memory (Some (faults.MissingThorn thorn.now.name other.now)) result }
{
    Err(BindFault::MissingThorn(thorn.name.copy(alloc)?, other.copy(alloc)?))
}

/// Tests that each thorn that one thorn requires is active.
fn check_thorns_of(alloc: Global, active: &Active, thorn: &Thorn) -> Result<(), BindFault>
    ensures { Tells faults.Memory (missing_thorn_of active.now thorn.now) result }
{
    match active.find_inactive(alloc, thorn.conf.thorns.as_slice())? {
        None => Ok(()),
        Some(other) => missing_thorn(alloc, thorn, other),
    }
}

/// Tests that each thorn that a thorn requires is active.
pub(crate) fn check_thorns(
    alloc: Global,
    active: &Active,
    thorns: &[Thorn],
) -> Result<(), BindFault>
    ensures { Tells faults.Memory (missing_thorn active.now thorns.now) result }
{
    for thorn in thorns {
        check_thorns_of(alloc, active, thorn)?;
    }
    Ok(())
}
