//! What thorns use and extend: parameters of the implementations that they share.

ghost use Rattle.std.specs.Prelude.{◌≡◌, Some};
ghost use Rattle.cx_plan.specs.Lists.{first_of_each};
ghost use Rattle.cx_bind.specs.Faults.{no_parameter_in, no_parameter, is_same_type, wrong_type_at, wrong_type_in, wrong_type};
ghost use Rattle.cx_text.specs.Telling.{Tells};
ghost use Rattle.cx_bind.specs.declared.thorns.BindFault.TheVariants as faults;

use crate::known::Known;
use crate::names::full_name;
use crate::needs::shared_by;
use crate::shared::KnownTable;
use crate::{BindFault, Thorn};
use cx_param::{PType, ParamDecl};
use cx_text::Text;
use std::alloc::Global;

/// The fault of a use or an extension whose parameter isn't there or can't be shared.
fn missing_parameter(
    alloc: Global,
    thorn: &Thorn,
    implementation: &Text,
    decl: &ParamDecl,
) -> Result<(), BindFault>
    ensures { Tells faults.Memory
        (Some (faults.NoParameter thorn.now.name implementation.now decl.now.name)) result }
{
    Err(BindFault::NoParameter(
        thorn.name.copy(alloc)?,
        implementation.copy(alloc)?,
        decl.name.copy(alloc)?,
    ))
}

/// Tests that a use or an extension names a parameter that thorns can use.
fn check_use(
    alloc: Global,
    table: &KnownTable,
    thorn: &Thorn,
    decl: &ParamDecl,
) -> Result<(), BindFault>
    ensures { Tells faults.Memory (no_parameter_in table.now thorn.now decl.now) result }
{
    let Some(implementation) = shared_by(&decl.scope) else {
        return Ok(());
    };
    let full = full_name(alloc, implementation.as_slice(), decl.name.as_slice())?;
    match table.shared_parameter(alloc, full.as_slice())? {
        Some(_) => Ok(()),
        None => missing_parameter(alloc, thorn, implementation, decl),
    }
}

/// Tests that each use and extension of one thorn names a parameter that thorns can use.
fn check_uses_of(
    alloc: Global,
    table: &KnownTable,
    thorn: &Thorn,
    decls: &[ParamDecl],
) -> Result<(), BindFault>
    ensures { Tells faults.Memory (first_of_each (no_parameter_in table.now thorn.now) decls.now)
        result }
{
    for decl in decls {
        check_use(alloc, table, thorn, decl)?;
    }
    Ok(())
}

/// Tests that each use and each extension names a parameter that thorns can use.
pub(crate) fn check_uses(
    alloc: Global,
    table: &KnownTable,
    thorns: &[Thorn],
) -> Result<(), BindFault>
    ensures { Tells faults.Memory (no_parameter table.now thorns.now) result }
{
    for thorn in thorns {
        check_uses_of(alloc, table, thorn, thorn.params.as_slice())?;
    }
    Ok(())
}

/// Whether two types of parameters are one.
fn is_same_type(a: PType, b: PType) -> bool
    ensures { result ≡ is_same_type a b }
{
    match (a, b) {
        (PType::Boolean, PType::Boolean)
        | (PType::Int, PType::Int)
        | (PType::Keyword, PType::Keyword)
        | (PType::String, PType::String)
        | (PType::Real, PType::Real) => true,
        _ => false,
    }
}

/// Tests that a use or an extension has the type of the parameter found.
fn check_type_against(
    alloc: Global,
    thorn: &Thorn,
    decl: &ParamDecl,
    known: &Known,
) -> Result<(), BindFault>
    ensures { Tells faults.Memory (wrong_type_at thorn.now decl.now (Some known.now)) result }
{
    if is_same_type(decl.ptype, known.ptype) {
        return Ok(());
    }
    Err(BindFault::WrongType(thorn.name.copy(alloc)?, decl.name.copy(alloc)?))
}

/// Tests the type of a use or an extension. Where no parameter is found, that isn't a fault here.
fn check_type(
    alloc: Global,
    table: &KnownTable,
    thorn: &Thorn,
    decl: &ParamDecl,
) -> Result<(), BindFault>
    ensures { Tells faults.Memory (wrong_type_in table.now thorn.now decl.now) result }
{
    let Some(implementation) = shared_by(&decl.scope) else {
        return Ok(());
    };
    let full = full_name(alloc, implementation.as_slice(), decl.name.as_slice())?;
    match table.shared_parameter(alloc, full.as_slice())? {
        None => Ok(()),
        Some(known) => check_type_against(alloc, thorn, decl, known),
    }
}

/// Tests that each use and extension of one thorn has the declared type.
fn check_types_of(
    alloc: Global,
    table: &KnownTable,
    thorn: &Thorn,
    decls: &[ParamDecl],
) -> Result<(), BindFault>
    ensures { Tells faults.Memory (first_of_each (wrong_type_in table.now thorn.now) decls.now)
        result }
{
    for decl in decls {
        check_type(alloc, table, thorn, decl)?;
    }
    Ok(())
}

/// Tests that each use and each extension has the declared type.
pub(crate) fn check_types(
    alloc: Global,
    table: &KnownTable,
    thorns: &[Thorn],
) -> Result<(), BindFault>
    ensures { Tells faults.Memory (wrong_type table.now thorns.now) result }
{
    for thorn in thorns {
        check_types_of(alloc, table, thorn, thorn.params.as_slice())?;
    }
    Ok(())
}
