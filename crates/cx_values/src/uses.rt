//! The names by which thorns use parameters.

ghost use Rattle.std.specs.Prelude.{◌≡◌, [], ◌∷◌, ◌++◌, map, IfOk, OnOk};
ghost use Rattle.std.specs.List.{flat_map, enumerate_from};
ghost use Rattle.std.specs.Option.{unwrap_or};
ghost use Rattle.cx_bind.specs.NamePlaces.{place_of};
ghost use Rattle.cx_bind.specs.Parameters.{shared_by};
ghost use Rattle.cx_values.specs.Assigned.{use_as, own_use, used_by, uses_of, global_use};

use crate::naming::is_global;
use crate::tables::Uses;
use crate::values::Use;
use cx_bind::{NamePlaces, Param, Thorn, full_name, shared_by};
use cx_param::ParamDecl;
use cx_text::{List, Memory, Text};
use std::alloc::Global;

/// Adds the name by which a thorn uses a parameter.
fn push_use(
    alloc: Global,
    uses: &mut List<Use>,
    name: &Text,
    parameter: usize,
) -> Result<(), Memory>
    ensures { OnOk result (uses.new ≡ uses.old ++ use_as name.now parameter ∷ []) }
{
    uses.push(Use {
        name: Text::from_slice(alloc, name.as_slice())?,
        parameter,
    })
}

/// Adds the name of a parameter that the thorn declares; nothing if another one declares it.
fn push_own(
    alloc: Global,
    uses: &mut List<Use>,
    thorn: usize,
    parameter: usize,
    param: &Param,
) -> Result<(), Memory>
    ensures { OnOk result (uses.new ≡ uses.old ++ own_use thorn (parameter, param.now)) }
{
    if param.thorn as usize != thorn {
        return Ok(());
    }
    push_use(alloc, uses, &param.decl.name, parameter)
}

/// Adds a thorn's own parameters.
fn push_all_own(
    alloc: Global,
    uses: &mut List<Use>,
    thorn: usize,
    params: &[Param],
) -> Result<(), Memory>
    ensures { OnOk result
        (uses.new ≡ uses.old ++ flat_map (own_use thorn) (enumerate_from 0 params.now)) }
{
    'params: for (parameter, param) in params.iter().enumerate() {
        push_own(alloc, uses, thorn, parameter, param)?;
    }
    Ok(())
}

/// The name by which a thorn uses another's parameter.
fn name_of_use(decl: &ParamDecl) -> &Text
    ensures { result.now ≡ unwrap_or decl.now.alias decl.now.name }
{
    match &decl.alias {
        Some(alias) => alias,
        None => &decl.name,
    }
}

/// Adds the name by which a line of the thorn's param file uses or extends a parameter.
fn push_shared(
    alloc: Global,
    uses: &mut List<Use>,
    names: &NamePlaces,
    decl: &ParamDecl,
) -> Result<(), Memory>
    ensures { OnOk result
        (uses.new ≡ uses.old
        ++ used_by (place_of names.now) decl.now (shared_by decl.now.scope)) }
{
    let Some(implementation) = shared_by(&decl.scope) else {
        return Ok(());
    };
    let full = full_name(alloc, implementation.as_slice(), decl.name.as_slice())?;
    match names.get(alloc, full.as_slice())? {
        None => Ok(()),
        Some(parameter) => push_use(alloc, uses, name_of_use(decl), parameter),
    }
}

/// Adds the parameters that a thorn uses and extends.
fn push_all_shared(
    alloc: Global,
    uses: &mut List<Use>,
    names: &NamePlaces,
    decls: &[ParamDecl],
) -> Result<(), Memory>
    ensures { OnOk result
        (uses.new ≡ uses.old
        ++ flat_map (λ d. used_by (place_of names.now) d (shared_by d.scope)) decls.now) }
{
    'decls: for decl in decls {
        push_shared(alloc, uses, names, decl)?;
    }
    Ok(())
}

/// The names by which a thorn uses parameters: its own, and then those that it shares.
fn uses_of(
    alloc: Global,
    params: &[Param],
    names: &NamePlaces,
    number: usize,
    thorn: &Thorn,
) -> Result<List<Use>, Memory>
    ensures { IfOk result
        (λ uses. uses ≡ uses_of params.now (place_of names.now) (number, thorn.now)) }
{
    let mut uses = List::empty(alloc);
    push_all_own(alloc, &mut uses, number, params)?;
    push_all_shared(alloc, &mut uses, names, thorn.params.as_slice())?;
    Ok(uses)
}

/// The names by which each thorn uses its own parameters and others'.
pub(crate) fn all_uses(
    alloc: Global,
    params: &[Param],
    names: &NamePlaces,
    thorns: &[Thorn],
) -> Result<List<Uses>, Memory>
    ensures { IfOk result
        (λ all. all
        ≡ map (uses_of params.now (place_of names.now)) (enumerate_from 0 thorns.now)) }
{
    let mut all = List::empty(alloc);
    'thorns: for (number, thorn) in thorns.iter().enumerate() {
        let uses = uses_of(alloc, params, names, number, thorn)?;
        all.push(Uses::new(alloc, uses)?)?;
    }
    Ok(all)
}

/// Adds the name of a global parameter, by which each thorn can use it.
fn push_global(
    alloc: Global,
    globals: &mut List<Use>,
    parameter: usize,
    param: &Param,
) -> Result<(), Memory>
    ensures { OnOk result (globals.new ≡ globals.old ++ global_use (parameter, param.now)) }
{
    if !is_global(&param.decl.scope) {
        return Ok(());
    }
    push_use(alloc, globals, &param.decl.name, parameter)
}

/// The parameters that all thorns use.
pub(crate) fn all_globals(alloc: Global, params: &[Param]) -> Result<List<Use>, Memory>
    ensures { IfOk result (λ globals. globals ≡ flat_map global_use (enumerate_from 0 params.now)) }
{
    let mut globals = List::empty(alloc);
    'params: for (parameter, param) in params.iter().enumerate() {
        push_global(alloc, &mut globals, parameter, param)?;
    }
    Ok(globals)
}
