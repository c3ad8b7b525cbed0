//! Which parameter a name names.

ghost use Rattle.std.specs.Prelude.{◌≡◌, ℕ, List, [], ◌∷◌, IfOk, OnOk};
ghost use Rattle.std.specs.List.{enumerate_from};
ghost use Rattle.cx_plan.specs.Names.{full_name};
ghost use Rattle.cx_bind.specs.NamePlaces.{place_of};
ghost use Rattle.cx_bind.specs.Parameters.{is_restricted, is_global};
ghost use Rattle.cx_values.specs.Naming.{built_in_thorn, thorn_name, name_if, name_by, naming_of, namings_by, Adds, names_by};

use cx_bind::{NamePlaces, Param, Thorn, full_name};
use cx_param::Scope;
use cx_text::{Memory, Text};
use std::alloc::Global;

/// A way of naming parameters.
#[derive(Clone, Copy)]
pub(crate) enum Way {
    /// By the full name.
    Full,
    /// A global one by its thorn.
    GlobalOfThorn,
    /// A global one by its name alone.
    Alone,
    /// A restricted one by its thorn.
    RestrictedOfThorn,
}

/// Whether a parameter is restricted, so that a setting names it by its implementation or its thorn.
fn is_restricted(scope: &Scope) -> bool
    ensures { result ≡ is_restricted scope.now }
{
    matches!(scope, Scope::Restricted)
}

/// Whether all thorns use a parameter.
pub(crate) fn is_global(scope: &Scope) -> bool
    ensures { result ≡ is_global scope.now }
{
    matches!(scope, Scope::Global)
}

/// The thorn of a built-in parameter, by its full name.
fn built_in_thorn(full: &[u8]) -> &'static [u8]
    ensures { result.now ≡ built_in_thorn full.now }
{
    if full.starts_with(b"Cactus::") {
        b"Cactus"
    } else if full.starts_with(b"driver::") {
        b"PUGH"
    } else if full.starts_with(b"IO::") {
        b"IOUtil"
    } else {
        b""
    }
}

/// The name of the thorn that declares a parameter, also where the thorn is built in.
fn thorn_name<'a>(thorns: &'a [Thorn], param: &Param) -> &'a [u8]
    ensures { result.now ≡ thorn_name thorns.now param.now }
{
    match thorns.get(param.thorn as usize) {
        Some(thorn) => thorn.name.as_slice(),
        None => built_in_thorn(param.full.as_slice()),
    }
}

/// The name of a parameter by its thorn, where it is named so.
fn name_of_thorn(
    alloc: Global,
    thorns: &[Thorn],
    named: bool,
    param: &Param,
) -> Result<Option<Text>, Memory>
    ensures { IfOk result
        (λ name. name
        ≡ name_if named (full_name (thorn_name thorns.now param.now) param.now.decl.name)) }
{
    if !named {
        return Ok(None);
    }
    let owner = thorn_name(thorns, param);
    Ok(Some(full_name(alloc, owner, param.decl.name.as_slice())?))
}

/// A copy of the name, where a setting may name the parameter by it alone.
fn name_alone(alloc: Global, named: bool, name: &Text) -> Result<Option<Text>, Memory>
    ensures { IfOk result (λ alone. alone ≡ name_if named name.now) }
{
    if !named {
        return Ok(None);
    }
    Ok(Some(Text::from_slice(alloc, name.as_slice())?))
}

/// The name that a way gives a parameter, if it gives one.
fn name_by(alloc: Global, thorns: &[Thorn], way: Way, param: &Param) -> Result<Option<Text>, Memory>
    ensures { IfOk result (λ name. name ≡ name_by thorns.now way param.now) }
{
    match way {
        Way::Full => name_alone(alloc, true, &param.full),
        Way::GlobalOfThorn => name_of_thorn(alloc, thorns, is_global(&param.decl.scope), param),
        Way::Alone => name_alone(alloc, is_global(&param.decl.scope), &param.decl.name),
        Way::RestrictedOfThorn => {
            name_of_thorn(alloc, thorns, is_restricted(&param.decl.scope), param)
        }
    }
}

/// Gives a name a place, unless it has one.
pub(crate) fn add_name(
    alloc: Global,
    places: &mut NamePlaces,
    name: &[u8],
    place: usize,
) -> Result<(), Memory>
    ensures { OnOk result (Adds ((name.now, place) ∷ []) places.old places.new) }
{
    if places.get(alloc, name)?.is_some() {
        return Ok(());
    }
    places.insert(alloc, name, place)
}

/// Adds the name that a parameter has in one way of naming, if it has one.
fn add_naming(
    alloc: Global,
    places: &mut NamePlaces,
    thorns: &[Thorn],
    way: Way,
    param: &Param,
    place: usize,
) -> Result<(), Memory>
    ensures { OnOk result
        (Adds (naming_of place (name_by thorns.now way param.now)) places.old places.new) }
{
    match name_by(alloc, thorns, way, param)? {
        Some(name) => add_name(alloc, places, name.as_slice(), place),
        None => Ok(()),
    }
}

/// Adds the names that all parameters have in one way of naming.
fn add_namings(
    alloc: Global,
    places: &mut NamePlaces,
    thorns: &[Thorn],
    way: Way,
    params: &[Param],
) -> Result<(), Memory>
    ensures { OnOk result
        (Adds (namings_by thorns.now (enumerate_from 0 params.now) way) places.old
        places.new) }
{
    'params: for (place, param) in params.iter().enumerate() {
        add_naming(alloc, places, thorns, way, param, place)?;
    }
    Ok(())
}

/// The parameters that names name.
pub(crate) fn all_names(
    alloc: Global,
    thorns: &[Thorn],
    params: &[Param],
) -> Result<NamePlaces, Memory>
    ensures { IfOk result
        (λ places. (name : List ℕ) → place_of places name
        ≡ names_by thorns.now params.now name) }
{
    let mut places = NamePlaces::new(alloc);
    add_namings(alloc, &mut places, thorns, Way::Full, params)?;
    add_namings(alloc, &mut places, thorns, Way::GlobalOfThorn, params)?;
    add_namings(alloc, &mut places, thorns, Way::Alone, params)?;
    add_namings(alloc, &mut places, thorns, Way::RestrictedOfThorn, params)?;
    Ok(places)
}
