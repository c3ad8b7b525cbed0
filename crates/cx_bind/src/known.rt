//! What thorns can know of each other's parameters.

ghost use Rattle.std.specs.Prelude.{◌≡◌, ◌++◌, ◌∷◌, [], ◌||◌, map, IfOk, OnOk};
ghost use Rattle.std.specs.List.{flat_map};
ghost use Rattle.cx_text.specs.Lexemes.{among};
ghost use Rattle.cx_bind.specs.BuiltIn.{starred_of_driver, starred_of_io, starred};
ghost use Rattle.cx_bind.specs.Parameters.{is_declaration, is_restricted, is_global, owner_by, known_by, known_as, known_of, known};

use crate::names::full_name;
use crate::table::table;
use crate::{Param, Thorn};
use cx_param::{PType, ParamDecl, Scope};
use cx_text::{List, Memory, Text, same_name};
use std::alloc::Global;

/// A parameter, as other thorns can name it.
#[derive(Debug, Drop)]
pub(crate) struct Known {
    pub(crate) full: Text,
    pub(crate) name: Text,
    pub(crate) restricted: bool,
    pub(crate) global: bool,
    pub(crate) ptype: PType,
}

/// Whether a line of a param file declares a parameter.
pub(crate) fn is_declaration(scope: &Scope) -> bool
    ensures { result ≡ is_declaration scope.now }
{
    match scope {
        Scope::Private | Scope::Restricted | Scope::Global => true,
        Scope::Uses(_) | Scope::Extends(_) => false,
    }
}

/// Whether a parameter is restricted, so that other thorns can use and extend it.
fn is_restricted(scope: &Scope) -> bool
    ensures { result ≡ is_restricted scope.now }
{
    match scope {
        Scope::Restricted => true,
        Scope::Private | Scope::Global | Scope::Uses(_) | Scope::Extends(_) => false,
    }
}

/// Whether a parameter is global, so that each thorn can name it without a use.
fn is_global(scope: &Scope) -> bool
    ensures { result ≡ is_global scope.now }
{
    match scope {
        Scope::Global => true,
        Scope::Private | Scope::Restricted | Scope::Uses(_) | Scope::Extends(_) => false,
    }
}

/// The name before the `::` of a parameter's full name.
pub(crate) fn owner_by<'a>(scope: &Scope, thorn: &'a Thorn) -> &'a [u8]
    ensures { result.now ≡ owner_by scope.now thorn.now }
{
    match scope {
        Scope::Private => thorn.name.as_slice(),
        Scope::Restricted | Scope::Global | Scope::Uses(_) | Scope::Extends(_) => {
            thorn.interface.implements.as_slice()
        }
    }
}

/// Adds what other thorns can know of a declared parameter. A use or an extension adds nothing.
fn push_known(
    alloc: Global,
    knowns: &mut List<Known>,
    thorn: &Thorn,
    decl: &ParamDecl,
) -> Result<(), Memory>
    ensures { OnOk result (knowns.new ≡ knowns.old ++ known_as thorn.now decl.now) }
{
    if !is_declaration(&decl.scope) {
        return Ok(());
    }
    knowns.push(Known {
        full: full_name(alloc, owner_by(&decl.scope, thorn), decl.name.as_slice())?,
        name: decl.name.copy(alloc)?,
        restricted: is_restricted(&decl.scope),
        global: is_global(&decl.scope),
        ptype: decl.ptype,
    })
}

/// Adds what other thorns can know of the parameters that a thorn declares.
fn push_lines(
    alloc: Global,
    knowns: &mut List<Known>,
    thorn: &Thorn,
    decls: &[ParamDecl],
) -> Result<(), Memory>
    ensures { OnOk result (knowns.new ≡ knowns.old ++ flat_map (known_as thorn.now) decls.now) }
{
    'decls: for decl in decls {
        push_known(alloc, knowns, thorn, decl)?;
    }
    Ok(())
}

/// Adds what thorns can know of a built-in parameter.
fn push_param(alloc: Global, knowns: &mut List<Known>, param: &Param) -> Result<(), Memory>
    ensures { OnOk result (knowns.new ≡ knowns.old ++ known_by param.now ∷ []) }
{
    knowns.push(Known {
        full: param.full.copy(alloc)?,
        name: param.decl.name.copy(alloc)?,
        restricted: is_restricted(&param.decl.scope),
        global: is_global(&param.decl.scope),
        ptype: param.decl.ptype,
    })
}

/// What thorns can know of the built-in parameters.
fn known_params(alloc: Global, params: &[Param]) -> Result<List<Known>, Memory>
    ensures { IfOk result (λ knowns. knowns ≡ map known_by params.now) }
{
    let mut knowns = List::empty(alloc);
    'params: for param in params {
        push_param(alloc, &mut knowns, param)?;
    }
    Ok(knowns)
}

/// Adds what thorns can know of each other's parameters, in the order of activation.
fn push_thorns(alloc: Global, knowns: &mut List<Known>, thorns: &[Thorn]) -> Result<(), Memory>
    ensures { OnOk result (knowns.new ≡ knowns.old ++ flat_map known_of thorns.now) }
{
    'thorns: for thorn in thorns {
        push_lines(alloc, knowns, thorn, thorn.params.as_slice())?;
    }
    Ok(())
}

/// All parameters: the built-in ones, and then the thorns'.
pub(crate) fn all_known(alloc: Global, thorns: &[Thorn]) -> Result<List<Known>, Memory>
    ensures { IfOk result (λ knowns. knowns ≡ known thorns.now) }
{
    let params = table(alloc, 0)?;
    let mut knowns = known_params(alloc, params.as_slice())?;
    push_thorns(alloc, &mut knowns, thorns)?;
    Ok(knowns)
}

/// Whether a parameter of the driver says only how a run is cut and ordered, so no thorn can use it.
fn is_starred_of_driver(full: &[u8]) -> bool
    ensures { result ≡ among starred_of_driver full.now }
{
    same_name(full, b"driver::parts_x")
        || same_name(full, b"driver::parts_y")
        || same_name(full, b"driver::parts_z")
        || same_name(full, b"driver::widths_x")
        || same_name(full, b"driver::widths_y")
        || same_name(full, b"driver::widths_z")
        || same_name(full, b"driver::lead")
        || same_name(full, b"driver::balance")
        || same_name(full, b"driver::weight")
        || same_name(full, b"driver::weight_factor")
}

/// Whether a parameter of `IO` says only where a run reads and writes, so no thorn can use it.
fn is_starred_of_io(full: &[u8]) -> bool
    ensures { result ≡ among starred_of_io full.now }
{
    same_name(full, b"IO::out_dir")
        || same_name(full, b"IO::checkpoint_dir")
        || same_name(full, b"IO::recover_dir")
        || same_name(full, b"IO::recover")
        || same_name(full, b"IO::steer_file")
}

/// Whether a parameter only says how and where a run is done.
pub(crate) fn is_starred(full: &[u8]) -> bool
    ensures { result ≡ among starred full.now }
{
    is_starred_of_driver(full) || is_starred_of_io(full)
}
