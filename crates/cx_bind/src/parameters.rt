//! The parameters of thorns, with all their ranges.

ghost use Rattle.std.specs.Prelude.{◌≡◌, ◌≤◌, ◌++◌, length, IfOk, OnOk};
ghost use Rattle.std.specs.List.{flat_map};
ghost use Rattle.cx_bind.specs.Binding.{max_thorns};
ghost use Rattle.cx_bind.specs.Parameters.{extension_by, extensions, extended_as, thorn_parameters, parameters};

use crate::copies::{copy_decl, copy_ranges};
use crate::extensions::ExtensionTable;
use crate::known::{is_declaration, owner_by};
use crate::names::full_name;
use crate::table::table;
use crate::{Param, Thorn};
use cx_param::{ParamDecl, Range, Scope};
use cx_text::{List, Memory, Text};
use std::alloc::Global;

/// The full name of a parameter that a thorn extends, and the ranges that it adds.
#[derive(Debug, Drop)]
pub(crate) struct Extension {
    pub(crate) full: Text,
    pub(crate) ranges: List<Range>,
}

/// Adds what a line extends: the full name and the ranges. A declaration or a use adds nothing.
fn push_extension(
    alloc: Global,
    extensions: &mut List<Extension>,
    decl: &ParamDecl,
) -> Result<(), Memory>
    ensures { OnOk result (extensions.new ≡ extensions.old ++ extension_by decl.now) }
{
    match &decl.scope {
        Scope::Extends(implementation) => extensions.push(Extension {
            full: full_name(alloc, implementation.as_slice(), decl.name.as_slice())?,
            ranges: copy_ranges(alloc, decl.ranges.as_slice())?,
        }),
        Scope::Uses(_) | Scope::Private | Scope::Restricted | Scope::Global => Ok(()),
    }
}

/// Adds the extensions in one param file, in the order of its lines.
fn push_extensions_of(
    alloc: Global,
    extensions: &mut List<Extension>,
    decls: &[ParamDecl],
) -> Result<(), Memory>
    ensures { OnOk result (extensions.new ≡ extensions.old ++ flat_map extension_by decls.now) }
{
    'decls: for decl in decls {
        push_extension(alloc, extensions, decl)?;
    }
    Ok(())
}

/// The extensions of all thorns, in the order of activation and of their files.
fn all_extensions(alloc: Global, thorns: &[Thorn]) -> Result<List<Extension>, Memory>
    ensures { IfOk result (λ found. found ≡ extensions thorns.now) }
{
    let mut found = List::empty(alloc);
    'thorns: for thorn in thorns {
        push_extensions_of(alloc, &mut found, thorn.params.as_slice())?;
    }
    Ok(found)
}

/// Adds a declared parameter with its own ranges and those of its extensions. A use adds nothing.
fn push_parameter(
    alloc: Global,
    params: &mut List<Param>,
    extensions: &ExtensionTable,
    number: u32,
    thorn: &Thorn,
    decl: &ParamDecl,
) -> Result<(), Memory>
    ensures { OnOk result
        (params.new ≡ params.old ++ extended_as extensions.now number thorn.now decl.now) }
{
    if !is_declaration(&decl.scope) {
        return Ok(());
    }
    let full = full_name(alloc, owner_by(&decl.scope, thorn), decl.name.as_slice())?;
    let mut ranges = copy_ranges(alloc, decl.ranges.as_slice())?;
    extensions.push_extra_ranges(alloc, &mut ranges, full.as_slice())?;
    params.push(Param {
        full,
        thorn: number,
        decl: copy_decl(alloc, decl)?,
        ranges,
    })
}

/// Adds the parameters that one thorn declares.
fn push_parameters_of(
    alloc: Global,
    params: &mut List<Param>,
    extensions: &ExtensionTable,
    number: u32,
    thorn: &Thorn,
    decls: &[ParamDecl],
) -> Result<(), Memory>
    ensures { OnOk result
        (params.new ≡ params.old
        ++ flat_map (extended_as extensions.now number thorn.now) decls.now) }
{
    'decls: for decl in decls {
        push_parameter(alloc, params, extensions, number, thorn, decl)?;
    }
    Ok(())
}

/// Adds the parameters of all thorns, each with the number of its thorn.
fn push_all_parameters(
    alloc: Global,
    params: &mut List<Param>,
    extensions: &ExtensionTable,
    thorns: &[Thorn],
) -> Result<(), Memory>
    requires { length thorns.now ≤ max_thorns }
    ensures { OnOk result (params.new ≡ params.old ++ thorn_parameters extensions.now thorns.now) }
{
    'thorns: for (number, thorn) in thorns.iter().enumerate() {
        let decls = thorn.params.as_slice();
        push_parameters_of(alloc, params, extensions, number as u32, thorn, decls)?;
    }
    Ok(())
}

/// All parameters: the built-in ones, and then the thorns', each with the ranges of all extensions.
pub(crate) fn all_parameters(alloc: Global, thorns: &[Thorn]) -> Result<List<Param>, Memory>
    requires { length thorns.now ≤ max_thorns }
    ensures { IfOk result (λ params. params ≡ parameters thorns.now) }
{
    let found = all_extensions(alloc, thorns)?;
    let extensions = ExtensionTable::new(alloc, found)?;
    let mut params = table(alloc, thorns.len() as u32)?;
    push_all_parameters(alloc, &mut params, &extensions, thorns)?;
    Ok(params)
}
