//! Bound configurations.

ghost use Rattle.std.specs.Prelude.{◌≡◌, ◌≤◌, None, length, IfOk, OnOk};
ghost use Rattle.cx_text.specs.Telling.{Tells};
ghost use Rattle.cx_bind.specs.Binding.{Binds, max_thorns, max_variables, needs_fault, names_fault, kinds_fault, bind_fault};
ghost use Rattle.cx_bind.specs.Parameters.{parameters};
ghost use Rattle.cx_bind.specs.Variables.{variable_infos};
ghost use Rattle.cx_bind.specs.declared.thorns.BindFault.TheVariants as faults;

use crate::active::Active;
use crate::clashes::{check_parameters, check_variables};
use crate::known::all_known;
use crate::needs::{check_capabilities, check_implementations, check_thorns};
use crate::parameters::all_parameters;
use crate::providers::check_providers;
use crate::shared::KnownTable;
use crate::unsupported::{check_dims, check_limit, check_supported};
use crate::uses::{check_types, check_uses};
use crate::variables::variable_infos;
use crate::{BindFault, Param, Thorn};
use cx_plan::VarInfo;
use cx_text::List;
use std::alloc::Global;
use std::marker::Model;

/// The most active thorns beside the built-in ones.
const MAX_THORNS: usize = 64;

/// The most variables.
const MAX_VARIABLES: usize = 256;

/// Thorns that fit each other, with their variables and parameters. Contracts see the thorns.
#[derive(Debug, Drop)]
pub struct Bound {
    thorns: List<Thorn>,
    variables: List<VarInfo>,
    params: List<Param>,
}

impl Model for Bound {
    ghost use Rattle.std.specs.Prelude.{List, ◌≡◌, None};
    ghost use Rattle.cx_bind.specs.declared.thorns.Thorn.{Thorn};
    ghost use Rattle.cx_bind.specs.Variables.{variable_infos};
    ghost use Rattle.cx_bind.specs.Parameters.{parameters};
    ghost use Rattle.cx_bind.specs.Binding.{bind_fault};

    ghost Value = { List Thorn };

    ghost view = { λ b. b.thorns };

    ghost invariant = { λ b. (b.variables ≡ variable_infos b.thorns)
        × (b.params ≡ parameters b.thorns)
        × (bind_fault b.thorns ≡ None) };
}

impl Bound {
    /// The variables, in the order of their numbers.
    pub fn variables(&self) -> &List<VarInfo>
        ensures variables { result.now ≡ variable_infos self.now }
        ensures few { length (variable_infos self.now) ≤ max_variables }
    {
        &self.variables
    }

    /// The active thorns but the built-in ones, in the order of activation.
    pub fn thorns(&self) -> &List<Thorn>
        ensures thorns { result.now ≡ self.now }
        // The thorns fit each other.
        ensures fit { bind_fault self.now ≡ None }
        ensures few { length self.now ≤ max_thorns }
    {
        &self.thorns
    }

    /// The parameters: the built-in ones, and then the thorns', in the order of activation and of their files.
    pub fn parameters(&self) -> &List<Param>
        ensures { result.now ≡ parameters self.now }
    {
        &self.params
    }
}

/// Tests that no two thorns provide one implementation, and that what each thorn needs is there.
fn check_needs(alloc: Global, thorns: &[Thorn]) -> Result<(), BindFault>
    ensures { Tells faults.Memory (needs_fault thorns.now) result }
{
    let active = Active::new(alloc, thorns)?;
    check_providers(alloc, active.providers())?;
    check_implementations(alloc, &active, thorns)?;
    check_capabilities(alloc, thorns)?;
    check_thorns(alloc, &active, thorns)
}

/// Tests that each use of a parameter finds one of its type, and that no full name is there twice.
fn check_names(
    alloc: Global,
    thorns: &[Thorn],
    variables: &[VarInfo],
    table: &KnownTable,
) -> Result<(), BindFault>
    ensures { Tells faults.Memory (names_fault table.now variables.now thorns.now) result }
{
    check_uses(alloc, table, thorns)?;
    check_types(alloc, table, thorns)?;
    check_variables(alloc, variables)?;
    check_parameters(alloc, table.knowns())
}

/// Tests that each group and parameter is of a supported kind, and that the counts are within limits.
fn check_kinds(alloc: Global, thorns: &[Thorn], variables: &[VarInfo]) -> Result<(), BindFault>
    ensures { Tells faults.Memory (kinds_fault variables.now thorns.now) result }
{
    check_supported(alloc, thorns)?;
    check_dims(alloc, thorns)?;
    check_limit(alloc, b"thorns", thorns.len(), MAX_THORNS)?;
    check_limit(alloc, b"variables", variables.len(), MAX_VARIABLES)
}

/// The variables of thorns that fit each other.
fn fitting_variables(alloc: Global, thorns: &[Thorn]) -> Result<List<VarInfo>, BindFault>
    ensures told { Tells faults.Memory (bind_fault thorns.now) result }
    ensures variables { IfOk result (λ variables. variables ≡ variable_infos thorns.now) }
    ensures few { OnOk result (length thorns.now ≤ max_thorns) }
{
    check_needs(alloc, thorns)?;
    let variables = variable_infos(alloc, thorns)?;
    let knowns = all_known(alloc, thorns)?;
    let table = KnownTable::new(alloc, knowns)?;
    let infos = variables.as_slice();
    check_names(alloc, thorns, infos, &table)?;
    check_kinds(alloc, thorns, infos)?;
    Ok(variables)
}

/// Binds thorns, which stand in the order of their activation.
///
/// The first fault counts: kind by kind in the order in which BindFault has them, and within a kind in the order of
/// activation and of the files. TwoProviders names the first provider that a later one repeats; TwoVariables and
/// TwoParameters the later one's full name; TwoDims the first group of grid functions and the first that differs.
/// Limit has `thorns` above 64 of them, and then `variables` above 256.
pub fn bind(alloc: Global, thorns: List<Thorn>) -> Result<Bound, BindFault>
    ensures { Binds thorns result }
{
    let variables = fitting_variables(alloc, thorns.as_slice())?;
    let params = all_parameters(alloc, thorns.as_slice())?;
    Ok(Bound {
        thorns,
        variables,
        params,
    })
}
