//! What settings give, and their faults.

ghost use Rattle.std.specs.Prelude.{◌≡◌, [], ◌∷◌, Some, IfOk};
ghost use Rattle.std.specs.List.{flat_map};
ghost use Rattle.cx_bind.specs.NamePlaces.{place_of};
ghost use Rattle.cx_values.specs.Spelling.{spelled, held_by};
ghost use Rattle.cx_values.specs.Naming.{target_in};
ghost use Rattle.cx_text.specs.Telling.{Tells};
ghost use Rattle.cx_values.specs.Faults.{range_fault, value_fault, element_fault, parameter_fault, setting_fault, settings_fault, twice_fault};
ghost use Rattle.cx_values.specs.Assigned.{given_before, given_by, given_of};
ghost use Rattle.cx_values.specs.declared.fault.ValueFault.TheVariants as faults;

use crate::fault::ValueFault;
use crate::lookups::element;
use crate::settings::find_parameter;
use crate::special::{is_misspelled, is_stated};
use crate::spelling::{held_value, value_of_text};
use crate::tables::AllGiven;
use crate::values::{Given, Held};
use cx_bind::{NamePlaces, Param};
use cx_param::{Value, allows};
use cx_parfile::Setting;
use std::alloc::Global;

/// Tests that a value lies in the ranges of a parameter.
fn check_range(dir: &[u8], param: &Param, line: u32, value: &Value) -> Result<(), ValueFault>
    ensures { Tells faults.Memory (range_fault dir.now param.now line value.now) result }
{
    if allows(&param.ranges, value) && is_stated(dir, param.full.as_slice(), value) {
        return Ok(());
    }
    Err(ValueFault::OutOfRange(line))
}

/// The value that a text spells for a parameter.
fn setting_value(
    alloc: Global,
    dir: &[u8],
    param: &Param,
    line: u32,
    text: &[u8],
) -> Result<Value, ValueFault>
    ensures told { Tells faults.Memory (value_fault dir.now param.now line text.now) result }
    ensures value { IfOk result (λ value. spelled param.now.decl.ptype text.now ≡ Some value) }
{
    if is_misspelled(alloc, param.full.as_slice(), text)? {
        return Err(ValueFault::BadSpelling(line));
    }
    let Some(value) = value_of_text(alloc, param.decl.ptype, text)? else {
        return Err(ValueFault::BadSpelling(line));
    };
    check_range(dir, param, line, &value)?;
    Ok(value)
}

/// What a parameter holds that a setting sets.
pub(crate) fn held_set(
    alloc: Global,
    dir: &[u8],
    param: &Param,
    setting: &Setting,
) -> Result<Held, ValueFault>
    ensures told { Tells faults.Memory
        (value_fault dir.now param.now setting.now.line setting.now.value) result }
    ensures held { IfOk result
        (λ one. one ≡ held_by param.now.decl.ptype param.now.ranges setting.now.value) }
{
    let text = setting.value.as_slice();
    let value = setting_value(alloc, dir, param, setting.line, text)?;
    Ok(held_value(alloc, param.decl.ptype, param.ranges.as_slice(), value)?)
}

/// Tests that no earlier setting sets this element of the parameter.
fn check_new(given: &AllGiven, parameter: usize, element: u32, line: u32) -> Result<(), ValueFault>
    ensures { Tells faults.Memory (twice_fault (given_before given.now parameter element) line)
        result }
{
    if given.sets(parameter, element) {
        return Err(ValueFault::Twice(line));
    }
    Ok(())
}

/// What a setting gives its target: an element of a parameter, by the parameter's place.
fn given_element(
    alloc: Global,
    dir: &[u8],
    given: &AllGiven,
    setting: &Setting,
    param: &Param,
    target: (usize, u32),
) -> Result<Given, ValueFault>
    ensures told { Tells faults.Memory
        (element_fault dir.now (given_before given.now) setting.now target.0 param.now
        (Some target.1)) result }
    ensures given { IfOk result
        (λ one. one ∷ [] ≡ given_of setting.now.value (Some target) (Some param.now)) }
{
    let held = held_set(alloc, dir, param, setting)?;
    check_new(given, target.0, target.1, setting.line)?;
    Ok(Given {
        parameter: target.0,
        element: target.1,
        held,
    })
}

/// What a setting gives the parameter that it names.
fn given_parameter(
    alloc: Global,
    dir: &[u8],
    given: &AllGiven,
    setting: &Setting,
    parameter: usize,
    param: &Param,
) -> Result<Given, ValueFault>
    ensures told { Tells faults.Memory
        (parameter_fault dir.now (given_before given.now) setting.now parameter
        (Some param.now)) result }
    ensures given { IfOk result
        (λ one. one ∷ []
        ≡ given_of setting.now.value (target_in setting.now.index parameter (Some param.now))
        (Some param.now)) }
{
    match element(param.decl.length, setting.index) {
        None => Err(ValueFault::Index(setting.line)),
        Some(element) => given_element(alloc, dir, given, setting, param, (parameter, element)),
    }
}

/// What a setting gives, where `given` is what earlier ones give; a fault if it can't be set.
fn given_next(
    alloc: Global,
    params: &[Param],
    names: &NamePlaces,
    dir: &[u8],
    given: &AllGiven,
    setting: &Setting,
) -> Result<Given, ValueFault>
    ensures told { Tells faults.Memory
        (setting_fault params.now (place_of names.now) dir.now (given_before given.now)
        setting.now) result }
    ensures given { IfOk result
        (λ one. one ∷ [] ≡ given_by params.now (place_of names.now) setting.now) }
{
    let Some(parameter) = find_parameter(alloc, names, setting)? else {
        return Err(ValueFault::UnknownParam(setting.line));
    };
    match params.get(parameter) {
        None => Err(ValueFault::UnknownParam(setting.line)),
        Some(param) => given_parameter(alloc, dir, given, setting, parameter, param),
    }
}

/// What settings give, in the order of the file. The first fault counts.
pub(crate) fn all_given(
    alloc: Global,
    params: &[Param],
    names: &NamePlaces,
    dir: &[u8],
    settings: &[Setting],
) -> Result<AllGiven, ValueFault>
    ensures told { Tells faults.Memory
        (settings_fault params.now (place_of names.now) dir.now [] settings.now) result }
    ensures given { IfOk result
        (λ given. given ≡ flat_map (given_by params.now (place_of names.now)) settings.now) }
{
    let mut given = AllGiven::new(alloc);
    'settings: for setting in settings {
        let one = given_next(alloc, params, names, dir, &given, setting)?;
        given = given.with(one)?;
    }
    Ok(given)
}
