//! The steers of items, by the steps of a steer file.

ghost use Rattle.std.specs.Prelude.{◌≡◌, ◌≤◌, ◌^◌, ◌++◌, Some, All, length, map, slice_get, take, IfOk, OnOk};
ghost use Rattle.std.specs.Option.{option_copied};
ghost use Rattle.std.specs.List.{flat_map, enumerate_from};
ghost use Rattle.cx_job_items.specs.Steered.{slot_names, steer_of, steers_of_item, steers_with, step_number, steers_of_step, steers_by, steers_of};

use cx_bind::Param;
use cx_plan::{Item, Steered};
use cx_rule::Spec;
use cx_text::{List, Memory, Text, same_name};
use cx_values::{SteerStep, number_by};
use std::alloc::Global;

/// The first names.
fn first_names(names: &[Text], count: usize) -> &[Text]
    ensures { result.now ≡ take count names.now }
{
    &names[..count.min(names.len())]
}

/// The names of an item's parameters, by the Spec of its routine.
fn slot_names<'a>(specs: &'a [&Spec], item: &Item) -> &'a [Text]
    ensures { result.now ≡ slot_names (map (λ s. s.now) specs.now) item.now }
{
    match specs.get(item.routine as usize) {
        Some(spec) => first_names(spec.params.as_slice(), item.params.len()),
        None => &[],
    }
}

/// A number that a parameter gets from an iteration on.
#[derive(Clone, Copy)]
pub(crate) struct Change {
    at: u64,
    value: i64,
}

/// Adds the steer of a slot of item `k`, if the parameter of this full name fills it.
fn push_slot(
    steers: &mut List<Steered>,
    full: &Text,
    change: &Change,
    k: u32,
    slot: u32,
    name: &Text,
) -> Result<(), Memory>
    ensures { OnOk result
        (steers.new ≡ steers.old
        ++ steer_of change.now.at full.now change.now.value k (slot, name.now)) }
{
    if !same_name(name.as_slice(), full.as_slice()) {
        return Ok(());
    }
    steers.push(Steered {
        at: change.at,
        item: k,
        slot,
        value: change.value,
    })
}

/// Adds the steers of item `k` in its slots of these names.
fn push_slots(
    steers: &mut List<Steered>,
    full: &Text,
    change: &Change,
    k: u32,
    names: &[Text],
) -> Result<(), Memory>
    requires { length names.now ≤ 2 ^ 32 }
    ensures { OnOk result
        (steers.new ≡ steers.old
        ++ flat_map (steer_of change.now.at full.now change.now.value k)
        (enumerate_from 0 names.now)) }
{
    'names: for (slot, name) in names.iter().enumerate() {
        push_slot(steers, full, change, k, slot as u32, name)?;
    }
    Ok(())
}

/// Adds the steers of item `k`.
fn push_item(
    specs: &[&Spec],
    steers: &mut List<Steered>,
    full: &Text,
    change: &Change,
    k: u32,
    item: &Item,
) -> Result<(), Memory>
    requires { length item.now.params ≤ 2 ^ 32 }
    ensures { OnOk result
        (steers.new ≡ steers.old
        ++ steers_of_item (map (λ s. s.now) specs.now) change.now.at full.now change.now.value
        (k, item.now)) }
{
    push_slots(steers, full, change, k, slot_names(specs, item))
}

/// Adds the steers of all items.
fn push_items(
    specs: &[&Spec],
    steers: &mut List<Steered>,
    full: &Text,
    change: &Change,
    items: &[Item],
) -> Result<(), Memory>
    requires few { length items.now ≤ 2 ^ 32 }
    requires short { All (λ x. length x.params ≤ 2 ^ 32) items.now }
    ensures { OnOk result
        (steers.new ≡ steers.old
        ++ flat_map (steers_of_item (map (λ s. s.now) specs.now) change.now.at full.now
        change.now.value) (enumerate_from 0 items.now)) }
{
    'items: for (k, item) in items.iter().enumerate() {
        push_item(specs, steers, full, change, k as u32, item)?;
    }
    Ok(())
}

/// The number that a step gives routines.
fn step_number(param: &Param, step: &SteerStep) -> Option<i64>
    ensures { result ≡ step_number param.now step.now }
{
    match step.index {
        None => number_by(param.decl.ptype, param.ranges.as_slice(), &step.value),
        Some(_) => None,
    }
}

/// Adds the steers of a step of this parameter.
fn push_step(
    specs: &[&Spec],
    steers: &mut List<Steered>,
    items: &[Item],
    step: &SteerStep,
    param: &Param,
) -> Result<(), Memory>
    requires few { length items.now ≤ 2 ^ 32 }
    requires short { All (λ x. length x.params ≤ 2 ^ 32) items.now }
    ensures { OnOk result
        (steers.new ≡ steers.old
        ++ steers_of_step (map (λ s. s.now) specs.now) items.now step.now (Some param.now)) }
{
    match step_number(param, step) {
        Some(value) => {
            let change = Change { at: step.at, value };
            push_items(specs, steers, &param.full, &change, items)
        }
        None => Ok(()),
    }
}

/// The parameter of a step.
pub fn param_of<'a>(params: &'a [Param], step: &SteerStep) -> Option<&'a Param>
    ensures { option_copied result ≡ slice_get params.now step.now.param }
{
    params.get(step.param)
}

/// Adds the steers of a step.
fn push_steers(
    specs: &[&Spec],
    steers: &mut List<Steered>,
    params: &[Param],
    items: &[Item],
    step: &SteerStep,
) -> Result<(), Memory>
    requires few { length items.now ≤ 2 ^ 32 }
    requires short { All (λ x. length x.params ≤ 2 ^ 32) items.now }
    ensures { OnOk result
        (steers.new ≡ steers.old
        ++ steers_by (map (λ s. s.now) specs.now) params.now items.now step.now) }
{
    match param_of(params, step) {
        Some(param) => push_step(specs, steers, items, step, param),
        None => Ok(()),
    }
}

/// The steers of items, by the Specs of their routines: one for each step and each use of its parameter in an item, in the
/// order of the steps, then of the items and of their parameters.
pub fn steers_of(
    alloc: Global,
    specs: &[&Spec],
    params: &[Param],
    items: &[Item],
    steps: &[SteerStep],
) -> Result<List<Steered>, Memory>
    requires few { length items.now ≤ 2 ^ 32 }
    requires short { All (λ x. length x.params ≤ 2 ^ 32) items.now }
    ensures { IfOk result
        (λ steers. steers
        ≡ steers_of (map (λ s. s.now) specs.now) params.now items.now steps.now) }
{
    let mut steers = List::empty(alloc);
    'steps: for step in steps {
        push_steers(specs, &mut steers, params, items, step)?;
    }
    Ok(steers)
}
