//! What an item declares and what its routine offers, as texts.

ghost use Rattle.std.specs.Prelude.{◌≡◌, ◌++◌, drop, codes, slice_get, option_copied, IsTrue, IfOk, OnOk};
ghost use Rattle.std.specs.List.{flat_map, list_any};
ghost use Rattle.cx_bind.specs.Variables.{variable_infos};
ghost use Rattle.cx_order.specs.Texts.{level_name};
ghost use Rattle.cx_job_items.specs.Matching.{named_text, lacks_number, param_text, params_text, enclosed, declared_text};
ghost use Rattle.cx_job_items.specs.Lookups.{world_of, touch_text_in, touches_text_in, want_text_in, wants_text_in, offered_text_in, mismatch_in, IsOfBound, HasThorn};

use crate::fault::MatchFault;
use crate::lookup::{Lookup, param_number};
use cx_plan::{Item, Region, Touch, VarId, VarInfo, level_text, region_text};
use cx_rule::{Spec, Want};
use cx_text::{Memory, Text};
use cx_values::Values;
use std::alloc::Global;

/// What is known of a variable.
fn variable<'a>(lookup: &Lookup<'a>, variable: VarId) -> Option<&'a VarInfo>
    ensures { option_copied result ≡ slice_get (variable_infos lookup.now.bound.now) variable.0 }
{
    lookup.bound.variables().as_slice().get(variable.0 as usize)
}

/// Adds the full name of a variable with one `_p` for each past level.
fn push_level_name(
    text: &mut Text,
    alloc: Global,
    lookup: &Lookup<'_>,
    var: VarId,
    level: u8,
) -> Result<(), Memory>
    ensures { OnOk result (text.new ≡ text.old ++ level_name (world_of lookup.now) var level) }
{
    match variable(lookup, var) {
        Some(info) => text.push_slice(level_text(alloc, info.full.as_slice(), level)?.as_slice()),
        None => Ok(()),
    }
}

/// Adds a blank and one access: the name of its level, and its region in parentheses.
fn push_touch(
    text: &mut Text,
    alloc: Global,
    lookup: &Lookup<'_>,
    touch: &Touch,
) -> Result<(), Memory>
    ensures { OnOk result (text.new ≡ text.old ++ touch_text_in lookup.now touch.now) }
{
    text.push_slice(b" ")?;
    push_level_name(text, alloc, lookup, touch.var, touch.level)?;
    text.push_slice(b"(")?;
    text.push_slice(region_text(touch.region))?;
    text.push_slice(b")")
}

/// Adds the accesses in order.
fn push_each_touch(
    text: &mut Text,
    alloc: Global,
    lookup: &Lookup<'_>,
    touches: &[Touch],
) -> Result<(), Memory>
    ensures { OnOk result (text.new ≡ text.old ++ flat_map (touch_text_in lookup.now) touches.now) }
{
    'touches: for touch in touches {
        push_touch(text, alloc, lookup, touch)?;
    }
    Ok(())
}

/// Adds a word and what an item reads or writes after it, unless that is nothing.
fn push_touches(
    text: &mut Text,
    alloc: Global,
    lookup: &Lookup<'_>,
    word: &[u8],
    touches: &[Touch],
) -> Result<(), Memory>
    ensures { OnOk result (text.new ≡ text.old ++ touches_text_in lookup.now word.now touches.now) }
{
    if touches.is_empty() {
        return Ok(());
    }
    text.push_slice(word)?;
    push_each_touch(text, alloc, lookup, touches)
}

/// Adds a name that means no one level.
fn push_named(text: &mut Text, name: &[u8], region: Region) -> Result<(), Memory>
    ensures { OnOk result (text.new ≡ text.old ++ named_text name.now region) }
{
    text.push_slice(b" ")?;
    text.push_slice(name)?;
    text.push_slice(b"(")?;
    text.push_slice(region_text(region))?;
    text.push_slice(b")")
}

/// Adds the access that a routine asks for, as it is found, or by its own name where none is.
fn push_want(text: &mut Text, alloc: Global, lookup: &Lookup<'_>, want: &Want) -> Result<(), Memory>
    requires scope { IsOfBound lookup.now }
    requires thorn { HasThorn lookup.now }
    ensures { OnOk result (text.new ≡ text.old ++ want_text_in lookup.now want.now) }
{
    match lookup.touch_of(alloc, want)? {
        Some(touch) => push_touch(text, alloc, lookup, &touch),
        None => push_named(text, want.name.as_slice(), want.region),
    }
}

/// Adds the accesses that a routine asks for, in order.
fn push_each_want(
    text: &mut Text,
    alloc: Global,
    lookup: &Lookup<'_>,
    wants: &[Want],
) -> Result<(), Memory>
    requires scope { IsOfBound lookup.now }
    requires thorn { HasThorn lookup.now }
    ensures { OnOk result (text.new ≡ text.old ++ flat_map (want_text_in lookup.now) wants.now) }
{
    'wants: for want in wants {
        push_want(text, alloc, lookup, want)?;
    }
    Ok(())
}

/// Adds a word and what a routine reads or writes after it, unless that is nothing.
fn push_wants(
    text: &mut Text,
    alloc: Global,
    lookup: &Lookup<'_>,
    word: &[u8],
    wants: &[Want],
) -> Result<(), Memory>
    requires scope { IsOfBound lookup.now }
    requires thorn { HasThorn lookup.now }
    ensures { OnOk result (text.new ≡ text.old ++ wants_text_in lookup.now word.now wants.now) }
{
    if wants.is_empty() {
        return Ok(());
    }
    text.push_slice(word)?;
    push_each_want(text, alloc, lookup, wants)
}

/// Whether a name means no parameter with a number to the thorn.
fn lacks_number(values: &Values, name: &Text) -> bool
    ensures { result ≡ lacks_number values.now name.now }
{
    param_number(values, name).is_none()
}

/// Adds a blank and the name of a parameter, if it has no number.
fn push_param(text: &mut Text, values: &Values, name: &Text) -> Result<(), Memory>
    ensures { OnOk result (text.new ≡ text.old ++ param_text values.now name.now) }
{
    if !lacks_number(values, name) {
        return Ok(());
    }
    text.push_slice(b" ")?;
    text.push_slice(name.as_slice())
}

/// Adds the names of those parameters that have no number.
fn push_each_param(text: &mut Text, values: &Values, names: &[Text]) -> Result<(), Memory>
    ensures { OnOk result (text.new ≡ text.old ++ flat_map (param_text values.now) names.now) }
{
    'names: for name in names {
        push_param(text, values, name)?;
    }
    Ok(())
}

/// Whether one of these parameters has no number.
fn some_lack_numbers(values: &Values, names: &[Text]) -> bool
    ensures { result ≡ list_any (lacks_number values.now) names.now }
{
    names.iter().any(|name| lacks_number(values, name))
}

/// Adds the parameters without a number, if there are any.
fn push_params(text: &mut Text, values: &Values, names: &[Text]) -> Result<(), Memory>
    ensures { OnOk result (text.new ≡ text.old ++ params_text values.now names.now) }
{
    if !some_lack_numbers(values, names) {
        return Ok(());
    }
    text.push_slice(b" params")?;
    push_each_param(text, values, names)
}

/// The text without its first byte, which is a blank.
fn without_first(parts: &[u8]) -> &[u8]
    ensures { result.now ≡ drop 1 parts.now }
{
    match parts {
        [_, rest @ ..] => rest,
        [] => parts,
    }
}

/// Parts with a blank before each, in brackets, without the first blank.
fn enclose(alloc: Global, parts: &[u8]) -> Result<Text, Memory>
    ensures { IfOk result (λ text. text ≡ enclosed parts.now) }
{
    let mut text = Text::from_slice(alloc, b"(")?;
    text.push_slice(without_first(parts))?;
    text.push_slice(b")")?;
    Ok(text)
}

/// What an item reads and writes.
fn declared_text(alloc: Global, lookup: &Lookup<'_>, item: &Item) -> Result<Text, Memory>
    ensures { IfOk result (λ text. text ≡ declared_text (world_of lookup.now) item.now) }
{
    let mut parts = Text::from_slice(alloc, b"")?;
    push_touches(&mut parts, alloc, lookup, b" reads", item.reads.as_slice())?;
    push_touches(
        &mut parts,
        alloc,
        lookup,
        b" writes",
        item.writes.as_slice(),
    )?;
    enclose(alloc, parts.as_slice())
}

/// What a routine reads and writes, and its parameters without a number.
fn offered_text(
    alloc: Global,
    lookup: &Lookup<'_>,
    values: &Values,
    spec: &Spec,
) -> Result<Text, Memory>
    requires scope { IsOfBound lookup.now }
    requires thorn { HasThorn lookup.now }
    ensures { IfOk result (λ text. text ≡ offered_text_in lookup.now values.now spec.now) }
{
    let mut parts = Text::from_slice(alloc, b"")?;
    push_wants(&mut parts, alloc, lookup, b" reads", spec.reads.as_slice())?;
    push_wants(
        &mut parts,
        alloc,
        lookup,
        b" writes",
        spec.writes.as_slice(),
    )?;
    push_params(&mut parts, values, spec.params.as_slice())?;
    enclose(alloc, parts.as_slice())
}

/// The fault of an item whose routine offers something else.
pub(crate) fn mismatch(
    alloc: Global,
    lookup: &Lookup<'_>,
    values: &Values,
    item: Item,
    spec: &Spec,
) -> Result<MatchFault, Memory>
    requires scope { IsOfBound lookup.now }
    requires thorn { HasThorn lookup.now }
    ensures { IfOk result (λ fault. fault ≡ mismatch_in lookup.now values.now item spec.now) }
{
    let declared = declared_text(alloc, lookup, &item)?;
    let offered = offered_text(alloc, lookup, values, spec)?;
    Ok(MatchFault::RoutineMismatch(item.path, declared, offered))
}
