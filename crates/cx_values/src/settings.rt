//! What settings set.

ghost use Rattle.std.specs.Prelude.{◌≡◌, None, Some, codes, IfOk};
ghost use Rattle.std.specs.Option.{option_copied, unwrap_or};
ghost use Rattle.cx_plan.specs.Lists.{first_of_each};
ghost use Rattle.cx_bind.specs.NamePlaces.{place_of};
ghost use Rattle.cx_values.specs.Naming.{target_in, target};
ghost use Rattle.cx_values.specs.Special.{is_target, sets, text_by, checkpoint_dir};
ghost use Rattle.cx_plan.specs.Names.{with_owner};

use crate::lookups::element;
use cx_bind::{NamePlaces, Param, full_name};
use cx_parfile::Setting;
use cx_text::{Memory, Text};
use std::alloc::Global;

/// The name of a setting as it is written.
fn setting_name(alloc: Global, setting: &Setting) -> Result<Text, Memory>
    ensures { IfOk result (λ name. name ≡ with_owner setting.now.owner setting.now.name) }
{
    match &setting.owner {
        None => Text::from_slice(alloc, setting.name.as_slice()),
        Some(owner) => full_name(alloc, owner.as_slice(), setting.name.as_slice()),
    }
}

/// The place of the parameter that a setting names.
pub(crate) fn find_parameter(
    alloc: Global,
    names: &NamePlaces,
    setting: &Setting,
) -> Result<Option<usize>, Memory>
    ensures { IfOk result
        (λ place. place ≡ place_of names.now (with_owner setting.now.owner setting.now.name)) }
{
    let name = setting_name(alloc, setting)?;
    names.get(alloc, name.as_slice())
}

/// The element that an index names, with its parameter.
fn target_in(index: Option<u32>, place: usize, param: Option<&Param>) -> Option<(usize, u32)>
    ensures { result ≡ target_in index place (option_copied param.entry) }
{
    match param {
        None => None,
        Some(param) => match element(param.decl.length, index) {
            None => None,
            Some(element) => Some((place, element)),
        },
    }
}

/// What a setting sets, if its name and its index name something.
fn target(
    alloc: Global,
    params: &[Param],
    names: &NamePlaces,
    setting: &Setting,
) -> Result<Option<(usize, u32)>, Memory>
    ensures { IfOk result (λ at. at ≡ target params.now (place_of names.now) setting.now) }
{
    match find_parameter(alloc, names, setting)? {
        None => Ok(None),
        Some(place) => Ok(target_in(setting.index, place, params.get(place))),
    }
}

/// Whether a setting sets this element of this parameter.
fn is_target(place: usize, element: u32, target: Option<(usize, u32)>) -> bool
    ensures { result ≡ is_target place element target }
{
    match target {
        None => false,
        Some(at) => at.0 == place && at.1 == element,
    }
}

/// Whether a setting sets this parameter, which is no array.
fn sets(
    alloc: Global,
    params: &[Param],
    names: &NamePlaces,
    place: usize,
    setting: &Setting,
) -> Result<bool, Memory>
    ensures { IfOk result (λ set. set ≡ sets params.now (place_of names.now) place 0 setting.now) }
{
    Ok(is_target(place, 0, target(alloc, params, names, setting)?))
}

/// The text of the first setting of this parameter, which is no array.
fn text_set<'a>(
    alloc: Global,
    params: &[Param],
    names: &NamePlaces,
    place: usize,
    settings: &'a [Setting],
) -> Result<Option<&'a Text>, Memory>
    ensures { IfOk result
        (λ text. option_copied text
        ≡ first_of_each (text_by params.now (place_of names.now) place) settings.now) }
{
    for setting in settings {
        if sets(alloc, params, names, place, setting)? {
            return Ok(Some(&setting.value));
        }
    }
    Ok(None)
}

/// A copy of the text, or `.` where there is none.
fn text_or_here(alloc: Global, text: Option<&Text>) -> Result<Text, Memory>
    ensures { IfOk result (λ dir. dir ≡ unwrap_or (option_copied text.entry) (codes ".")) }
{
    match text {
        Some(text) => Text::from_slice(alloc, text.as_slice()),
        None => Text::from_slice(alloc, b"."),
    }
}

/// The folder of checkpoints.
pub(crate) fn checkpoint_dir(
    alloc: Global,
    params: &[Param],
    names: &NamePlaces,
    settings: &[Setting],
) -> Result<Text, Memory>
    ensures { IfOk result
        (λ dir. dir ≡ checkpoint_dir params.now (place_of names.now) settings.now) }
{
    match names.get(alloc, b"IO::checkpoint_dir")? {
        None => text_or_here(alloc, None),
        Some(place) => text_or_here(alloc, text_set(alloc, params, names, place, settings)?),
    }
}
