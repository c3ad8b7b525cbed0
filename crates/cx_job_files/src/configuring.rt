//! What the files of a configuration say.

ghost use Rattle.std.specs.Prelude.{◌≡◌, length, codes, IfOk};
ghost use Rattle.cx_bind.specs.Selecting.{select};
ghost use Rattle.cx_job_files.specs.declared.fault.ConfigFault.TheVariants as faults;
ghost use Rattle.cx_bind.specs.Variables.{variable_infos};
ghost use Rattle.cx_job_files.specs.NamesAndLevels.{AreNamed, AreRead, SayRead};
ghost use Rattle.cx_job_files.specs.Reading.{Comes, ComesFrom};
ghost use Rattle.cx_job_files.specs.Stages.{Is, or_fault};
ghost use Rattle.cx_job_files.specs.Configuring.{ThornsSay, ThornsAnd, PlacesAnd, ListAnd, Configures, configuration_of};

use crate::fault::ConfigFault;
use crate::reading::{ThornFiles, settings_file, thorn_files, thorn_list_file};
use crate::shelf::Shelf;
use cx_bind::{Thorn, select};
use cx_conf::ThornList;
use cx_parfile::Settings;
use cx_sched::ScheduleFile;
use cx_text::{List, Memory, Text};
use std::alloc::Global;

/// What the files of a configuration say: the settings, and per active thorn that isn't built in what its files say.
#[derive(Debug, Drop)]
pub struct Configured {
    pub settings: Settings,
    pub thorns: List<Thorn>,
    pub schedules: List<ScheduleFile>,
}

/// The name of the file that lists the thorns.
fn thorn_list_name(alloc: Global) -> Result<Text, Memory>
    ensures { IfOk result (λ name. name ≡ codes "ThornList") }
{
    Text::from_slice(alloc, b"ThornList")
}

/// The places of the active thorns in the list of thorns.
fn chosen(
    alloc: Global,
    list: &ThornList,
    active: &List<Text>,
) -> Result<List<(Text, Text)>, ConfigFault>
    ensures comes { Comes (Is (or_fault faults.Bind (select list.now active.now))) result }
    ensures named { IfOk result (λ places. AreNamed list.now.places → AreNamed places) }
{
    Ok(select(alloc, list, active)?)
}

/// What the files of the thorns at these places say.
fn thorns_said<H: Shelf>(
    alloc: Global,
    shelf: &mut H,
    places: &[(Text, Text)],
) -> Result<List<ThornFiles>, ConfigFault>
    ensures follows { ComesFrom H.Shelf (ThornsSay places.now) shelf.old shelf.new result }
    ensures read { IfOk result (λ said. AreNamed places.now → SayRead said) }
{
    let mut said = List::empty(alloc);
    'places: for place in places {
        said.push(thorn_files(alloc, shelf, place)?)?;
    }
    Ok(said)
}

/// The settings with what the thorns' files say.
fn with_files(
    alloc: Global,
    settings: Settings,
    files: List<ThornFiles>,
) -> Result<Configured, Memory>
    ensures { IfOk result (λ configured. configured ≡ configuration_of settings files) }
{
    let mut thorns = List::empty(alloc);
    let mut schedules = List::empty(alloc);
    'files: for ThornFiles { thorn, schedule } in files.into_vec() {
        thorns.push(thorn)?;
        schedules.push(schedule)?;
    }
    Ok(Configured {
        settings,
        thorns,
        schedules,
    })
}

/// The files of the thorns at these places, and the configuration.
fn thorns_and<H: Shelf>(
    alloc: Global,
    shelf: &mut H,
    settings: Settings,
    places: &[(Text, Text)],
) -> Result<Configured, ConfigFault>
    ensures follows { ComesFrom H.Shelf (ThornsAnd settings places.now) shelf.old shelf.new result }
    ensures as_many { IfOk result (λ c. length c.schedules ≡ length c.thorns) }
    ensures read { IfOk result (λ c. AreNamed places.now → AreRead (variable_infos c.thorns)) }
{
    let files = thorns_said(alloc, shelf, places)?;
    Ok(with_files(alloc, settings, files)?)
}

/// The active thorns' places in the list of thorns, and what follows them.
fn places_and<H: Shelf>(
    alloc: Global,
    shelf: &mut H,
    settings: Settings,
    list: &ThornList,
) -> Result<Configured, ConfigFault>
    ensures follows { ComesFrom H.Shelf (PlacesAnd settings list.now) shelf.old shelf.new result }
    ensures as_many { IfOk result (λ c. length c.schedules ≡ length c.thorns) }
    ensures read { IfOk result (λ c. AreNamed list.now.places → AreRead (variable_infos c.thorns)) }
{
    let places = chosen(alloc, list, &settings.active)?;
    thorns_and(alloc, shelf, settings, places.as_slice())
}

/// The list of thorns, and what follows it.
fn list_and<H: Shelf>(
    alloc: Global,
    shelf: &mut H,
    settings: Settings,
) -> Result<Configured, ConfigFault>
    ensures follows { ComesFrom H.Shelf (ListAnd settings) shelf.old shelf.new result }
    ensures as_many { IfOk result (λ c. length c.schedules ≡ length c.thorns) }
    ensures read { IfOk result (λ configured. AreRead (variable_infos configured.thorns)) }
{
    let name = thorn_list_name(alloc)?;
    let list = thorn_list_file(alloc, shelf, &name)?;
    places_and(alloc, shelf, settings, &list)
}

/// What the files of the configuration say that a parameter file of this name begins.
pub fn configure<H: Shelf>(
    alloc: Global,
    shelf: &mut H,
    name: &Text,
) -> Result<Configured, ConfigFault>
    ensures follows { ComesFrom H.Shelf (Configures name.now) shelf.old shelf.new result }
    ensures as_many { IfOk result (λ c. length c.schedules ≡ length c.thorns) }
    ensures read { IfOk result (λ configured. AreRead (variable_infos configured.thorns)) }
{
    let settings = settings_file(alloc, shelf, name)?;
    list_and(alloc, shelf, settings)
}
