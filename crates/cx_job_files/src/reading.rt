//! Reading the files of a configuration.

ghost use Rattle.std.specs.Prelude.{◌≡◌, ◌≤◌, ◌⊎◌, All, IfOk, Option, Some, None, Ok, codes};
ghost use Rattle.cx_text.specs.declared.fault.TextFault.TheVariants as text_faults;
ghost use Rattle.cx_text.specs.declared.fault.CclFault.TheVariants as ccl_faults;
ghost use Rattle.cx_text.specs.Printing.{HasText};
ghost use Rattle.cx_plan.specs.Whole.{IsName};
ghost use Rattle.cx_parfile.specs.Values.{base_of};
ghost use Rattle.cx_job_files.specs.declared.fault.ConfigFault.TheVariants as faults;
ghost use Rattle.cx_job_files.specs.Reading.{Comes, ComesFrom, ConfAnd, Finds, IsTree, NamedText, NamedTree, ParamsAnd, SaysConfiguration, SaysInterface, SaysParams, SaysSchedule, SaysSettings, SaysSteerFile, SaysSteers, SaysThornList, ScheduleAnd, TextTokens, ThornSays, TokensOf, TokensOfAny, file_names, files_of, thorn_file};
ghost use Rattle.cx_job_files.specs.NamesAndLevels.{AreNamed, HasNames, IsReadThorn, SayOf};
ghost use Rattle.cx_conf.specs.Conf.{no_configuration};

use crate::fault::ConfigFault;
use crate::shelf::{Shelf, ShelfFault};
use cx_bind::Thorn;
use cx_conf::{Configuration, ThornList, read_configuration, read_thornlist};
use cx_iface::{Interface, read_interface};
use cx_param::{ParamDecl, read_params};
use cx_parfile::{Settings, SteerLine, base_of, read_parfile, read_steer};
use cx_sched::{ScheduleFile, read_schedule};
use cx_text::{CclFault, List, Memory, Style, Text, TextFault, Token, tokens};
use std::alloc::Global;

/// The names of a thorn's files.
#[derive(Debug, Drop)]
pub(crate) struct FileNames {
    interface: Text,
    params: Text,
    schedule: Text,
    conf: Text,
}

/// What those files of a thorn spell that must be there.
#[derive(Debug, Drop)]
pub(crate) struct Trees {
    interface: Interface,
    params: List<ParamDecl>,
    schedule: ScheduleFile,
}

/// What the files of a thorn say.
#[derive(Debug, Drop)]
pub struct ThornFiles {
    pub thorn: Thorn,
    pub schedule: ScheduleFile,
}

/// The bytes under a name.
fn bytes_of<H: Shelf>(
    alloc: Global,
    shelf: &mut H,
    name: &Text,
) -> Result<Option<Text>, ConfigFault>
    ensures { ComesFrom H.Shelf (Finds name.now) shelf.old shelf.new result }
{
    match shelf.read(alloc, name) {
        Ok(Some(bytes)) => Ok(Some(Text::new(bytes))),
        Ok(None) => Ok(None),
        Err(ShelfFault::Failed) => Err(ConfigFault::Shelf),
        Err(ShelfFault::Memory) => Err(ConfigFault::Memory),
    }
}

/// A fault of the text under a name, or want of memory.
fn text_fault(alloc: Global, name: &Text, fault: TextFault) -> ConfigFault
    ensures fault { NamedText name.now fault result }
    ensures memory { fault ≡ text_faults.Memory → result ≡ faults.Memory }
{
    if fault == TextFault::Memory {
        return ConfigFault::Memory;
    }
    match Text::from_slice(alloc, name.as_slice()) {
        Ok(name) => ConfigFault::Text(name, fault),
        Err(_) => ConfigFault::Memory,
    }
}

/// A fault of the tokens under a name, or want of memory.
fn tree_fault(alloc: Global, name: &Text, fault: CclFault) -> ConfigFault
    ensures fault { NamedTree name.now fault result }
    ensures memory { fault ≡ ccl_faults.Memory → result ≡ faults.Memory }
{
    if fault == CclFault::Memory {
        return ConfigFault::Memory;
    }
    match Text::from_slice(alloc, name.as_slice()) {
        Ok(name) => ConfigFault::Ccl(name, fault),
        Err(_) => ConfigFault::Memory,
    }
}

/// That there is no file of this name, or want of memory.
fn no_file(alloc: Global, name: &Text) -> ConfigFault
    ensures { (result ≡ faults.Memory) ⊎ (result ≡ faults.NoFile name.now) }
{
    match Text::from_slice(alloc, name.as_slice()) {
        Ok(name) => ConfigFault::NoFile(name),
        Err(_) => ConfigFault::Memory,
    }
}

/// The tokens of the bytes under a name.
fn text_tokens(
    alloc: Global,
    name: &Text,
    bytes: &Text,
    style: Style,
) -> Result<List<Token>, ConfigFault>
    ensures { Comes (TextTokens style name.now bytes.now) result }
{
    match tokens(alloc, bytes.as_slice(), style) {
        Ok(tokens) => Ok(tokens),
        Err(fault) => Err(text_fault(alloc, name, fault)),
    }
}

/// The tokens of a file that must be there.
fn required_tokens<H: Shelf>(
    alloc: Global,
    shelf: &mut H,
    name: &Text,
    style: Style,
) -> Result<List<Token>, ConfigFault>
    ensures follows { ComesFrom H.Shelf (TokensOf style name.now) shelf.old shelf.new result }
    ensures spelled { IfOk result (λ tokens. HasText style tokens) }
{
    match bytes_of(alloc, shelf, name)? {
        Some(bytes) => text_tokens(alloc, name, &bytes, style),
        None => Err(no_file(alloc, name)),
    }
}

/// The tokens of a file that may be absent.
fn tokens_if_any<H: Shelf>(
    alloc: Global,
    shelf: &mut H,
    name: &Text,
    style: Style,
) -> Result<Option<List<Token>>, ConfigFault>
    ensures { ComesFrom H.Shelf (TokensOfAny style name.now) shelf.old shelf.new result }
{
    match bytes_of(alloc, shelf, name)? {
        Some(bytes) => Ok(Some(text_tokens(alloc, name, &bytes, style)?)),
        None => Ok(None),
    }
}

/// What was read of a file's tokens, with the file's name in its fault.
fn named_tree<T>(alloc: Global, name: &Text, read: Result<T, CclFault>) -> Result<T, ConfigFault>
    ensures { IsTree name.now read result }
{
    match read {
        Ok(tree) => Ok(tree),
        Err(fault) => Err(tree_fault(alloc, name, fault)),
    }
}

/// What the interface file of this name says.
fn interface_file<H: Shelf>(
    alloc: Global,
    shelf: &mut H,
    name: &Text,
) -> Result<Interface, ConfigFault>
    ensures follows { ComesFrom H.Shelf (SaysInterface name.now) shelf.old shelf.new result }
    ensures read { IfOk result HasNames }
{
    let tokens = required_tokens(alloc, shelf, name, Style::Ccl)?;
    named_tree(alloc, name, read_interface(alloc, &tokens))
}

/// What the param file of this name says.
fn param_file<H: Shelf>(
    alloc: Global,
    shelf: &mut H,
    name: &Text,
) -> Result<List<ParamDecl>, ConfigFault>
    ensures { ComesFrom H.Shelf (SaysParams name.now) shelf.old shelf.new result }
{
    let tokens = required_tokens(alloc, shelf, name, Style::Ccl)?;
    named_tree(alloc, name, read_params(alloc, &tokens))
}

/// What the schedule file of this name says.
fn schedule_file<H: Shelf>(
    alloc: Global,
    shelf: &mut H,
    name: &Text,
) -> Result<ScheduleFile, ConfigFault>
    ensures { ComesFrom H.Shelf (SaysSchedule name.now) shelf.old shelf.new result }
{
    let tokens = required_tokens(alloc, shelf, name, Style::Ccl)?;
    named_tree(alloc, name, read_schedule(alloc, &tokens))
}

/// What the list of thorns of this name says.
pub(crate) fn thorn_list_file<H: Shelf>(
    alloc: Global,
    shelf: &mut H,
    name: &Text,
) -> Result<ThornList, ConfigFault>
    ensures follows { ComesFrom H.Shelf (SaysThornList name.now) shelf.old shelf.new result }
    ensures read { IfOk result (λ list. AreNamed list.places) }
{
    let tokens = required_tokens(alloc, shelf, name, Style::Thorns)?;
    named_tree(alloc, name, read_thornlist(alloc, &tokens))
}

/// What the parameter file of this name says.
pub(crate) fn settings_file<H: Shelf>(
    alloc: Global,
    shelf: &mut H,
    name: &Text,
) -> Result<Settings, ConfigFault>
    ensures { ComesFrom H.Shelf (SaysSettings name.now) shelf.old shelf.new result }
{
    let base = base_of(alloc, name)?;
    let tokens = required_tokens(alloc, shelf, name, Style::Par)?;
    named_tree(alloc, name, read_parfile(alloc, &tokens, &base))
}

/// What the steer file of this name says.
fn steer_file<H: Shelf>(
    alloc: Global,
    shelf: &mut H,
    name: &Text,
) -> Result<List<SteerLine>, ConfigFault>
    ensures follows { ComesFrom H.Shelf (SaysSteerFile name.now) shelf.old shelf.new result }
    ensures later { IfOk result (All (λ line. 1 ≤ line.at)) }
{
    let tokens = required_tokens(alloc, shelf, name, Style::Par)?;
    named_tree(alloc, name, read_steer(alloc, &tokens))
}

/// The lines of the steer file of this name, in the order of the file; without a name no file is read.
pub fn steer_lines<H: Shelf>(
    alloc: Global,
    shelf: &mut H,
    name: &Text,
) -> Result<List<SteerLine>, ConfigFault>
    ensures follows { ComesFrom H.Shelf (SaysSteers name.now) shelf.old shelf.new result }
    // Each counts from an iteration after the beginning on.
    ensures later { IfOk result (All (λ line. 1 ≤ line.at)) }
{
    if !name.is_empty() {
        return steer_file(alloc, shelf, name);
    }
    Ok(List::empty(alloc))
}

/// What a configuration file says that is absent.
fn no_configuration(alloc: Global) -> Configuration
    ensures { result ≡ no_configuration }
{
    Configuration {
        provides: List::empty(alloc),
        requires_: List::empty(alloc),
        thorns: List::empty(alloc),
        optional: List::empty(alloc),
    }
}

/// What the configuration file of this name says, which may be absent.
fn configuration_file<H: Shelf>(
    alloc: Global,
    shelf: &mut H,
    name: &Text,
) -> Result<Configuration, ConfigFault>
    ensures { ComesFrom H.Shelf (SaysConfiguration name.now) shelf.old shelf.new result }
{
    match tokens_if_any(alloc, shelf, name, Style::Ccl)? {
        Some(tokens) => named_tree(alloc, name, read_configuration(alloc, &tokens)),
        None => Ok(no_configuration(alloc)),
    }
}

/// What the files at a place say that spell this.
fn files_of(
    alloc: Global,
    place: &(Text, Text),
    trees: Trees,
    conf: Configuration,
) -> Result<ThornFiles, Memory>
    ensures { IfOk result (λ files. files ≡ files_of place.now trees conf) }
{
    let thorn = Thorn {
        arrangement: Text::from_slice(alloc, place.0.as_slice())?,
        name: Text::from_slice(alloc, place.1.as_slice())?,
        interface: trees.interface,
        params: trees.params,
        conf,
    };
    Ok(ThornFiles {
        thorn,
        schedule: trees.schedule,
    })
}

/// The configuration file of a thorn, and the thorn.
fn conf_and<H: Shelf>(
    alloc: Global,
    shelf: &mut H,
    place: &(Text, Text),
    names: &FileNames,
    trees: Trees,
) -> Result<ThornFiles, ConfigFault>
    ensures follows { ComesFrom H.Shelf (ConfAnd place.now names.now trees)
        shelf.old shelf.new result }
    ensures says { IfOk result (λ files. SayOf place.now trees.interface files) }
{
    let conf = configuration_file(alloc, shelf, &names.conf)?;
    Ok(files_of(alloc, place, trees, conf)?)
}

/// The schedule file of a thorn, and what follows it.
fn schedule_and<H: Shelf>(
    alloc: Global,
    shelf: &mut H,
    place: &(Text, Text),
    names: &FileNames,
    interface: Interface,
    params: List<ParamDecl>,
) -> Result<ThornFiles, ConfigFault>
    ensures follows { ComesFrom H.Shelf (ScheduleAnd place.now names.now interface params)
        shelf.old shelf.new result }
    ensures says { IfOk result (λ files. SayOf place.now interface files) }
{
    let schedule = schedule_file(alloc, shelf, &names.schedule)?;
    let trees = Trees {
        interface,
        params,
        schedule,
    };
    conf_and(alloc, shelf, place, names, trees)
}

/// The param file of a thorn, and what follows it.
fn params_and<H: Shelf>(
    alloc: Global,
    shelf: &mut H,
    place: &(Text, Text),
    names: &FileNames,
    interface: Interface,
) -> Result<ThornFiles, ConfigFault>
    ensures follows { ComesFrom H.Shelf (ParamsAnd place.now names.now interface)
        shelf.old shelf.new result }
    ensures says { IfOk result (λ files. SayOf place.now interface files) }
{
    let params = param_file(alloc, shelf, &names.params)?;
    schedule_and(alloc, shelf, place, names, interface, params)
}

/// What the files of these names say of a thorn.
fn thorn_says<H: Shelf>(
    alloc: Global,
    shelf: &mut H,
    place: &(Text, Text),
    names: &FileNames,
) -> Result<ThornFiles, ConfigFault>
    ensures follows { ComesFrom H.Shelf (ThornSays place.now names.now) shelf.old shelf.new result }
    ensures read { IfOk result (λ files. IsName place.now.1 → IsReadThorn files.thorn) }
{
    let interface = interface_file(alloc, shelf, &names.interface)?;
    params_and(alloc, shelf, place, names, interface)
}

/// The folder of the arrangements, with the slash that ends it.
fn arrangements(alloc: Global) -> Result<Text, Memory>
    ensures { IfOk result (λ name. name ≡ codes "arrangements/") }
{
    Text::from_slice(alloc, b"arrangements/")
}

/// The name of a thorn's file.
fn thorn_file(alloc: Global, place: &(Text, Text), file: &[u8]) -> Result<Text, Memory>
    ensures { IfOk result (λ name. name ≡ thorn_file place.now file.now) }
{
    let mut name = arrangements(alloc)?;
    name.push_slice(place.0.as_slice())?;
    name.push_slice(b"/")?;
    name.push_slice(place.1.as_slice())?;
    name.push_slice(b"/")?;
    name.push_slice(file)?;
    Ok(name)
}

/// The names of a thorn's files.
fn file_names(alloc: Global, place: &(Text, Text)) -> Result<FileNames, Memory>
    ensures { IfOk result (λ names. names ≡ file_names place.now) }
{
    Ok(FileNames {
        interface: thorn_file(alloc, place, b"interface.ccl")?,
        params: thorn_file(alloc, place, b"param.ccl")?,
        schedule: thorn_file(alloc, place, b"schedule.ccl")?,
        conf: thorn_file(alloc, place, b"configuration.ccl")?,
    })
}

/// What the files of the thorn at this place say.
pub(crate) fn thorn_files<H: Shelf>(
    alloc: Global,
    shelf: &mut H,
    place: &(Text, Text),
) -> Result<ThornFiles, ConfigFault>
    ensures follows { ComesFrom H.Shelf (ThornSays place.now (file_names place.now))
        shelf.old shelf.new result }
    ensures read { IfOk result (λ files. IsName place.now.1 → IsReadThorn files.thorn) }
{
    let names = file_names(alloc, place)?;
    thorn_says(alloc, shelf, place, &names)
}
