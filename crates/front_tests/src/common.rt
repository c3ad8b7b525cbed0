//! Thorns by their files, and the words of faults.

use cx_bind::{Bound, Thorn, bind};
use cx_conf::{Configuration, read_configuration};
use cx_iface::{Interface, read_interface};
use cx_param::{ParamDecl, read_params};
use cx_parfile::{Settings, read_parfile};
use cx_scope::ScopeFault;
use cx_text::{List, Style, Text, tokens};
use std::alloc::Global;
use std::test::Fail;

/// A thorn's name, and its interface, param and configuration files.
pub(crate) type Files = (&'static [u8], &'static [u8], &'static [u8], &'static [u8]);

pub(crate) fn text(alloc: Global, bytes: &[u8]) -> Result<Text, Fail> {
    Ok(Text::from_slice(alloc, bytes)?)
}

fn interface_of(alloc: Global, bytes: &[u8]) -> Result<Interface, Fail> {
    let tokens = tokens(alloc, bytes, Style::Ccl)?;
    Ok(read_interface(alloc, &tokens)?)
}

fn params_of(alloc: Global, bytes: &[u8]) -> Result<List<ParamDecl>, Fail> {
    let tokens = tokens(alloc, bytes, Style::Ccl)?;
    Ok(read_params(alloc, &tokens)?)
}

fn configuration_of(alloc: Global, bytes: &[u8]) -> Result<Configuration, Fail> {
    let tokens = tokens(alloc, bytes, Style::Ccl)?;
    Ok(read_configuration(alloc, &tokens)?)
}

/// The thorn of these files.
pub(crate) fn thorn(alloc: Global, files: Files) -> Result<Thorn, Fail> {
    Ok(Thorn {
        arrangement: text(alloc, b"Integer")?,
        name: text(alloc, files.0)?,
        interface: interface_of(alloc, files.1)?,
        params: params_of(alloc, files.2)?,
        conf: configuration_of(alloc, files.3)?,
    })
}

pub(crate) fn thorns(alloc: Global, all: &[Files]) -> Result<List<Thorn>, Fail> {
    let mut thorns = List::empty(alloc);
    for files in all {
        thorns.push(thorn(alloc, *files)?)?;
    }
    Ok(thorns)
}

/// The settings of a parameter file.
pub(crate) fn settings_of(alloc: Global, file: &str) -> Result<Settings, Fail> {
    let base = text(alloc, b"box")?;
    let tokens = tokens(alloc, file.as_bytes(), Style::Par)?;
    Ok(read_parfile(alloc, &tokens, &base)?)
}

/// The thorns of these files, which fit each other.
pub(crate) fn bound(alloc: Global, all: &[Files]) -> Result<Bound, Fail> {
    let thorns = thorns(alloc, all)?;
    Ok(bind(alloc, thorns)?)
}

/// A word and a name.
pub(crate) fn of_one(alloc: Global, word: &[u8], name: &Text) -> Result<Text, Fail> {
    let mut words = text(alloc, word)?;
    words.push_slice(name.as_slice())?;
    Ok(words)
}

/// The words of a fault of a name.
pub(crate) fn scope_words(alloc: Global, fault: &ScopeFault) -> Result<Text, Fail> {
    match fault {
        ScopeFault::NotFound(name) => of_one(alloc, b"NotFound ", name),
        ScopeFault::Hidden(name) => of_one(alloc, b"Hidden ", name),
        ScopeFault::NoStorage(name) => of_one(alloc, b"NoStorage ", name),
        ScopeFault::NoLevel(name) => of_one(alloc, b"NoLevel ", name),
        ScopeFault::NotScalar(name) => of_one(alloc, b"NotScalar ", name),
        ScopeFault::NotGrid(name) => of_one(alloc, b"NotGrid ", name),
        ScopeFault::Memory => text(alloc, b"Memory"),
    }
}
