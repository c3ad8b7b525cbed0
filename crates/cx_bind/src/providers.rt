//! Active thorns, and what they implement.

ghost use Rattle.std.specs.Prelude.{◌≡◌, ◌++◌, ◌∷◌, [], Some, IfOk, OnOk};
ghost use Rattle.std.specs.Option.{option_copied};
ghost use Rattle.cx_plan.specs.Lists.{or_else};
ghost use Rattle.cx_bind.specs.BuiltIn.{provider};
ghost use Rattle.cx_bind.specs.Faults.{providers, repeated, told_by, two_providers};
ghost use Rattle.cx_text.specs.Telling.{Tells};
ghost use Rattle.cx_bind.specs.declared.thorns.BindFault.TheVariants as faults;

use crate::name_places::NamePlaces;
use crate::{BindFault, Thorn};
use cx_text::{List, Memory, Text};
use std::alloc::Global;

/// A thorn and what it implements.
#[derive(Debug, Drop)]
pub(crate) struct Provider {
    pub(crate) implementation: Text,
    pub(crate) thorn: Text,
}

/// Adds an active thorn and the implementation that it provides.
fn push_provider(
    alloc: Global,
    active: &mut List<Provider>,
    implementation: &[u8],
    thorn: &[u8],
) -> Result<(), Memory>
    ensures { OnOk result (active.new ≡ active.old ++ provider implementation.now thorn.now ∷ []) }
{
    active.push(Provider {
        implementation: Text::from_slice(alloc, implementation)?,
        thorn: Text::from_slice(alloc, thorn)?,
    })
}

/// The built-in thorns and these, with what they implement.
pub(crate) fn providers(alloc: Global, thorns: &[Thorn]) -> Result<List<Provider>, Memory>
    ensures { IfOk result (λ active. active ≡ providers thorns.now) }
{
    let mut active = List::empty(alloc);
    push_provider(alloc, &mut active, b"Cactus", b"Cactus")?;
    push_provider(alloc, &mut active, b"driver", b"PUGH")?;
    push_provider(alloc, &mut active, b"IO", b"IOUtil")?;
    'thorns: for thorn in thorns {
        push_provider(
            alloc,
            &mut active,
            thorn.interface.implements.as_slice(),
            thorn.name.as_slice(),
        )?;
    }
    Ok(active)
}

/// The fault of two active thorns that provide one implementation.
fn two_providers(alloc: Global, provider: &Provider, other: &Provider) -> Result<(), BindFault>
    ensures { Tells faults.Memory (repeated provider.now (Some other.now)) result }
{
    Err(BindFault::TwoProviders(
        Text::from_slice(alloc, provider.implementation.as_slice())?,
        Text::from_slice(alloc, provider.thorn.as_slice())?,
        Text::from_slice(alloc, other.thorn.as_slice())?,
    ))
}

/// A provider with one that repeats it, else the pair that is there.
fn or_pair<'a>(
    provider: &'a Provider,
    other: Option<&'a Provider>,
    pair: Option<(&'a Provider, &'a Provider)>,
) -> Option<(&'a Provider, &'a Provider)>
    ensures { told_by result
        ≡ or_else (repeated provider.now (option_copied other.entry)) (told_by pair.entry) }
{
    match other {
        Some(other) => Some((provider, other)),
        None => pair,
    }
}

/// The first provider that a later one repeats, and the first that does.
fn first_repeated(
    alloc: Global,
    active: &[Provider],
) -> Result<Option<(&Provider, &Provider)>, Memory>
    ensures { IfOk result (λ pair. told_by pair ≡ two_providers active.now) }
{
    let mut places = NamePlaces::new(alloc);
    let mut pair = None;
    let mut place = active.len();
    'places: while place > 0 {
        place -= 1;
        let provider = &active[place];
        let implementation = provider.implementation.as_slice();
        let other = places.at_name(alloc, active, implementation)?;
        pair = or_pair(provider, other, pair);
        places.insert(alloc, implementation, place)?;
    }
    Ok(pair)
}

/// Tests that no two active thorns provide one implementation.
pub(crate) fn check_providers(alloc: Global, active: &[Provider]) -> Result<(), BindFault>
    ensures { Tells faults.Memory (two_providers active.now) result }
{
    match first_repeated(alloc, active)? {
        None => Ok(()),
        Some((provider, other)) => two_providers(alloc, provider, other),
    }
}
