//! What is active, by names.

ghost use Rattle.std.specs.Prelude.{◌≡◌, IfOk};
ghost use Rattle.std.specs.Option.{option_copied};
ghost use Rattle.cx_bind.specs.NameSets.{HasThose, first_absent};
ghost use Rattle.cx_bind.specs.Faults.{providers, is_implemented, is_active};

use crate::Thorn;
use crate::name_set::NameSet;
use crate::providers::{Provider, providers};
use cx_text::{List, Memory, Text};
use std::alloc::Global;
use std::marker::Model;

/// Active thorns and what they implement, with the names of both. Contracts see the thorns with what they implement.
#[derive(Drop)]
pub(crate) struct Active {
    providers: List<Provider>,
    implementations: NameSet,
    thorns: NameSet,
}

impl Model for Active {
    ghost use Rattle.std.specs.Prelude.{List};
    ghost use Rattle.cx_bind.specs.declared.providers.Provider.{Provider};
    ghost use Rattle.cx_bind.specs.NameSets.{HasThose};
    ghost use Rattle.cx_bind.specs.Faults.{is_implemented, is_active};

    ghost Value = { List Provider };

    ghost view = { λ a. a.providers };

    ghost invariant = { λ a. HasThose (is_implemented a.providers) a.implementations
        × HasThose (is_active a.providers) a.thorns };
}

/// The names of all implementations that the active thorns provide.
fn implementations(alloc: Global, providers: &[Provider]) -> Result<NameSet, Memory>
    ensures { IfOk result (λ names. HasThose (is_implemented providers.now) names) }
{
    let mut names = NameSet::new(alloc);
    'providers: for provider in providers {
        names.insert(alloc, provider.implementation.as_slice())?;
    }
    Ok(names)
}

/// The names of all active thorns.
fn thorn_names(alloc: Global, providers: &[Provider]) -> Result<NameSet, Memory>
    ensures { IfOk result (λ names. HasThose (is_active providers.now) names) }
{
    let mut names = NameSet::new(alloc);
    'providers: for provider in providers {
        names.insert(alloc, provider.thorn.as_slice())?;
    }
    Ok(names)
}

impl Active {
    /// The built-in thorns and these, with what they implement.
    pub(crate) fn new(alloc: Global, thorns: &[Thorn]) -> Result<Self, Memory>
        ensures { IfOk result (λ active. active ≡ providers thorns.now) }
    {
        let providers = providers(alloc, thorns)?;
        let implementations = implementations(alloc, providers.as_slice())?;
        let names = thorn_names(alloc, providers.as_slice())?;
        Ok(Active {
            providers,
            implementations,
            thorns: names,
        })
    }

    /// The thorns with what they implement, in the order of activation.
    pub(crate) fn providers(&self) -> &[Provider]
        ensures { result.now ≡ self.now }
    {
        self.providers.as_slice()
    }

    /// Whether an implementation is active.
    pub(crate) fn is_implemented(
        &self,
        alloc: Global,
        implementation: &[u8],
    ) -> Result<bool, Memory>
        ensures { IfOk result (λ there. there ≡ is_implemented self.now implementation.now) }
    {
        self.implementations.has(alloc, implementation)
    }

    /// The first of these implementations that isn't active.
    pub(crate) fn find_unimplemented<'a>(
        &self,
        alloc: Global,
        names: &'a [Text],
    ) -> Result<Option<&'a Text>, Memory>
        ensures { IfOk result
            (λ first. option_copied first
            ≡ first_absent (is_implemented self.now) names.now) }
    {
        self.implementations.first_missing(alloc, names)
    }

    /// The first of these thorns that isn't active.
    pub(crate) fn find_inactive<'a>(
        &self,
        alloc: Global,
        names: &'a [Text],
    ) -> Result<Option<&'a Text>, Memory>
        ensures { IfOk result
            (λ first. option_copied first ≡ first_absent (is_active self.now) names.now) }
    {
        self.thorns.first_missing(alloc, names)
    }
}
