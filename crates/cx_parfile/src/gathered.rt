//! What a parameter file says, as it is read.

ghost use Rattle.std.specs.Prelude.{◌≡◌, ◌++◌, ◌∷◌, [], OnOk};
ghost use Rattle.cx_parfile.specs.Values.{thorns_in, activate_all};

use crate::value::activate_thorns;
use crate::{Setting, Settings};
use cx_text::{List, Memory};
use cx_text_names::NameList;
use std::alloc::Global;
use std::marker::Model;

/// The settings that are read so far, where an active thorn is found without a search. Contracts see them as plain settings.
#[derive(Drop)]
pub struct Gathered {
    active: NameList,
    list: List<Setting>,
}

impl Model for Gathered {
    ghost use Rattle.cx_parfile.specs.declared.settings.Settings.{Settings};

    ghost Value = { Settings };

    ghost view = { λ gathered. record { active = gathered.active; list = gathered.list } };
}

impl Gathered {
    /// No settings.
    pub fn new(alloc: Global) -> Self
        ensures { result ≡ record { active = []; list = [] } }
    {
        Gathered {
            active: NameList::new(alloc),
            list: List::empty(alloc),
        }
    }

    /// Adds the thorns that a text names and that are not active yet.
    pub fn activate(&mut self, alloc: Global, text: &[u8]) -> Result<(), Memory>
        ensures { let active = activate_all self.old.active (thorns_in text.now) in
            OnOk result (self.new ≡ record self.old { active = active }) }
    {
        activate_thorns(alloc, &mut self.active, text)
    }

    /// Adds a setting at the end.
    pub fn add(&mut self, setting: Setting) -> Result<(), Memory>
        ensures { OnOk result
            (self.new ≡ record self.old { list = self.old.list ++ setting ∷ [] }) }
    {
        self.list.push(setting)
    }

    /// The settings, handed over.
    pub fn into_settings(self) -> Settings
        ensures { result ≡ self }
    {
        Settings {
            active: self.active.into_list(),
            list: self.list,
        }
    }
}
