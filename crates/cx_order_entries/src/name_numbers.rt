//! Names with numbers.

ghost use Rattle.std.specs.Prelude.{◌≡◌, ◌++◌, ◌∷◌, [], not, position, length, IfOk, OnOk, IfSome, ◌<◌};
ghost use Rattle.std.specs.List.{list_any};
ghost use Rattle.std.specs.Str.{bytes_eq};
ghost use Rattle.cx_plan.specs.Lists.{once_behind};
ghost use Rattle.cx_text.specs.Bytes.{folded};

use crate::keys::folded_name;
use cx_text::Memory;
use indexmap::IndexSet;
use std::alloc::Global;
use std::marker::Model;

/// Different names, numbered as they came. Contracts see them in small letters.
#[derive(Drop)]
pub(crate) struct Numbered {
    names: IndexSet<Vec<u8>>,
}

impl Model for Numbered {
    ghost use Rattle.std.specs.Prelude.{List, ℕ, map};

    ghost Value = { List (List ℕ) };

    ghost view = { λ numbered. map (λ name. name.items) numbered.names.keys };
}

impl Numbered {
    /// No names.
    pub(crate) fn new(alloc: Global) -> Self
        ensures { result ≡ [] }
    {
        Numbered {
            names: IndexSet::new(alloc),
        }
    }

    /// Adds a name that isn't there, and says whether it wasn't.
    pub(crate) fn insert(&mut self, alloc: Global, name: &[u8]) -> Result<bool, Memory>
        ensures new { IfOk result
            (λ new. new ≡ not (list_any (bytes_eq (folded name.now)) self.old)) }
        ensures added { let more = once_behind bytes_eq self.old (folded name.now ∷ []) in
            OnOk result (self.new ≡ self.old ++ more) }
    {
        let new = self.names.insert(folded_name(alloc, name)?)?;
        Ok(new)
    }

    /// The number of a name.
    pub(crate) fn number(&self, alloc: Global, name: &[u8]) -> Result<Option<usize>, Memory>
        ensures number { IfOk result
            (λ number. number ≡ position (bytes_eq (folded name.now)) self.now) }
        ensures within { IfOk result (λ number. IfSome number (λ k. k < length self.now)) }
    {
        let key = folded_name(alloc, name)?;
        Ok(self.names.get_index_of(&key))
    }
}
