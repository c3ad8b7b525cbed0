//! Sets of names, in any case.

ghost use Rattle.std.specs.Prelude.{◌≡◌, ◌≤◌, ◌++◌, ◌∷◌, [], not, false, length, IsTrue, IfOk, OnOk};
ghost use Rattle.std.specs.Option.{option_copied};
ghost use Rattle.std.specs.Str.{bytes_eq};
ghost use Rattle.cx_text.specs.Lexemes.{same_name, among};
ghost use Rattle.cx_bind.specs.NameSets.{has, first_absent, Adds};
ghost use Rattle.cx_text.specs.Bytes.{folded};

use cx_text::{Memory, Text};
use indexmap::IndexSet;
use std::alloc::Global;
use std::marker::Model;

/// A name in small letters.
pub(crate) fn folded_name(alloc: Global, name: &[u8]) -> Result<Vec<u8>, Memory>
    ensures { IfOk result (λ bytes. bytes.items ≡ folded name.now) }
{
    let mut bytes = Vec::with_capacity(alloc, name.len())?;
    'name: for byte in name {
        bytes.push(byte.to_ascii_lowercase())?;
    }
    Ok(bytes)
}

/// A name in small letters, in a place for them.
pub(crate) fn fold_into<'a>(name: &[u8], letters: &'a mut [u8]) -> &'a [u8]
    requires { length name.now ≤ length letters.old }
    ensures { result.now ≡ folded name.now }
{
    let folded = &mut letters[..name.len()];
    folded.copy_from_slice(name);
    folded.make_ascii_lowercase();
    folded
}

/// Whether a name is this key in small letters.
pub(crate) fn is_folded(name: &[u8], key: &[u8]) -> bool
    ensures { result ≡ bytes_eq (folded name.now) key.now }
{
    if name.len() != key.len() {
        return false;
    }
    'name: for (place, byte) in name.iter().enumerate() {
        if byte.to_ascii_lowercase() != key[place] {
            return false;
        }
    }
    true
}

/// Different names. Contracts see them in small letters, in the order in which they came.
#[derive(Drop)]
pub(crate) struct NameSet {
    names: IndexSet<Vec<u8>>,
}

impl Model for NameSet {
    ghost use Rattle.std.specs.Prelude.{List, ℕ, map};

    ghost Value = { List (List ℕ) };

    ghost view = { λ set. map (λ name. name.items) set.names.keys };
}

impl NameSet {
    /// A set without names.
    pub(crate) fn new(alloc: Global) -> Self
        ensures { result ≡ [] }
    {
        NameSet {
            names: IndexSet::new(alloc),
        }
    }

    /// Adds a name that isn't there, and says whether it wasn't.
    pub(crate) fn insert(&mut self, alloc: Global, name: &[u8]) -> Result<bool, Memory>
        ensures new { IfOk result (λ new. new ≡ not (has self.old name.now)) }
        ensures added { IfOk result
            (λ new. IsTrue new → self.new ≡ self.old ++ folded name.now ∷ []) }
        ensures kept { IfOk result (λ new. new ≡ false → self.new ≡ self.old) }
        ensures names { OnOk result (Adds self.old (same_name name.now) self.new) }
    {
        let new = self.names.insert(folded_name(alloc, name)?)?;
        Ok(new)
    }

    /// Adds those of these names that aren't there.
    pub(crate) fn insert_all(&mut self, alloc: Global, names: &[Text]) -> Result<(), Memory>
        ensures { OnOk result (Adds self.old (among names.now) self.new) }
    {
        'names: for name in names {
            self.insert(alloc, name.as_slice())?;
        }
        Ok(())
    }

    /// Whether a name is there.
    pub(crate) fn has(&self, alloc: Global, name: &[u8]) -> Result<bool, Memory>
        ensures { IfOk result (λ there. there ≡ has self.now name.now) }
    {
        let key = folded_name(alloc, name)?;
        Ok(self.names.contains(&key))
    }

    /// The first of these names that isn't there.
    pub(crate) fn first_missing<'a>(
        &self,
        alloc: Global,
        names: &'a [Text],
    ) -> Result<Option<&'a Text>, Memory>
        ensures { IfOk result
            (λ first. option_copied first ≡ first_absent (has self.now) names.now) }
    {
        'names: for name in names {
            if !self.has(alloc, name.as_slice())? {
                return Ok(Some(name));
            }
        }
        Ok(None)
    }
}
