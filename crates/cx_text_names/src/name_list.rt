//! Names, with a table of them beside.

ghost use Rattle.std.specs.Prelude.{◌≡◌, ◌++◌, ◌∷◌, [], IfOk, OnOk, OnErr};
ghost use Rattle.cx_text.specs.Lexemes.{among};
ghost use Rattle.cx_text.specs.Bytes.{folded};

use cx_text::{List, Memory, Text};
use indexmap::IndexSet;
use std::alloc::Global;
use std::marker::Model;

/// A name in small letters.
fn folded_name(alloc: Global, name: &[u8]) -> Result<Vec<u8>, Memory>
    ensures { IfOk result (λ bytes. bytes.items ≡ folded name.now) }
{
    let mut bytes = name.to_vec(alloc)?;
    bytes.make_ascii_lowercase();
    Ok(bytes)
}

/// A list of names, with a table beside it that has each in small letters. Contracts see the list.
#[derive(Debug, Drop)]
pub struct NameList {
    names: Vec<Text>,
    table: IndexSet<Vec<u8>>,
}

impl Model for NameList {
    ghost use Rattle.std.specs.Prelude.{List as ListOf, ℕ, map};

    ghost Value = { ListOf (ListOf ℕ) };

    ghost use Rattle.cx_text_names.specs.Folded.{HasNames};

    ghost view = { λ list. list.names.items };

    ghost invariant = { λ list. HasNames (map (λ key. key.items) list.table.keys) list.names.items };
}

impl NameList {
    /// A list without names.
    pub fn new(alloc: Global) -> Self
        ensures { result ≡ [] }
    {
        NameList {
            names: Vec::new(alloc),
            table: IndexSet::new(alloc),
        }
    }

    /// The names, in the order in which they came, handed over.
    pub fn into_list(self) -> List<Text>
        ensures { result ≡ self }
    {
        List::new(self.names)
    }

    /// Whether a name is among these, in any case.
    ///
    /// # Errors
    /// Want of memory.
    pub fn has(&self, alloc: Global, name: &[u8]) -> Result<bool, Memory>
        ensures { IfOk result (λ there. there ≡ among self.now name.now) }
    {
        let key = folded_name(alloc, name)?;
        Ok(self.table.contains(&key))
    }

    /// Adds a name at the end.
    ///
    /// # Errors
    /// Want of memory; the list is then as it was.
    pub fn push(&mut self, alloc: Global, name: Text) -> Result<(), Memory>
        ensures ok { OnOk result (self.new ≡ self.old ++ name ∷ []) }
        ensures err { OnErr result (self.new ≡ self.old) }
    {
        let key = folded_name(alloc, name.as_slice())?;
        self.names.push(name)?;
        match self.table.insert(key) {
            Ok(_) => Ok(()),
            Err(_) => {
                self.names.pop();
                Err(Memory)
            }
        }
    }
}
