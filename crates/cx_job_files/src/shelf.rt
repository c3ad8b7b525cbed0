//! Where input files come from.
ghost use Rattle.std.specs.Prelude.{◌≡◌, ℕ, IfOk};
ghost use Rattle.std.specs.Option.{option_copied};
ghost use Rattle.cx_job_files.specs.Shelf.{Held, Gives, looked_up};
ghost use Rattle.cx_disk.specs.Cause.{HasCause};

use cx_text::{List, Text};
use std::alloc::{AllocError, Global};
use std::marker::Model;
use thiserror::Error;

/// Why a shelf gave nothing.
#[derive(Clone, Copy, Debug, Error, PartialEq, Eq)]
pub enum ShelfFault {
    /// The shelf failed. Its count of faults has risen in this call, or stands at 2^64 - 1.
    #[error("Failed")]
    Failed,
    /// Out of memory.
    #[error("Memory")]
    Memory,
}

impl From<AllocError> for ShelfFault {
    ghost use Rattle.std.specs.Prelude.{◌≡◌};
    ghost use Rattle.cx_job_files.specs.declared.shelf.ShelfFault.TheVariants.{Memory};

    ghost from_gives = { λ _ e. e ≡ Memory };

    fn from(_: AllocError) -> Self {
        ShelfFault::Memory
    }
}

/// Input files under names.
pub trait Shelf {
    /// The shelf tells what it holds. Where it doesn't, nothing is said of bytes.
    ghost tells: { Type 0 };

    /// The bytes under each name.
    ghost held: { Self → Held };

    /// How often the shelf has failed. The count stops at 2^64 - 1.
    ghost faults: { Self → ℕ };

    /// The bytes under a name, or None where no file stands there. The files stay as they are.
    ///
    /// `Failed` comes only where the count of faults rose, `Memory` when out of memory.
    fn read(&mut self, alloc: Global, name: &Text) -> Result<Option<Vec<u8>>, ShelfFault>
        ensures found { tells → IfOk result (λ found. Gives found (held self.old name.now)) }
        ensures same { tells → held self.new ≡ held self.old }
        ensures cause { HasCause ShelfFault.Failed (faults self.old) (faults self.new) result };
}

/// A shelf in memory. It never fails. Of several files of one name the first counts.
#[derive(Drop)]
pub struct MemoryShelf {
    files: List<(Text, Text)>,
}

impl Model for MemoryShelf {
    ghost use Rattle.std.specs.Prelude.{List, ℕ};

    ghost Value = { List (List ℕ × List ℕ) };

    ghost view = { λ shelf. shelf.files };
}

impl MemoryShelf {
    /// A shelf of these files, each a name and its bytes.
    pub fn new(files: List<(Text, Text)>) -> Self
        ensures { result ≡ files }
    {
        MemoryShelf { files }
    }
}

/// The bytes of the first file of that name.
#[tactic(auto, using(crate::proofs::Named::skipped, crate::proofs::Named::met, crate::proofs::Named::none_left))]
fn bytes_under<'a>(files: &'a [(Text, Text)], name: &Text) -> Option<&'a Text>
    ensures { option_copied result ≡ looked_up files.now name.now }
{
    'files: for file in files {
        if file.0.as_slice() == name.as_slice() {
            return Some(&file.1);
        }
    }
    None
}

impl Shelf for MemoryShelf {
    ghost tells = { Unit {0} };

    ghost held = { λ shelf. looked_up shelf };

    ghost faults = { λ _. 0 };

    /// A copy of the first file of this name. It fails only when memory runs out.
    fn read(&mut self, alloc: Global, name: &Text) -> Result<Option<Vec<u8>>, ShelfFault>
        ensures kept { self.new ≡ self.old }
        ensures found { IfOk result (λ found. Gives found (looked_up self.old name.now)) }
        ensures same { looked_up self.new ≡ looked_up self.old }
        ensures cause { HasCause ShelfFault.Failed 0 0 result }
    {
        match bytes_under(self.files.as_slice(), name) {
            Some(bytes) => Ok(Some(bytes.as_slice().to_vec(alloc)?)),
            None => Ok(None),
        }
    }
}
