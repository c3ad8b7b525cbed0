//! What the calls of a disk do to its files, and to what a crash may leave of them.
ghost use Rattle.std.specs.Prelude.{◌≡◌, ◌≤◌, ◌<◌, ◌+◌, ℕ, Bool, length, slice_range, IsTrue, OnOk, OnErr, IfOk, IfErr};
ghost use Rattle.cx_disk.specs.Cause.{HasCause};
ghost use Rattle.cx_disk.specs.Disk.{Folders, IsNamed, View, IsView, SameFiles, OthersSame, Changes, Holds, Torn, Front, CutShort, Passes, IsSettled};
ghost use Rattle.cx_disk.specs.Files.{IsFile, count_with};

use cx_text::{List, Text};
use std::alloc::{AllocError, AllocFailed};
use thiserror::Error;

/// Why a call of a disk gave nothing.
#[derive(Clone, Copy, Debug, Error, PartialEq, Eq)]
pub enum DiskFault {
    /// The device failed, and counted it.
    #[error("Failed")]
    Failed,
    /// There was no memory left.
    #[error("Memory")]
    Memory,
}

impl From<AllocError> for DiskFault {
    ghost use Rattle.std.specs.Prelude.{◌≡◌};
    ghost use Rattle.cx_disk.specs.declared.disk.DiskFault.TheVariants.{Memory};

    ghost from_gives = { λ _ e. e ≡ Memory };

    fn from(_: AllocError) -> Self {
        DiskFault::Memory
    }
}

impl<T: Drop> From<AllocFailed<T>> for DiskFault {
    ghost use Rattle.std.specs.Prelude.{◌≡◌};
    ghost use Rattle.cx_disk.specs.declared.disk.DiskFault.TheVariants.{Memory};

    ghost from_gives = { λ _ e. e ≡ Memory };

    fn from(_: AllocFailed<T>) -> Self {
        DiskFault::Memory
    }
}

/// Files by number, as the constants and functions of this crate give them: the slots of checkpoints, the one output of a run
/// whose outputs have no names, an output for each name that `mount` is given, and the chunks with the file that they are
/// recombined to. A file that was never written has length 0.
///
/// A disk counts its failures, and tells `Failed` only where that count rises. What a crash may leave is a set of
/// images of all files. Between two syncs of a file each write may be left undone in part: the written range and
/// what lies past the old end may hold any bytes, and the length may be any between the old and the new one. After a
/// sync that answers Ok a crash leaves the file as it reads. A call that fails may have been stopped anywhere.
pub trait Disk {
    /// It tells what its files hold. Of one that doesn't, nothing is said of bytes and images.
    ghost tells: { Type 0 };

    /// Whether a `mount` has answered Ok.
    ghost mounted: { Self → Bool };

    /// The folders and the outputs that the last `mount` named. They are known whether or not it tells what its files hold.
    ghost folders: { Self → Folders };

    /// How many files it has below the chunks. The chunks and the recombined file are its files too.
    ghost file_count: { Self → ℕ };

    /// How its files read, and what a crash may leave of them.
    ghost view: { Self → View };

    /// How often it has failed, up to the last value of 64 bits.
    ghost faults: { Self → ℕ };

    /// Names the folder of the outputs, the outputs' files in it, and the folder of the checkpoints. The folders are
    /// `IO::out_dir` and `IO::checkpoint_dir` of the Cactus 4 Users' Guide. It changes no file's bytes, and comes before every
    /// other call.
    ///
    /// `Failed`: the device failed, and is mounted if it was, with the folders that it had. So it is after `Memory`.
    fn mount(
        &mut self,
        output: &Text,
        names: &List<Text>,
        checkpoints: &Text,
    ) -> Result<(), DiskFault>
        ensures mounted { OnOk result (IsTrue (mounted self.new)) }
        ensures stays { IsTrue (mounted self.old) → IsTrue (mounted self.new) }
        ensures named { OnOk result
            (IsNamed output.now names.now checkpoints.now (folders self.new)) }
        ensures unnamed { OnErr result (folders self.new ≡ folders self.old) }
        ensures files { OnOk result (file_count self.new ≡ count_with (length names.now)) }
        ensures as_many { OnErr result (file_count self.new ≡ file_count self.old) }
        ensures same { tells → SameFiles (view self.old).seen (view self.new).seen }
        ensures after { tells → Passes SameFiles (view self.old) (view self.new) }
        ensures cause { HasCause DiskFault.Failed (faults self.old) (faults self.new) result };

    /// The length of a file in bytes.
    ///
    /// `Failed`: the device failed.
    fn length(&mut self, file: u32) -> Result<u64, DiskFault>
        requires mounted { IsTrue (mounted self.old) }
        requires file { IsFile (file_count self.old) file }
        ensures length { tells → IfOk result
            (λ count. count ≡ length ((view self.old).seen file)) }
        ensures mounted { IsTrue (mounted self.new) }
        ensures folders { folders self.new ≡ folders self.old }
        ensures count { file_count self.new ≡ file_count self.old }
        ensures same { tells → SameFiles (view self.old).seen (view self.new).seen }
        ensures after { tells → Passes SameFiles (view self.old) (view self.new) }
        ensures cause { HasCause DiskFault.Failed (faults self.old) (faults self.new) result }
        ensures takes_no_memory { IfErr result (λ fault. fault ≡ DiskFault.Failed) };

    /// Reads as many bytes as `into` holds, from the offset `at` on. The range lies within the file.
    ///
    /// `Failed`: the device failed, or it tells nothing and the range isn't there. What `into` holds is then left open.
    fn read(&mut self, file: u32, at: u64, into: &mut [u8]) -> Result<(), DiskFault>
        requires mounted { IsTrue (mounted self.old) }
        requires file { IsFile (file_count self.old) file }
        requires range { tells → at + length into.old ≤ length ((view self.old).seen file) }
        ensures read { tells → OnOk result
            (into.new ≡ slice_range ((view self.old).seen file) at (at + length into.old)) }
        ensures mounted { IsTrue (mounted self.new) }
        ensures folders { folders self.new ≡ folders self.old }
        ensures count { file_count self.new ≡ file_count self.old }
        ensures same { tells → SameFiles (view self.old).seen (view self.new).seen }
        ensures after { tells → Passes SameFiles (view self.old) (view self.new) }
        ensures cause { HasCause DiskFault.Failed (faults self.old) (faults self.new) result }
        ensures takes_no_memory { IfErr result (λ fault. fault ≡ DiskFault.Failed) };

    /// Writes bytes from the offset `at` on, over what is there and past the end. The offset isn't past the end. Until
    /// the file is synced, a crash may leave the write undone in part.
    ///
    /// `Failed`: the device failed, or it tells nothing and the offset is past the end. The file then reads as the write
    /// may be left, and the others as before. So it may after `Memory`.
    fn write_at(&mut self, file: u32, at: u64, bytes: &[u8]) -> Result<(), DiskFault>
        requires mounted { IsTrue (mounted self.old) }
        requires file { IsFile (file_count self.old) file }
        requires start { tells → at ≤ length ((view self.old).seen file) }
        ensures written { tells → OnOk result
            (Holds at bytes.now ((view self.old).seen file) ((view self.new).seen file)) }
        ensures stopped { tells → OnErr result
            (Torn at (length bytes.now) ((view self.old).seen file) ((view self.new).seen file)) }
        ensures others { tells → OthersSame file (view self.old).seen (view self.new).seen }
        ensures mounted { IsTrue (mounted self.new) }
        ensures folders { folders self.new ≡ folders self.old }
        ensures count { file_count self.new ≡ file_count self.old }
        ensures after { tells →
            Passes (Changes (Torn at (length bytes.now)) file) (view self.old) (view self.new) }
        ensures cause { HasCause DiskFault.Failed (faults self.old) (faults self.new) result };

    /// Cuts a file to its first `to` bytes, of which it has at least so many. Until it is synced, a crash may leave more
    /// of them.
    ///
    /// `Failed`: the device failed, or it tells nothing and the file is shorter. The file then reads as the cut may be
    /// left, and the others as before. So it may after `Memory`.
    fn cut(&mut self, file: u32, to: u64) -> Result<(), DiskFault>
        requires mounted { IsTrue (mounted self.old) }
        requires file { IsFile (file_count self.old) file }
        requires within { tells → to ≤ length ((view self.old).seen file) }
        ensures cut { tells → OnOk result
            (Front to ((view self.old).seen file) ((view self.new).seen file)) }
        ensures stopped { tells → OnErr result
            (CutShort to ((view self.old).seen file) ((view self.new).seen file)) }
        ensures others { tells → OthersSame file (view self.old).seen (view self.new).seen }
        ensures mounted { IsTrue (mounted self.new) }
        ensures folders { folders self.new ≡ folders self.old }
        ensures count { file_count self.new ≡ file_count self.old }
        ensures after { tells →
            Passes (Changes (CutShort to) file) (view self.old) (view self.new) }
        ensures cause { HasCause DiskFault.Failed (faults self.old) (faults self.new) result };

    /// Settles a file: from now on, until it is changed again, a crash leaves it as it reads.
    ///
    /// `Failed`: the device failed. Nothing is settled then, nor after `Memory`.
    fn sync(&mut self, file: u32) -> Result<(), DiskFault>
        requires mounted { IsTrue (mounted self.old) }
        requires file { IsFile (file_count self.old) file }
        ensures settled { tells → OnOk result (IsSettled (view self.new) file) }
        ensures mounted { IsTrue (mounted self.new) }
        ensures folders { folders self.new ≡ folders self.old }
        ensures count { file_count self.new ≡ file_count self.old }
        ensures same { tells → SameFiles (view self.old).seen (view self.new).seen }
        ensures after { tells → Passes SameFiles (view self.old) (view self.new) }
        ensures cause { HasCause DiskFault.Failed (faults self.old) (faults self.new) result };

    /// As it reads is one of the images that a crash may leave.
    ghost sound: { (disk : Self) → tells → IsView (view disk) };
}
