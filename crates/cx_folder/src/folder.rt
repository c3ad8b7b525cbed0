//! What a host's folders do with files.
ghost use Rattle.std.specs.Prelude.{◌≡◌, ◌≢◌, ◌≤◌, ◌+◌, ℕ, Bool, true, false, is_some, length, slice_range, IsTrue, OnOk, OnErr, IfOk, IfErr, IfSome};
ghost use Rattle.cx_disk.specs.Cause.{HasCause};
ghost use Rattle.cx_disk.specs.Disk.{Holds, Torn, Front, CutShort};
ghost use Rattle.cx_folder.specs.Names.{Path, IsIn};
ghost use Rattle.cx_folder.specs.Tree.{TreeView, IsTreeView, Makes, ChangesBytes, Passes, ReadsOn, OthersTended, AllTended, IsOpened, IsChanged, IsSettled, IsEntered, OthersDoubted, bytes_in};
ghost use Rattle.cx_folder.specs.declared.care.Care.TheVariants.{Doubtful};
ghost use Rattle.cx_disk.specs.declared.disk.DiskFault.TheVariants.{Failed};

use cx_disk::DiskFault;

/// The folders of a host, with the files in them, by path. A file that isn't there reads as empty.
///
/// They count their failures, and tell `Failed` only where that count rises. A call that fails may have been stopped
/// anywhere. What a crash may leave is a set of images. Until a file is synced, each change of it may be left undone in
/// part; until its folder is synced, a file that was made may be gone with all that was written to it.
pub trait Folder {
    /// A file that is open.
    type File: Drop;

    /// They tell what their files hold. Of those that don't, nothing is said of bytes and images.
    ghost tells: { Type 0 };

    /// How the files read, and what a crash may leave of them.
    ghost view: { Self → TreeView };

    /// This run has the lock on a folder.
    ghost holds: { Self → Path → Type 0 };

    /// The path of an open file.
    ghost path_of: { Self.File → Path };

    /// How often they have failed, up to the last value of 64 bits.
    ghost faults: { Self → ℕ };

    /// Takes the lock on a folder, as long as they live. To take it again changes nothing. A folder that is missing is
    /// made and locked with the first file that is made in it. A run that died leaves no lock.
    ///
    /// `Failed`: the device failed, or another run has the lock.
    fn hold(&mut self, folder: &str) -> Result<(), DiskFault>
        ensures held { OnOk result (holds self.new folder.now) }
        ensures still_held { (other : Path) → holds self.old other → holds self.new other }
        ensures reads_on { tells → ReadsOn (view self.old) (view self.new) }
        ensures tended { tells → AllTended (view self.old) (view self.new) }
        ensures cause { HasCause Failed (faults self.old) (faults self.new) result };

    /// The length of a file in bytes.
    ///
    /// `Failed`: the device failed.
    fn length(&mut self, folder: &str, path: &str) -> Result<u64, DiskFault>
        requires held { holds self.old folder.now }
        requires within { IsIn folder.now path.now }
        ensures length { tells → IfOk result
            (λ count. count ≡ length (bytes_in (view self.old).seen path.now)) }
        ensures still_held { (other : Path) → holds self.old other → holds self.new other }
        ensures reads_on { tells → ReadsOn (view self.old) (view self.new) }
        ensures tended { tells → AllTended (view self.old) (view self.new) }
        ensures cause { HasCause Failed (faults self.old) (faults self.new) result }
        ensures takes_no_memory { IfErr result (λ fault. fault ≡ Failed) };

    /// Reads as many bytes as `into` holds, from the offset `at` on. The range lies within the file.
    ///
    /// `Failed`: the device failed, or they tell nothing and the range isn't there. What `into` holds is then left
    /// open.
    fn read(&mut self, folder: &str, path: &str, at: u64, into: &mut [u8]) -> Result<(), DiskFault>
        requires held { holds self.old folder.now }
        requires within { IsIn folder.now path.now }
        requires range { tells →
            at + length into.old ≤ length (bytes_in (view self.old).seen path.now) }
        ensures read { tells → OnOk result (into.new ≡ slice_range
            (bytes_in (view self.old).seen path.now) at (at + length into.old)) }
        ensures still_held { (other : Path) → holds self.old other → holds self.new other }
        ensures reads_on { tells → ReadsOn (view self.old) (view self.new) }
        ensures tended { tells → AllTended (view self.old) (view self.new) }
        ensures cause { HasCause Failed (faults self.old) (faults self.new) result }
        ensures takes_no_memory { IfErr result (λ fault. fault ≡ Failed) };

    /// Opens a file that is to be changed, if it is there.
    ///
    /// `Failed`: the device failed.
    fn open(&mut self, folder: &str, path: &str) -> Result<Option<Self::File>, DiskFault>
        requires held { holds self.old folder.now }
        requires within { IsIn folder.now path.now }
        ensures found { tells → IfOk result
            (λ found. IfSome found (λ file. path_of file ≡ path.now)) }
        ensures there { tells → IfOk result
            (λ found. is_some found ≡ ((view self.old).seen path.now).is_there) }
        ensures still_held { (other : Path) → holds self.old other → holds self.new other }
        ensures reads_on { tells → ReadsOn (view self.old) (view self.new) }
        ensures opened { tells → IsOpened path.now (view self.old) (view self.new) }
        ensures cause { HasCause Failed (faults self.old) (faults self.new) result };

    /// Opens a file, and makes it where it is missing, with its folder and those above it.
    ///
    /// `Failed`: the device failed, or another run has made the folder. The file may be there then, empty. So it may
    /// after `Memory`.
    fn make(&mut self, folder: &str, path: &str) -> Result<Self::File, DiskFault>
        requires held { holds self.old folder.now }
        requires within { IsIn folder.now path.now }
        ensures made { tells → IfOk result (λ file. path_of file ≡ path.now) }
        ensures there { tells → OnOk result (((view self.new).seen path.now).is_there ≡ true) }
        ensures makes { tells → Makes path.now (view self.old).seen (view self.new).seen }
        ensures after { tells → Passes (Makes path.now) (view self.old) (view self.new) }
        ensures still_held { (other : Path) → holds self.old other → holds self.new other }
        ensures opened { tells → IsOpened path.now (view self.old) (view self.new) }
        ensures cause { HasCause Failed (faults self.old) (faults self.new) result };

    /// Writes bytes from the offset `at` on, over what is there and past the end. The offset isn't past the end.
    ///
    /// `Failed`: the device failed, or they tell nothing and the offset is past the end. The file then reads as the
    /// write may be left. So it may after `Memory`.
    fn write(&mut self, file: &Self::File, at: u64, bytes: &[u8]) -> Result<(), DiskFault>
        requires start { tells →
            at ≤ length ((view self.old).seen (path_of file.now)).bytes }
        ensures written { tells → OnOk result (ChangesBytes (Holds at bytes.now)
            (path_of file.now) (view self.old).seen (view self.new).seen) }
        ensures stopped { tells → OnErr result (ChangesBytes (Torn at (length bytes.now))
            (path_of file.now) (view self.old).seen (view self.new).seen) }
        ensures after { tells → Passes (ChangesBytes (Torn at (length bytes.now))
            (path_of file.now)) (view self.old) (view self.new) }
        ensures still_held { (other : Path) → holds self.old other → holds self.new other }
        ensures changed { tells → IsChanged (path_of file.now) (view self.old) (view self.new) }
        ensures cause { HasCause Failed (faults self.old) (faults self.new) result };

    /// Cuts a file to its first `to` bytes, of which it has at least so many.
    ///
    /// `Failed`: the device failed, or they tell nothing and the file is shorter. The file then reads as the cut may be
    /// left. So it may after `Memory`.
    fn cut(&mut self, file: &Self::File, to: u64) -> Result<(), DiskFault>
        requires within { tells →
            to ≤ length ((view self.old).seen (path_of file.now)).bytes }
        ensures cut { tells → OnOk result (ChangesBytes (Front to)
            (path_of file.now) (view self.old).seen (view self.new).seen) }
        ensures stopped { tells → OnErr result (ChangesBytes (CutShort to)
            (path_of file.now) (view self.old).seen (view self.new).seen) }
        ensures after { tells → Passes (ChangesBytes (CutShort to) (path_of file.now))
            (view self.old) (view self.new) }
        ensures still_held { (other : Path) → holds self.old other → holds self.new other }
        ensures changed { tells → IsChanged (path_of file.now) (view self.old) (view self.new) }
        ensures cause { HasCause Failed (faults self.old) (faults self.new) result };

    /// Settles the bytes of a file, if a sync of it is worth trusting. Its entry is settled by a sync of its folder.
    ///
    /// `Failed`: the device failed. No later sync of the file is worth trusting.
    fn sync(&mut self, file: &Self::File) -> Result<(), DiskFault>
        ensures settled { tells → OnOk result
            ((view self.old).care (path_of file.now) ≢ Doubtful
            → IsSettled (path_of file.now) (view self.new)) }
        ensures still_held { (other : Path) → holds self.old other → holds self.new other }
        ensures reads_on { tells → ReadsOn (view self.old) (view self.new) }
        ensures others { tells →
            OthersTended (path_of file.now) (view self.old) (view self.new) }
        ensures cause { HasCause Failed (faults self.old) (faults self.new) result };

    /// Settles the entries of a folder, if no sync of it has failed.
    ///
    /// `Failed`: the device failed. No later sync of the folder is worth trusting.
    fn sync_folder(&mut self, folder: &str) -> Result<(), DiskFault>
        requires held { holds self.old folder.now }
        ensures settled { tells → OnOk result ((view self.old).doubted folder.now ≡ false
            → IsEntered folder.now (view self.new)
            × ((view self.new).doubted folder.now ≡ false)) }
        ensures still_held { (other : Path) → holds self.old other → holds self.new other }
        ensures reads_on { tells → ReadsOn (view self.old) (view self.new) }
        ensures others { tells → OthersDoubted folder.now (view self.old) (view self.new) }
        ensures cause { HasCause Failed (faults self.old) (faults self.new) result };

    /// As they read is one of the images that a crash may leave.
    ghost sound: { (folder : Self) → tells → IsTreeView (view folder) };
}
