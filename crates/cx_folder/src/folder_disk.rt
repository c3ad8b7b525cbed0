//! A disk over two folders.
ghost use Rattle.std.specs.Prelude.{◌≡◌, ◌≤◌, ◌+◌, true, false, length, slice_range, IsTrue, OnOk, OnErr, IfOk, IfErr, IsErrOf};
ghost use Rattle.cx_disk.specs.Cause.{HasCause};
ghost use Rattle.cx_disk.specs.Disk.{files_in, no_folders, IsNamed, SameFiles, Passes};
ghost use Rattle.cx_disk.specs.Files.{IsFile};
ghost use Rattle.cx_folder.specs.Kept.{AreHeld};
ghost use Rattle.cx_folder.specs.Names.{folders_named, HavePlaces};
ghost use Rattle.cx_folder.specs.Placed.{seen_on, disk_view, CanMount, FailsAsFolders};
ghost use Rattle.cx_folder.specs.Tree.{IsFresh};
ghost use Rattle.cx_folder.specs.Pulled.{pulled, Stays};
ghost use Rattle.cx_folder.specs.PulledLaws.{pulled_sound};
ghost use Rattle.cx_disk.specs.declared.disk.DiskFault.TheVariants.{Failed};

use crate::Folder;
use crate::kept::{Entries, Kept, all_shut};
use crate::names::Places;
use cx_disk::{Disk, DiskFault};
use cx_text::{List, Text};
use std::alloc::Global;
use std::marker::Model;

/// Two folders of a host as a disk. The folder of the checkpoints has the slots, `checkpoint.chkpt.0` to
/// `checkpoint.chkpt.7`. The folder of the outputs has `output.asc`, a file for each name that `mount` is given, the
/// chunks `chunk.0.asc` to `chunk.511.asc`, and `recombined.asc`. An empty name of a folder means the current folder.
///
/// `mount` takes the locks of both folders as long as the disk lives. Names that aren't text, or that give two files
/// one path, are a failure, as are a second mount, one on other folders than those that it was made for, and a range
/// that isn't there. Only `write_at` makes a file, and a folder that is missing with it.
///
/// A file is open from its first write to the sync after its last. With the first sync after a file was made the
/// entries of both folders are synced too. Once a sync of a file has failed, each later change and sync of it fails;
/// once one of the folders has failed, each later sync. It tells what its files hold if its folders tell what theirs
/// do.
#[derive(Drop)]
pub struct FolderDisk<F: Folder + Drop> {
    kept: Kept<F>,
    alloc: Global,
    places: Option<Places>,
    mounted: bool,
    faults: u64,
}

impl<F: Folder + Drop> Model for FolderDisk<F> {
    ghost use Rattle.std.specs.Prelude.{is_some};
    ghost use Rattle.cx_folder.specs.Placed.{Placed, placed_code, folders_of, IsPlaced};

    ghost Value = { Placed F };

    ghost coded = { placed_code F.code };

    ghost view = { λ disk. record {
      folder = disk.kept.folder;
      mounted = disk.mounted;
      known = is_some disk.places;
      folders = folders_of disk.places;
      faults = disk.faults;
    } };

    ghost invariant = { λ disk. IsPlaced F.tells F.holds F.path_of F.view disk.kept.folder
        disk.kept.files.items disk.kept.entries disk.places disk.mounted };
}

/// What a call gave, with a failure counted.
fn counted<T>(faults: &mut u64, done: Result<T, DiskFault>) -> Result<T, DiskFault>
    ensures same { result ≡ done }
    ensures cause { HasCause Failed faults.old faults.new result }
{
    if let Err(DiskFault::Failed) = done {
        *faults = faults.saturating_add(1);
    }
    done
}

impl<F: Folder + Drop> FolderDisk<F> {
    /// A disk over folders that tell nothing, which isn't mounted and hasn't failed. It has the folders of its first
    /// `mount`.
    pub fn new(folder: F, alloc: Global) -> Self
        requires untold { F.tells → ⊥ }
        ensures { result ≡ record {
          folder = folder;
          mounted = false;
          known = false;
          folders = no_folders;
          faults = 0;
        } }
    {
        FolderDisk {
            kept: Kept {
                folder,
                files: Vec::new(alloc),
                entries: Entries::Made,
            },
            alloc,
            places: None,
            mounted: false,
            faults: 0,
        }
    }

    /// A disk that is to be mounted on these folders and no others, and hasn't failed. Of folders that tell nothing may
    /// be outstanding.
    ///
    /// `Failed`: a name isn't text, or two files would have one path. Nothing else is refused, but memory may run out.
    pub fn on(
        folder: F,
        alloc: Global,
        output: &Text,
        names: &List<Text>,
        checkpoints: &Text,
    ) -> Result<Self, DiskFault>
        requires fresh { F.tells → IsFresh (F.view folder) }
        ensures made { IfOk result (λ disk. disk ≡ record {
          folder = folder;
          mounted = false;
          known = true;
          folders = folders_named output.now names.now checkpoints.now;
          faults = 0;
        }) }
        ensures fit { OnOk result
            (HavePlaces (folders_named output.now names.now checkpoints.now)) }
        ensures refused { IsErrOf result Failed
            → HavePlaces (folders_named output.now names.now checkpoints.now) → ⊥ }
    {
        let places = Places::new(alloc, output, names, checkpoints)?;
        let files = all_shut(alloc, places.count())?;
        Ok(FolderDisk {
            kept: Kept {
                folder,
                files,
                entries: Entries::Made,
            },
            alloc,
            places: Some(places),
            mounted: false,
            faults: 0,
        })
    }

    /// The folders within, with the locks that they have.
    pub fn into_inner(self) -> F
        ensures { result ≡ self.folder }
    {
        self.kept.folder
    }

    /// The mount of folders that tell nothing.
    fn mount_first(
        &mut self,
        output: &Text,
        names: &List<Text>,
        checkpoints: &Text,
    ) -> Result<(), DiskFault>
        requires untold { F.tells → ⊥ }
        requires first { self.old.mounted ≡ false }
        ensures mounted { OnOk result (IsTrue self.new.mounted) }
        ensures named { OnOk result
            (IsNamed output.now names.now checkpoints.now self.new.folders) }
        ensures unnamed { OnErr result (self.new.folders ≡ self.old.folders) }
        ensures faults { self.new.faults ≡ self.old.faults }
        ensures held { OnOk result (AreHeld (F.holds self.new.folder) self.new.folders) }
        ensures fails { HavePlaces (folders_named output.now names.now checkpoints.now)
            → FailsAsFolders F.Folder self.old self.new result }
    {
        let places = Places::new(self.alloc, output, names, checkpoints)?;
        let files = all_shut(self.alloc, places.count())?;
        self.kept.hold(&places)?;
        self.kept.files = files;
        self.places = Some(places);
        self.mounted = true;
        Ok(())
    }

    /// A mount on the folders that are known, and on no others.
    fn mount_known(
        &mut self,
        output: &Text,
        names: &List<Text>,
        checkpoints: &Text,
    ) -> Result<(), DiskFault>
        requires first { self.old.mounted ≡ false }
        requires known { self.old.known ≡ true }
        ensures mounted { OnOk result (IsTrue self.new.mounted) }
        ensures named { OnOk result
            (IsNamed output.now names.now checkpoints.now self.new.folders) }
        ensures same { self.new.folders ≡ self.old.folders }
        ensures stays { F.tells → Stays self.old.folders
            (F.view self.old.folder) (F.view self.new.folder) }
        ensures faults { self.new.faults ≡ self.old.faults }
        ensures held { OnOk result (AreHeld (F.holds self.new.folder) self.new.folders) }
        ensures fails { IsNamed output.now names.now checkpoints.now self.old.folders
            → FailsAsFolders F.Folder self.old self.new result }
    {
        match &self.places {
            Some(places) => {
                if !places.are(output, names, checkpoints) {
                    return Err(DiskFault::Failed);
                }
                self.kept.hold(places)?;
                self.mounted = true;
                Ok(())
            }
            None => Err(DiskFault::Failed),
        }
    }

    /// A mount, of which no failure is counted. Another one after it is a failure.
    fn mount_once(
        &mut self,
        output: &Text,
        names: &List<Text>,
        checkpoints: &Text,
    ) -> Result<(), DiskFault>
        ensures mounted { OnOk result (IsTrue self.new.mounted) }
        ensures stays { IsTrue self.old.mounted → IsTrue self.new.mounted }
        ensures named { OnOk result
            (IsNamed output.now names.now checkpoints.now self.new.folders) }
        ensures unnamed { OnErr result (self.new.folders ≡ self.old.folders) }
        ensures same { F.tells → self.new.folders ≡ self.old.folders }
        ensures alike { F.tells → Stays self.old.folders
            (F.view self.old.folder) (F.view self.new.folder) }
        ensures faults { self.new.faults ≡ self.old.faults }
        ensures held { OnOk result (AreHeld (F.holds self.new.folder) self.new.folders) }
        ensures fails { CanMount (folders_named output.now names.now checkpoints.now) self.old
            → FailsAsFolders F.Folder self.old self.new result }
    {
        if self.mounted {
            return Err(DiskFault::Failed);
        }
        if self.places.is_some() {
            self.mount_known(output, names, checkpoints)
        } else {
            self.mount_first(output, names, checkpoints)
        }
    }
}

impl<F: Folder + Drop> Disk for FolderDisk<F> {
    ghost tells = { F.tells };

    ghost mounted = { λ disk. disk.mounted };

    ghost folders = { λ disk. disk.folders };

    ghost file_count = { λ disk. files_in disk.folders };

    ghost view = { λ disk. pulled disk.folders (F.view disk.folder) };

    ghost faults = { λ disk. disk.faults };

    ghost sound = { λ disk tells. pulled_sound disk.folders (F.view disk.folder)
        (F.sound disk.folder tells) };

    fn mount(
        &mut self,
        output: &Text,
        names: &List<Text>,
        checkpoints: &Text,
    ) -> Result<(), DiskFault>
        ensures mounted { OnOk result (IsTrue self.new.mounted) }
        ensures stays { IsTrue self.old.mounted → IsTrue self.new.mounted }
        ensures named { OnOk result
            (IsNamed output.now names.now checkpoints.now self.new.folders) }
        ensures unnamed { OnErr result (self.new.folders ≡ self.old.folders) }
        ensures same { F.tells → SameFiles (seen_on F.Folder self.old) (seen_on F.Folder self.new) }
        ensures after { F.tells → Passes SameFiles
            (disk_view F.Folder self.old) (disk_view F.Folder self.new) }
        ensures cause { HasCause DiskFault.Failed self.old.faults self.new.faults result }
        ensures held { OnOk result (AreHeld (F.holds self.new.folder) self.new.folders) }
        ensures fails { CanMount (folders_named output.now names.now checkpoints.now) self.old
            → FailsAsFolders F.Folder self.old self.new result }
    {
        let done = self.mount_once(output, names, checkpoints);
        counted(&mut self.faults, done)
    }

    fn length(&mut self, file: u32) -> Result<u64, DiskFault>
        requires mounted { IsTrue self.old.mounted }
        requires file { IsFile (files_in self.old.folders) file }
        ensures length { F.tells → IfOk result
            (λ count. count ≡ length (seen_on F.Folder self.old file)) }
        ensures mounted { IsTrue self.new.mounted }
        ensures folders { self.new.folders ≡ self.old.folders }
        ensures same { F.tells → SameFiles (seen_on F.Folder self.old) (seen_on F.Folder self.new) }
        ensures after { F.tells → Passes SameFiles
            (disk_view F.Folder self.old) (disk_view F.Folder self.new) }
        ensures cause { HasCause DiskFault.Failed self.old.faults self.new.faults result }
        ensures takes_no_memory { IfErr result (λ fault. fault ≡ DiskFault.Failed) }
        ensures fails { FailsAsFolders F.Folder self.old self.new result }
    {
        match &self.places {
            Some(places) => {
                let done = self.kept.length(places, file);
                counted(&mut self.faults, done)
            }
            None => unreachable!(),
        }
    }

    fn read(&mut self, file: u32, at: u64, into: &mut [u8]) -> Result<(), DiskFault>
        requires mounted { IsTrue self.old.mounted }
        requires file { IsFile (files_in self.old.folders) file }
        requires range { F.tells → at + length into.old
            ≤ length (seen_on F.Folder self.old file) }
        ensures read { F.tells → OnOk result (into.new
            ≡ slice_range (seen_on F.Folder self.old file) at (at + length into.old)) }
        ensures mounted { IsTrue self.new.mounted }
        ensures folders { self.new.folders ≡ self.old.folders }
        ensures same { F.tells → SameFiles (seen_on F.Folder self.old) (seen_on F.Folder self.new) }
        ensures after { F.tells → Passes SameFiles
            (disk_view F.Folder self.old) (disk_view F.Folder self.new) }
        ensures cause { HasCause DiskFault.Failed self.old.faults self.new.faults result }
        ensures takes_no_memory { IfErr result (λ fault. fault ≡ DiskFault.Failed) }
        ensures fails { FailsAsFolders F.Folder self.old self.new result }
    {
        match &self.places {
            Some(places) => {
                let done = self.kept.read(places, file, at, into);
                counted(&mut self.faults, done)
            }
            None => unreachable!(),
        }
    }

    fn write_at(&mut self, file: u32, at: u64, bytes: &[u8]) -> Result<(), DiskFault> {
        match &self.places {
            Some(places) => {
                let done = self.kept.write(places, file, at, bytes);
                counted(&mut self.faults, done)
            }
            None => unreachable!(),
        }
    }

    fn cut(&mut self, file: u32, to: u64) -> Result<(), DiskFault> {
        match &self.places {
            Some(places) => {
                let done = self.kept.cut(places, file, to);
                counted(&mut self.faults, done)
            }
            None => unreachable!(),
        }
    }

    fn sync(&mut self, file: u32) -> Result<(), DiskFault> {
        match &self.places {
            Some(places) => {
                let done = self.kept.sync(places, file);
                counted(&mut self.faults, done)
            }
            None => unreachable!(),
        }
    }
}
