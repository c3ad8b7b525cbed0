//! Folders with the files that are kept open in them.
ghost use Rattle.std.specs.Prelude.{ℕ, false, ◌≡◌, ◌≢◌, ◌≤◌, ◌<◌, ◌+◌, length, slice_range, slice_index_or, vec_len, set, OnOk, OnErr, IfOk, IfErr, Err};
ghost use Rattle.cx_disk.specs.Disk.{files_in, IsSettled};
ghost use Rattle.cx_disk.specs.Files.{IsFile};
ghost use Rattle.cx_folder.specs.Names.{Path, paths_in, path_at, place_of};
ghost use Rattle.cx_folder.specs.Tree.{ReadsOn};
ghost use Rattle.cx_folder.specs.Pulled.{pulled, files_of};
ghost use Rattle.cx_folder.specs.Calls.{HasReady, HasUpTo, KeepsBytes, Writes, Cuts, FailsAs};
ghost use Rattle.cx_folder.specs.Kept.{AreHeld, IsShut};
ghost use Rattle.cx_folder.specs.Tended.{IsTended, AreEntered, HasBytes, HasSettled};
ghost use Rattle.cx_folder.specs.declared.kept.Hold.TheVariants.{Shut, Lost};
ghost use Rattle.cx_folder.specs.declared.kept.Entries.TheVariants.{Settled, Made, Doubted};
ghost use Rattle.cx_disk.specs.declared.disk.DiskFault.TheVariants.{Failed};

use crate::Folder;
use crate::names::Places;
use cx_disk::DiskFault;
use std::alloc::{AllocError, Global};

/// What is kept of a file.
#[derive(Drop)]
pub(crate) enum Hold<T> {
    /// Nothing is outstanding of it.
    Shut,
    /// It was changed since its last sync, and is open from before that.
    Open(T),
    /// A sync of it failed.
    Lost,
}

/// What is outstanding of the entries of both folders.
#[derive(Clone, Copy)]
pub(crate) enum Entries {
    /// Nothing.
    Settled,
    /// A file may have been made since they were synced.
    Made,
    /// A sync of them failed.
    Doubted,
}

/// Folders with what is kept of each file.
#[derive(Drop)]
pub(crate) struct Kept<F: Folder + Drop> {
    pub(crate) folder: F,
    pub(crate) files: Vec<Hold<F::File>>,
    pub(crate) entries: Entries,
}

/// What is kept of so many files that are shut.
pub(crate) fn all_shut<T: Drop>(alloc: Global, count: usize) -> Result<Vec<Hold<T>>, AllocError>
    ensures as_many { IfOk result (λ files. vec_len files ≡ count) }
    ensures shut { IfOk result (λ files. (k : ℕ) → k < count
        → slice_index_or files.items k Lost ≡ Shut) }
{
    let mut files = Vec::new(alloc);
    'files: for _ in 0..count {
        files.push(Hold::Shut)?;
    }
    Ok(files)
}

/// What is kept of the file at a place.
fn hold_at<T>(files: &Vec<Hold<T>>, place: usize) -> &Hold<T>
    requires { place < vec_len files.now }
    ensures { result.now ≡ slice_index_or files.now.items place Lost }
{
    &files[place]
}

/// Keeps this of the file at a place.
fn set_hold<T: Drop>(files: &mut Vec<Hold<T>>, place: usize, hold: Hold<T>)
    requires { place < vec_len files.old }
    ensures { files.new.items ≡ set files.old.items place hold }
{
    files[place] = hold;
}

/// What is kept of a file after a sync of it.
fn held_after<T>(done: &Result<(), DiskFault>) -> Hold<T>
    ensures shut { OnOk done.now (result ≡ Shut) }
    ensures lost { OnErr done.now (result ≡ Lost) }
{
    match done {
        Ok(()) => Hold::Shut,
        Err(_) => Hold::Lost,
    }
}

impl Entries {
    /// What is outstanding once a file may have been made.
    fn made(self) -> Entries
        ensures outstanding { result ≢ Settled }
        ensures settled { self ≡ Settled → result ≡ Made }
        ensures made { self ≡ Made → result ≡ Made }
        ensures doubted { self ≡ Doubted → result ≡ Doubted }
    {
        match self {
            Entries::Settled | Entries::Made => Entries::Made,
            Entries::Doubted => Entries::Doubted,
        }
    }
}

impl<F: Folder + Drop> Kept<F> {
    /// Takes the locks of both folders.
    pub(crate) fn hold(&mut self, places: &Places) -> Result<(), DiskFault>
        requires tended { F.tells → IsTended F.path_of (F.view self.old.folder) places.now
            self.old.files.items self.old.entries }
        ensures tended { F.tells → IsTended F.path_of (F.view self.new.folder) places.now
            self.new.files.items self.new.entries }
        ensures held { OnOk result (AreHeld (F.holds self.new.folder) places.now) }
        ensures still_held { (other : Path) → F.holds self.old.folder other
            → F.holds self.new.folder other }
        ensures files { self.new.files ≡ self.old.files }
        ensures stays { KeepsBytes F.Folder places.now self.old self.new }
        ensures cause { FailsAs F.Folder self.old self.new result }
    {
        self.folder.hold(places.output_folder())?;
        self.folder.hold(places.checkpoint_folder())
    }

    /// The length of a file.
    pub(crate) fn length(&mut self, places: &Places, file: u32) -> Result<u64, DiskFault>
        requires file { IsFile (files_in places.now) file }
        requires ready { HasReady F.Folder places.now self.old }
        ensures ready { HasReady F.Folder places.now self.new }
        ensures stays { KeepsBytes F.Folder places.now self.old self.new }
        ensures length { F.tells → IfOk result (λ count. count
            ≡ length (files_of places.now (F.view self.old.folder).seen file)) }
        ensures takes_no_memory { IfErr result (λ fault. fault ≡ Failed) }
        ensures cause { FailsAs F.Folder self.old self.new result }
    {
        self.folder.length(places.folder(file), places.path(file))
    }

    /// Reads a range of a file.
    pub(crate) fn read(
        &mut self,
        places: &Places,
        file: u32,
        at: u64,
        into: &mut [u8],
    ) -> Result<(), DiskFault>
        requires file { IsFile (files_in places.now) file }
        requires ready { HasReady F.Folder places.now self.old }
        requires range { HasUpTo F.Folder (at + length into.old) places.now file self.old }
        ensures ready { HasReady F.Folder places.now self.new }
        ensures stays { KeepsBytes F.Folder places.now self.old self.new }
        ensures read { F.tells → OnOk result (into.new ≡ slice_range
            (files_of places.now (F.view self.old.folder).seen file) at (at + length into.old)) }
        ensures takes_no_memory { IfErr result (λ fault. fault ≡ Failed) }
        ensures cause { FailsAs F.Folder self.old self.new result }
    {
        self.folder
            .read(places.folder(file), places.path(file), at, into)
    }

    /// Has a file open that is shut, if it is there.
    fn open_shut(&mut self, places: &Places, file: u32) -> Result<bool, DiskFault>
        requires file { IsFile (files_in places.now) file }
        requires shut { IsShut self.old.files.items places.now file }
        requires ready { HasReady F.Folder places.now self.old }
        ensures ready { HasReady F.Folder places.now self.new }
        ensures stays { KeepsBytes F.Folder places.now self.old self.new }
        ensures missing { IfOk result (λ there. there ≡ false
            → IsShut self.new.files.items places.now file) }
        ensures absent { F.tells → IfOk result (λ there. there ≡ false
            → ((F.view self.new.folder).seen (path_at places.now file)).is_there ≡ false) }
    {
        match self.folder.open(places.folder(file), places.path(file))? {
            Some(open) => {
                set_hold(&mut self.files, places.place(file), Hold::Open(open));
                Ok(true)
            }
            None => Ok(false),
        }
    }

    /// Has a file open that is to be changed, if it is there. One of which a sync failed is a failure.
    fn open(&mut self, places: &Places, file: u32) -> Result<bool, DiskFault>
        requires file { IsFile (files_in places.now) file }
        requires ready { HasReady F.Folder places.now self.old }
        ensures ready { HasReady F.Folder places.now self.new }
        ensures stays { KeepsBytes F.Folder places.now self.old self.new }
        ensures lost { slice_index_or self.old.files.items
            (place_of (files_in places.now) file) Lost ≡ Lost → result ≡ Err Failed }
        ensures missing { IfOk result (λ there. there ≡ false
            → IsShut self.new.files.items places.now file) }
        ensures absent { F.tells → IfOk result (λ there. there ≡ false
            → ((F.view self.new.folder).seen (path_at places.now file)).is_there ≡ false) }
    {
        match hold_at(&self.files, places.place(file)) {
            Hold::Open(_) => Ok(true),
            Hold::Lost => Err(DiskFault::Failed),
            Hold::Shut => self.open_shut(places, file),
        }
    }

    /// Makes a file and has it open. The entries of both folders are outstanding then.
    fn make(&mut self, places: &Places, file: u32) -> Result<(), DiskFault>
        requires file { IsFile (files_in places.now) file }
        requires shut { IsShut self.old.files.items places.now file }
        requires ready { HasReady F.Folder places.now self.old }
        ensures ready { HasReady F.Folder places.now self.new }
        ensures stays { KeepsBytes F.Folder places.now self.old self.new }
        ensures outstanding { self.new.entries ≢ Settled }
    {
        self.entries = self.entries.made();
        let open = self.folder.make(places.folder(file), places.path(file))?;
        set_hold(&mut self.files, places.place(file), Hold::Open(open));
        Ok(())
    }

    /// Has a file open that is to be written, which is made where it is missing.
    fn open_or_make(&mut self, places: &Places, file: u32) -> Result<(), DiskFault>
        requires file { IsFile (files_in places.now) file }
        requires ready { HasReady F.Folder places.now self.old }
        ensures ready { HasReady F.Folder places.now self.new }
        ensures stays { KeepsBytes F.Folder places.now self.old self.new }
    {
        if self.open(places, file)? {
            Ok(())
        } else {
            self.make(places, file)
        }
    }

    /// Writes to a file that is open. One that isn't is a failure.
    fn write_open(
        &mut self,
        places: &Places,
        file: u32,
        at: u64,
        bytes: &[u8],
    ) -> Result<(), DiskFault>
        requires file { IsFile (files_in places.now) file }
        requires ready { HasReady F.Folder places.now self.old }
        requires start { HasUpTo F.Folder at places.now file self.old }
        ensures ready { HasReady F.Folder places.now self.new }
        ensures alters { Writes F.Folder at bytes.now places.now file result
            self.old self.new }
    {
        match hold_at(&self.files, places.place(file)) {
            Hold::Open(open) => self.folder.write(open, at, bytes),
            Hold::Shut | Hold::Lost => Err(DiskFault::Failed),
        }
    }

    /// Writes to a file, which is made where it is missing.
    pub(crate) fn write(
        &mut self,
        places: &Places,
        file: u32,
        at: u64,
        bytes: &[u8],
    ) -> Result<(), DiskFault>
        requires file { IsFile (files_in places.now) file }
        requires ready { HasReady F.Folder places.now self.old }
        requires start { HasUpTo F.Folder at places.now file self.old }
        ensures ready { HasReady F.Folder places.now self.new }
        ensures alters { Writes F.Folder at bytes.now places.now file result
            self.old self.new }
    {
        self.open_or_make(places, file)?;
        self.write_open(places, file, at, bytes)
    }

    /// Cuts a file that is open. One that isn't is a failure.
    fn cut_open(&mut self, places: &Places, file: u32, to: u64) -> Result<(), DiskFault>
        requires file { IsFile (files_in places.now) file }
        requires ready { HasReady F.Folder places.now self.old }
        requires within { HasUpTo F.Folder to places.now file self.old }
        ensures ready { HasReady F.Folder places.now self.new }
        ensures alters { Cuts F.Folder to places.now file result self.old self.new }
    {
        match hold_at(&self.files, places.place(file)) {
            Hold::Open(open) => self.folder.cut(open, to),
            Hold::Shut | Hold::Lost => Err(DiskFault::Failed),
        }
    }

    /// Cuts a file. One that isn't there has nothing to cut.
    pub(crate) fn cut(&mut self, places: &Places, file: u32, to: u64) -> Result<(), DiskFault>
        requires file { IsFile (files_in places.now) file }
        requires ready { HasReady F.Folder places.now self.old }
        requires within { HasUpTo F.Folder to places.now file self.old }
        ensures ready { HasReady F.Folder places.now self.new }
        ensures alters { Cuts F.Folder to places.now file result self.old self.new }
    {
        if self.open(places, file)? {
            self.cut_open(places, file, to)
        } else if to == 0 {
            Ok(())
        } else {
            Err(DiskFault::Failed)
        }
    }

    /// Settles the bytes of a file that is open, and shuts it, or loses it. One that isn't open is a failure.
    fn sync_open(&mut self, places: &Places, file: u32) -> Result<(), DiskFault>
        requires file { IsFile (files_in places.now) file }
        requires ready { HasReady F.Folder places.now self.old }
        ensures ready { HasReady F.Folder places.now self.new }
        ensures stays { KeepsBytes F.Folder places.now self.old self.new }
        ensures bytes { F.tells → OnOk result (HasBytes (path_at places.now file)
            (F.view self.new.folder)) }
        ensures shut { OnOk result (IsShut self.new.files.items places.now file) }
    {
        match hold_at(&self.files, places.place(file)) {
            Hold::Open(open) => {
                let done = self.folder.sync(open);
                set_hold(&mut self.files, places.place(file), held_after(&done));
                done
            }
            Hold::Shut | Hold::Lost => Err(DiskFault::Failed),
        }
    }

    /// Settles the bytes of a file. One that isn't there has none.
    fn sync_bytes(&mut self, places: &Places, file: u32) -> Result<(), DiskFault>
        requires file { IsFile (files_in places.now) file }
        requires ready { HasReady F.Folder places.now self.old }
        ensures ready { HasReady F.Folder places.now self.new }
        ensures stays { KeepsBytes F.Folder places.now self.old self.new }
        ensures bytes { F.tells → OnOk result (HasSettled (path_at places.now file)
            (F.view self.new.folder)) }
        ensures shut { OnOk result (IsShut self.new.files.items places.now file) }
    {
        if self.open(places, file)? {
            self.sync_open(places, file)
        } else {
            Ok(())
        }
    }

    /// Settles the entries of both folders, one after the other. Until both are synced they are in doubt.
    fn sync_made(&mut self, places: &Places) -> Result<(), DiskFault>
        requires made { self.old.entries ≡ Made }
        requires ready { HasReady F.Folder places.now self.old }
        ensures ready { HasReady F.Folder places.now self.new }
        ensures reads_on { F.tells → ReadsOn (F.view self.old.folder) (F.view self.new.folder) }
        ensures entered { F.tells → OnOk result (AreEntered (F.view self.new.folder)
            places.now Settled) }
        ensures settled { OnOk result (self.new.entries ≡ Settled) }
        ensures doubted { OnErr result (self.new.entries ≡ Doubted) }
        ensures files { self.new.files ≡ self.old.files }
    {
        self.entries = Entries::Doubted;
        self.folder.sync_folder(places.output_folder())?;
        self.folder.sync_folder(places.checkpoint_folder())?;
        self.entries = Entries::Settled;
        Ok(())
    }

    /// Settles the entries of both folders. After a sync of them failed, each is a failure.
    fn sync_entries(&mut self, places: &Places) -> Result<(), DiskFault>
        requires ready { HasReady F.Folder places.now self.old }
        ensures ready { HasReady F.Folder places.now self.new }
        ensures reads_on { F.tells → ReadsOn (F.view self.old.folder) (F.view self.new.folder) }
        ensures entered { F.tells → OnOk result (AreEntered (F.view self.new.folder)
            places.now Settled) }
        ensures settled { OnOk result (self.new.entries ≡ Settled) }
        ensures doubted { self.old.entries ≡ Doubted → result ≡ Err Failed }
        ensures files { self.new.files ≡ self.old.files }
    {
        match self.entries {
            Entries::Settled => Ok(()),
            Entries::Doubted => Err(DiskFault::Failed),
            Entries::Made => self.sync_made(places),
        }
    }

    /// Settles a file, and the entries of both folders. A file that isn't there has no bytes to settle.
    pub(crate) fn sync(&mut self, places: &Places, file: u32) -> Result<(), DiskFault>
        requires file { IsFile (files_in places.now) file }
        requires ready { HasReady F.Folder places.now self.old }
        ensures ready { HasReady F.Folder places.now self.new }
        ensures stays { KeepsBytes F.Folder places.now self.old self.new }
        ensures as_read { F.tells → OnOk result
            (IsSettled (pulled places.now (F.view self.new.folder)) file) }
        ensures settled { OnOk result (self.new.entries ≡ Settled) }
        ensures shut { OnOk result (IsShut self.new.files.items places.now file) }
    {
        self.sync_bytes(places, file)?;
        self.sync_entries(places)
    }
}
