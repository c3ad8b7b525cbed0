//! Where the files of a disk are in its folders.
ghost use Rattle.std.specs.Prelude.{ℕ, ◌≡◌, ◌≢◌, ◌<◌, ◌+◌, ◌∷◌, true, false, length, map, slice_index_or, vec_len, IfOk, IfErr, OnOk, IsErrOf, [], string_bytes, codes, ◌++◌};
ghost use Rattle.std.specs.Fmt.{decimal};
ghost use Rattle.std.specs.List.{All};
ghost use Rattle.std.specs.Str.{IsUtf8};
ghost use Rattle.cx_disk.specs.Disk.{Folders, files_in, IsNamed};
ghost use Rattle.cx_disk.specs.Files.{IsFile, slot_count, chunk_count};
ghost use Rattle.cx_folder.specs.Names.{IsIn, folder_path, slot_path, old_output_path, named_path, chunk_path, recombined_path, below, low_paths, high_paths, paths_in, AreDistinct, folders_named, HavePlaces, IsNewAt, place_of, path_at, folder_at, output_folder, checkpoint_folder};
ghost use Rattle.cx_disk.specs.declared.disk.DiskFault.TheVariants.{Failed};

use cx_disk::{CHUNKS, DiskFault, FIRST_CHUNK, RECOMBINED, SLOTS};
use cx_text::{List, Text};
use std::alloc::{AllocError, Global};
use std::marker::Model;

/// The folders that a mount names, with the paths of all files in them.
#[derive(Drop)]
pub(crate) struct Places {
    output: Text,
    names: List<Text>,
    checkpoints: Text,
    output_folder: String,
    checkpoint_folder: String,
    paths: Vec<String>,
}

impl Model for Places {
    ghost use Rattle.std.specs.Prelude.{map, string_bytes};
    ghost use Rattle.cx_disk.specs.Disk.{Folders};
    ghost use Rattle.cx_folder.specs.Names.{AreAt};

    ghost Value = { Folders };

    ghost view = { λ places. record {
      output = places.output;
      names = places.names;
      checkpoints = places.checkpoints;
    } };

    ghost invariant = { λ places. AreAt (string_bytes places.output_folder)
        (string_bytes places.checkpoint_folder) (map string_bytes places.paths.items) (record {
          output = places.output;
          names = places.names;
          checkpoints = places.checkpoints;
        }) };
}

impl Places {
    /// The places of files in these folders.
    ///
    /// `Failed`: a name isn't text, or two files would have one path.
    pub(crate) fn new(
        alloc: Global,
        output: &Text,
        names: &List<Text>,
        checkpoints: &Text,
    ) -> Result<Places, DiskFault>
        ensures named { IfOk result (IsNamed output.now names.now checkpoints.now) }
        ensures fit { OnOk result
            (HavePlaces (folders_named output.now names.now checkpoints.now)) }
        ensures refused { IsErrOf result Failed
            → HavePlaces (folders_named output.now names.now checkpoints.now) → ⊥ }
    {
        let output_folder = folder(alloc, output)?;
        let checkpoint_folder = folder(alloc, checkpoints)?;
        let paths = all_paths(alloc, &output_folder, names.as_slice(), &checkpoint_folder)?;
        if !are_distinct(&paths) {
            return Err(DiskFault::Failed);
        }
        Ok(Places {
            output: Text::new(output.as_slice().to_vec(alloc)?),
            names: List::new(copied(alloc, names.as_slice())?),
            checkpoints: Text::new(checkpoints.as_slice().to_vec(alloc)?),
            output_folder,
            checkpoint_folder,
            paths,
        })
    }

    /// Whether a mount names these.
    pub(crate) fn are(&self, output: &Text, names: &List<Text>, checkpoints: &Text) -> bool
        ensures same { result ≡ true
            → IsNamed output.now names.now checkpoints.now self.now }
        ensures other { result ≡ false
            → IsNamed output.now names.now checkpoints.now self.now → ⊥ }
    {
        self.output.as_slice() == output.as_slice()
            && same_names(self.names.as_slice(), names.as_slice())
            && self.checkpoints.as_slice() == checkpoints.as_slice()
    }

    /// How many files there are.
    pub(crate) fn count(&self) -> usize
        ensures all { result ≡ length (paths_in self.now) }
        ensures distinct { AreDistinct (paths_in self.now) }
    {
        self.paths.len()
    }

    /// The same, by the files below the chunks.
    fn total(&self) -> usize
        ensures each { result ≡ length (paths_in self.now) }
        ensures all { result ≡ files_in self.now + 513 }
        ensures distinct { AreDistinct (paths_in self.now) }
    {
        self.count()
    }

    /// The folder of the outputs.
    pub(crate) fn output_folder(&self) -> &str
        ensures { result.now ≡ output_folder self.now }
    {
        self.output_folder.as_str()
    }

    /// The folder of the checkpoints.
    pub(crate) fn checkpoint_folder(&self) -> &str
        ensures { result.now ≡ checkpoint_folder self.now }
    {
        self.checkpoint_folder.as_str()
    }

    /// The place of a file among all paths.
    pub(crate) fn place(&self, file: u32) -> usize
        requires { IsFile (files_in self.now) file }
        ensures place { result ≡ place_of (files_in self.now) file }
        ensures within { result < length (paths_in self.now) }
        ensures distinct { AreDistinct (paths_in self.now) }
    {
        let total = self.total();
        if file < FIRST_CHUNK || RECOMBINED < file {
            return file as usize;
        }
        total - (RECOMBINED + 1 - file) as usize
    }

    /// The path at a file's place.
    fn path_of(&self, file: u32) -> &str
        requires { IsFile (files_in self.now) file }
        ensures path { result.now ≡ path_at self.now file }
        ensures distinct { AreDistinct (paths_in self.now) }
    {
        self.paths[self.place(file)].as_str()
    }

    /// The path of a file, which is in the file's folder.
    pub(crate) fn path(&self, file: u32) -> &str
        requires { IsFile (files_in self.now) file }
        ensures path { result.now ≡ path_at self.now file }
        ensures within { IsIn (folder_at self.now file) result.now }
        ensures distinct { AreDistinct (paths_in self.now) }
    {
        self.path_of(file)
    }

    /// The folder of a file.
    pub(crate) fn folder(&self, file: u32) -> &str
        ensures { result.now ≡ folder_at self.now file }
    {
        if file < SLOTS {
            self.checkpoint_folder.as_str()
        } else {
            self.output_folder.as_str()
        }
    }
}

/// The path of a folder by its name.
///
/// `Failed`: the name isn't text.
fn folder(alloc: Global, name: &Text) -> Result<String, DiskFault>
    ensures path { IfOk result (λ path. string_bytes path ≡ folder_path name.now) }
    ensures text { OnOk result (IsUtf8 name.now) }
    ensures refused { IsErrOf result Failed → IsUtf8 name.now → ⊥ }
{
    match str::from_utf8(name.as_slice()) {
        Ok("") => Ok(format!(in alloc; ".")?),
        Ok(path) => Ok(format!(in alloc; "{path}")?),
        Err(_) => Err(DiskFault::Failed),
    }
}

/// The path of a file in a folder.
fn in_folder(alloc: Global, folder: &str, name: &str) -> Result<String, AllocError>
    ensures { IfOk result (λ path. string_bytes path ≡ named_path folder.now name.now) }
{
    format!(in alloc; "{folder}/{name}")
}

/// The path of a slot.
fn slot_name(alloc: Global, folder: &str, slot: u32) -> Result<String, AllocError>
    ensures { IfOk result (λ path. string_bytes path ≡ slot_path folder.now slot) }
{
    format!(in alloc; "{folder}/checkpoint.chkpt.{slot}")
}

/// The path of an output by its name.
///
/// `Failed`: the name isn't text.
fn named(alloc: Global, folder: &str, name: &Text) -> Result<String, DiskFault>
    ensures path { IfOk result (λ path. string_bytes path ≡ named_path folder.now name.now) }
    ensures text { OnOk result (IsUtf8 name.now) }
    ensures refused { IsErrOf result Failed → IsUtf8 name.now → ⊥ }
{
    match str::from_utf8(name.as_slice()) {
        Ok(name) => Ok(in_folder(alloc, folder, name)?),
        Err(_) => Err(DiskFault::Failed),
    }
}

/// Adds the slots.
fn add_slots(alloc: Global, paths: &mut Vec<String>, folder: &str) -> Result<(), AllocError>
    ensures { OnOk result (map string_bytes paths.new.items
        ≡ map string_bytes paths.old.items ++ below (slot_path folder.now) slot_count) }
{
    'slots: for slot in 0..SLOTS {
        paths.push(slot_name(alloc, folder, slot)?)?;
    }
    Ok(())
}

/// Adds the outputs that are named.
///
/// `Failed`: a name isn't text.
fn add_names(
    alloc: Global,
    paths: &mut Vec<String>,
    folder: &str,
    names: &[Text],
) -> Result<(), DiskFault>
    ensures added { OnOk result (map string_bytes paths.new.items
        ≡ map string_bytes paths.old.items ++ map (named_path folder.now) names.now) }
    ensures texts { OnOk result (All IsUtf8 names.now) }
    ensures refused { IsErrOf result Failed → All IsUtf8 names.now → ⊥ }
{
    'names: for name in names {
        paths.push(named(alloc, folder, name)?)?;
    }
    Ok(())
}

/// Adds the chunks.
fn add_chunks(alloc: Global, paths: &mut Vec<String>, folder: &str) -> Result<(), AllocError>
    ensures { OnOk result (map string_bytes paths.new.items
        ≡ map string_bytes paths.old.items ++ below (chunk_path folder.now) chunk_count) }
{
    'chunks: for part in 0..CHUNKS {
        paths.push(format!(in alloc; "{folder}/chunk.{part}.asc")?)?;
    }
    Ok(())
}

/// All paths, in the order of the files' places.
///
/// `Failed`: a name isn't text.
fn all_paths(
    alloc: Global,
    output: &str,
    names: &[Text],
    checkpoints: &str,
) -> Result<Vec<String>, DiskFault>
    ensures paths { IfOk result (λ paths. map string_bytes paths.items
        ≡ below (slot_path checkpoints.now) slot_count
        ++ old_output_path output.now ∷ map (named_path output.now) names.now
        ++ (below (chunk_path output.now) chunk_count ++ recombined_path output.now ∷ [])) }
    ensures texts { OnOk result (All IsUtf8 names.now) }
    ensures refused { IsErrOf result Failed → All IsUtf8 names.now → ⊥ }
{
    let mut paths = Vec::new(alloc);
    add_slots(alloc, &mut paths, checkpoints)?;
    paths.push(in_folder(alloc, output, "output.asc")?)?;
    add_names(alloc, &mut paths, output, names)?;
    add_chunks(alloc, &mut paths, output)?;
    paths.push(in_folder(alloc, output, "recombined.asc")?)?;
    Ok(paths)
}

/// Whether the k-th path isn't empty, and none of those before it.
fn is_new(paths: &[String], k: usize) -> bool
    requires { k < length paths.now }
    ensures fresh { result ≡ true → IsNewAt (map string_bytes paths.now) k }
    ensures taken { result ≡ false → IsNewAt (map string_bytes paths.now) k → ⊥ }
{
    if paths[k].as_str().is_empty() {
        return false;
    }
    'others: for i in 0..k {
        if paths[i].as_str() == paths[k].as_str() {
            return false;
        }
    }
    true
}

/// Whether no two files have one path, and none has the empty one.
fn are_distinct(paths: &[String]) -> bool
    ensures distinct { result ≡ true → AreDistinct (map string_bytes paths.now) }
    ensures clash { result ≡ false → AreDistinct (map string_bytes paths.now) → ⊥ }
{
    'places: for k in 0..paths.len() {
        if !is_new(paths, k) {
            return false;
        }
    }
    true
}

/// Whether these are the same names.
fn same_names(names: &[Text], others: &[Text]) -> bool
    ensures same { result ≡ true → names.now ≡ others.now }
    ensures other { result ≡ false → names.now ≢ others.now }
{
    if names.len() != others.len() {
        return false;
    }
    'names: for k in 0..names.len() {
        if names[k].as_slice() != others[k].as_slice() {
            return false;
        }
    }
    true
}

/// The same names.
fn copied(alloc: Global, names: &[Text]) -> Result<Vec<Text>, AllocError>
    ensures { IfOk result (λ copy. copy.items ≡ names.now) }
{
    let mut copy = Vec::new(alloc);
    'texts: for text in names {
        copy.push(Text::new(text.as_slice().to_vec(alloc)?))?;
    }
    Ok(copy)
}
