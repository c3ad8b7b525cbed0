//! Which of a disk's files is which.
ghost use Rattle.std.specs.Prelude.{◌≡◌, ◌<◌};
ghost use Rattle.cx_disk.specs.Files.{chunk_count, chunk_file, named_output_file, output_limit};

/// How many slots there are for checkpoints. They are the files from 0 up to this number.
pub const SLOTS: u32 = 8;

/// The one output of a run whose outputs have no names.
pub const OLD_OUTPUT: u32 = 8;

/// How many parts can have a chunk each.
pub const CHUNKS: u32 = 512;

/// The chunk of part 0.
pub const FIRST_CHUNK: u32 = 1024;

/// The outputs of all parts together, in the file after the last chunk.
pub const RECOMBINED: u32 = FIRST_CHUNK + CHUNKS;

/// The file of an output that `mount` names, by its place among the names.
pub fn named_output(place: u32) -> u32
    requires few { place < output_limit }
    ensures { result ≡ named_output_file place }
{
    OLD_OUTPUT + 1 + place
}

/// The file of the chunk of a part.
pub fn chunk(part: u32) -> u32
    requires few { part < chunk_count }
    ensures { result ≡ chunk_file part }
{
    FIRST_CHUNK + part
}
