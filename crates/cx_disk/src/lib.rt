//! Files by number that a run keeps: what each call does to them, and what a crash may leave of them.
#![tactic(auto)]

mod disk;
mod failing_disk;
mod files;
mod fuse_disk;
mod image;
mod memory_disk;
mod note;
mod noting_disk;
mod settle;
mod whole;

pub use disk::{Disk, DiskFault};
pub use failing_disk::FailingDisk;
pub use files::{CHUNKS, FIRST_CHUNK, OLD_OUTPUT, RECOMBINED, SLOTS, chunk, named_output};
pub use fuse_disk::FuseDisk;
pub use memory_disk::MemoryDisk;
pub use note::{Change, Note};
pub use noting_disk::NotingDisk;
pub use settle::{put, trim};
pub use whole::{read_whole, rewrite};
