//! A disk over two folders of a host, which are locked as long as it lives, and whose entries are synced too; and what
//! a crash may leave of folders.
#![tactic(auto)]

mod care;
mod folder;
mod folder_disk;
mod host_folder;
mod kept;
mod memory_folder;
mod names;

pub use care::Care;
pub use folder::Folder;
pub use folder_disk::FolderDisk;
pub use host_folder::{HostFile, HostFolder};
pub use memory_folder::{Deed, Event, MemoryFile, MemoryFolder};
