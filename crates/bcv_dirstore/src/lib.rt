//! A store in a folder: one file an object, the etag in front of the bytes.
//!
//! It stands on the trait of `bcv_store` and on the folders of `bcv_host`. [`DirStore`] is a store over any [`Folder`]: it locks
//! the folder, compares, writes the new contents beside the old file and renames, so that a condition and the put it guards
//! are one step for every process that keeps to the lock. Over a folder that tells its files its answers are exact
//! (`FolderGets`, `FolderPuts`, `FolderDeletes`, `FolderLists`): every answer says what the file of the object holds, a failure
//! has its cause, and a manifest is stored only when all that was written is on the disk. As a store it tells no log.
//! [`MemFolder`] is a folder in memory that tells its files and fails where it was told to; [`HostFolder`] is one of the system,
//! of which no contract tells what it keeps: there durability rests on the system's rename and sync.
#![tactic(auto)]

mod dir_store;
mod folder;
mod host_files;
mod host_folder;
mod laws;
mod listing;
mod mem_files;
mod mem_folder;
mod object_file;

pub use dir_store::DirStore;
pub use folder::{Folder, FolderEnd, Front, Lock};
pub use host_folder::HostFolder;
pub use laws::stored_is_found;
pub use mem_folder::MemFolder;
