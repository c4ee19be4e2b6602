//! A store of files under names: the trait that a table's folder is reached through, a store in memory whose failures are listed
//! beforehand, and a store over a directory.
#![tactic(auto)]

mod asking;
mod directory;
mod disk;
mod folder_names;
mod host_disk;
mod memory;
mod plan;
mod shelf;
mod store;

pub use directory::DirStore;
pub use disk::{Disk, DiskFault, Folder, Made};
pub use host_disk::HostDisk;
pub use memory::MemStore;
pub use plan::Fail;
pub use store::{Bytes, Gone, Put, Store, StoreError};
