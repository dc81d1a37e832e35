//! Laws about stores: those in memory are clean, whatever was done to them.
ghost use Rattle.sqlite.specs.Files.{over_files};
ghost use Rattle.sqlite.specs.Steps.{over_memory};
ghost use Rattle.xq_tables.specs.Documents.{IsClean};

use crate::stores::Store;
use sqlite::{FileStore, MemStore};
use xq_memory_disk::MemoryDisk;

/// A store over disks in memory is clean: such disks return what was written. So what contracts
/// say of a clean store they say of this one without a premise.
pub fn memory_disks_are_clean(store: &Store<FileStore<MemoryDisk>>)
    ensures { IsClean over_files store.now }
{}

/// A store in the engine's own memory is clean.
pub fn memory_is_clean(store: &Store<MemStore>)
    ensures { IsClean over_memory store.now }
{}
