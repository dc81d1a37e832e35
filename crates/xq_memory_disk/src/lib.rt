//! A disk in memory: a file whose bytes are held by the process and end with it.
//!
//! The database of a server that was given no file lies on two of these, the database's pages
//! and its log. What was written is what is read, so a read needs no digest and a sync has
//! nothing to do. The bytes lie in blocks, so the file grows without a copy of what it holds.
#![tactic(auto)]

ghost use Rattle.std.specs.Prelude.{◌≡◌, [], true, false, refl, is_ok};
ghost use Rattle.sqlite_disk.specs.Disk.{CountsFault};
ghost use Rattle.sqlite_disk.specs.Refusal.{finds_no_room};

mod blocks;

use blocks::Blocks;
use sqlite_disk::{Disk, Tally};
use std::alloc::{AllocError, Global};
use std::io;

/// A file in memory, and how many times it found no room to grow.
#[derive(Drop)]
pub struct MemoryDisk {
    bytes: Blocks,
    refused: u64,
}

impl MemoryDisk {
    ghost use Rattle.xq_memory_disk.specs.MemoryDisk.{disk_bytes};

    /// An empty file, which takes no memory yet.
    pub fn new(alloc: Global) -> MemoryDisk
        ensures { disk_bytes result ≡ [] }
    {
        MemoryDisk {
            bytes: Blocks::new(alloc),
            refused: 0,
        }
    }
}

impl Disk for MemoryDisk {
    ghost seen = { λ disk. disk.bytes };

    // The one crash is the end of the process, and of the file with it.
    ghost may_leave = { λ disk content. content ≡ disk.bytes };

    ghost is_usable = { λ _. true };

    ghost faults = { λ disk. disk.refused };

    ghost is_clean = { λ _. true };

    ghost tally_of = { λ disk. record { caught = 0; refused = 0 } };

    ghost key_of = { λ _. 0 };

    ghost is_fair = { λ _ _. true };

    ghost fair_if_clean = { λ _ _ _. refl };

    ghost seen_may_stay = { λ disk. refl };

    fn mixes(&self) -> bool {
        false
    }

    fn key(&self) -> u64 {
        0
    }

    fn tally(&self) -> Tally {
        Tally {
            caught: 0,
            refused: 0,
        }
    }

    fn may_be_used(&self) -> bool {
        true
    }

    fn len(&mut self) -> io::Result<usize> {
        Ok(self.bytes.len())
    }

    fn read_at(&mut self, at: usize, buf: &mut [u8]) -> io::Result<()> {
        if at > self.bytes.len() || buf.len() > self.bytes.len() - at {
            return Err(io::ErrorKind::UnexpectedEof.into());
        }
        self.bytes.read(at, buf);
        Ok(())
    }

    // What was written is what is read, so the digest needs no test.
    fn read_checked(&mut self, _key: u64, _want: u64, at: usize, buf: &mut [u8]) -> io::Result<()> {
        self.read_at(at, buf)
    }

    fn write_at(&mut self, at: usize, bytes: &[u8]) -> io::Result<()> {
        counted(self.bytes.write(at, bytes), &mut self.refused)
    }

    fn set_len(&mut self, len: usize) -> io::Result<()> {
        counted(self.bytes.resize(len), &mut self.refused)
    }

    fn sync(&mut self) -> io::Result<()> {
        Ok(())
    }
}

/// A refused growth as an error of the file, counted.
fn counted(outcome: Result<(), AllocError>, refused: &mut u64) -> io::Result<()>
    ensures variant { is_ok result ≡ is_ok outcome }
    ensures kind { finds_no_room result ≡ false }
    ensures faults { CountsFault result refused.old refused.new }
{
    if outcome.is_err() {
        *refused = refused.saturating_add(1);
        return Err(io::ErrorKind::OutOfMemory.into());
    }
    Ok(())
}
