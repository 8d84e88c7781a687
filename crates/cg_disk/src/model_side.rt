//! A side of a disk in memory.
ghost use Rattle.std.specs.Prelude.{◌≡◌, ◌+◌, ◌<◌, ◌≤◌, [], length, OnOk, OnErr, reverse};
ghost use Rattle.cg_base.specs.declared.limits.TheConstants.{NUMBER_LIMIT};
ghost use Rattle.cg_disk.specs.Undo.{undone};

use crate::bytes::{overwrite, written_over};
use crate::crash::bytes_left;
use crate::written::{Written, highest_end, is_among, lowest_offset};
use cg_base::NoMemory;
use std::alloc::Global;

/// The bytes of a side, and the writes since the last sync, the oldest first.
#[derive(Drop)]
pub struct ModelSide {
    pub bytes: Vec<u8>,
    pub unsynced: Vec<Written>,
    ghost grown: { length (undone bytes.items (reverse unsynced.items)) ≤ length bytes.items },
}

impl ModelSide {
    ghost use Rattle.std.specs.Prelude.{IfOk};
    ghost use Rattle.cg_disk.specs.State.{wrote_side, unsynced_from, filled};
    ghost use Rattle.cg_disk.specs.Model.{side_of};

    /// A side with these bytes, all of them synced.
    pub fn new(alloc: Global, bytes: Vec<u8>) -> ModelSide
        ensures bytes { result.bytes.items ≡ bytes.items }
        ensures unsynced { result.unsynced.items ≡ [] }
    {
        ModelSide {
            bytes,
            unsynced: Vec::new(alloc),
        }
    }

    /// Writes, and keeps what was written over.
    pub fn write(&mut self, alloc: Global, offset: usize, bytes: &[u8]) -> Result<(), NoMemory>
        requires { offset ≤ length self.old.bytes.items }
        ensures ok { OnOk result (side_of self.new ≡ wrote_side offset bytes.now (side_of self.old)) }
        ensures bytes { OnErr result (self.new.bytes.items ≡ self.old.bytes.items) }
        ensures unsynced { OnErr result (self.new.unsynced.items ≡ self.old.unsynced.items) }
        ensures short { OnOk result (offset + length bytes.now < NUMBER_LIMIT) }
    {
        let before = written_over(alloc, &self.bytes, offset, bytes.len())?;
        self.unsynced.reserve(1)?;
        overwrite(&mut self.bytes, offset, bytes)?;
        let written = Written {
            offset,
            count: bytes.len(),
            before,
        };
        match self.unsynced.push(written) {
            Ok(()) => Ok(()),
            Err(_) => unreachable!(),
        }
    }

    /// All writes count as synced from here on. It takes no memory.
    pub fn settle(&mut self)
        ensures bytes { self.new.bytes.items ≡ self.old.bytes.items }
        ensures unsynced { self.new.unsynced.items ≡ [] }
    {
        self.unsynced.clear();
    }

    /// How many offsets were written since the last sync.
    pub fn unsynced_offsets(&self) -> usize
        ensures { result ≡ unsynced_from (side_of self.now) 0 self.now.bytes.items }
    {
        let from = lowest_offset(&self.unsynced, self.bytes.len());
        let to = highest_end(&self.unsynced, self.bytes.len());
        let mut count = 0;
        for offset in from..to {
            if is_among(&self.unsynced, offset) {
                count += 1;
            }
        }
        count
    }

    /// The bytes after a crash with this fill. Where nothing is unsynced they move.
    pub fn filled(self, alloc: Global, fill: &[u8]) -> Result<Vec<u8>, NoMemory>
        ensures { IfOk result (λ bytes. bytes.items ≡ filled (side_of self) fill.now) }
    {
        let ModelSide { bytes, unsynced } = self;
        bytes_left(alloc, bytes, &unsynced, fill)
    }
}
