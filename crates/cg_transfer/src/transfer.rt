//! A snapshot under way.
ghost use Rattle.std.specs.Prelude.{◌≡◌, ◌≤◌, ◌+◌, min, IfOk};
ghost use Rattle.cg_client.specs.Joined.{joiner_content, piece_count};
ghost use Rattle.cg_records.specs.Limits.{IsNumber};
ghost use Rattle.cg_disk_records.specs.Agreeing.{Agrees};
ghost use Rattle.cg_transfer.specs.Calls.{copy_of, IsOfJoined};

use cg_base::{NoMemory, ReplicaId};
use cg_client::Core;
use cg_disk::{Disk, ModelDisk};
use cg_join::{Joiner, SnapshotName, SnapshotWriter, hand_pieces, snapshots_are_counted};
use cg_store::CommitErr;
use std::marker::Model;
use std::snapshot::Snapshot;

/// A snapshot under way: for whom, of whom, the copy of what that replica had green, and the joiner with its disk, which
/// has taken the first pieces. Clauses see it as the world's definitions have it: with all that its giver held, of which
/// it keeps no second copy.
pub struct Transfer {
    joiner: ReplicaId,
    giver: ReplicaId,
    held: Snapshot<Core>,
    writer: SnapshotWriter,
    taking: Joiner<ModelDisk>,
}

impl Drop for Transfer {
    fn drop(self) {
        let Transfer {
            joiner: _,
            giver: _,
            held: _,
            writer: _,
            taking: _,
        } = self;
    }
}

impl Model for Transfer {
    ghost use Rattle.std.specs.Prelude.{length};
    ghost use Rattle.cg_model.specs.World.{TransferState};
    ghost use Rattle.cg_transfer.specs.Copies.{IsCopy};

    ghost Value = { TransferState };

    ghost view = { λ t. record { joiner = t.joiner; giver = t.giver; content = t.held.value; taken = length t.taking.parts } };

    ghost invariant = { λ t. IsCopy (⟦<ModelDisk as Disk>⟧.view t.taking.disk) t.writer t.taking t.joiner t.held.value };
}

impl Transfer {
    // A copy of what the replica has green, of which no piece was taken.
    pub(crate) fn start(
        core: &Core,
        giver: ReplicaId,
        number: u64,
        joiner: ReplicaId,
    ) -> Result<Transfer, NoMemory>
        requires number { IsNumber number }
        requires agrees { Agrees (joiner_content joiner core.now) }
        ensures { IfOk result (λ t. t ≡ copy_of joiner giver core.now) }
    {
        let alloc = core.alloc();
        // one for the writer, and one for the joiner
        let name = SnapshotName { giver, number };
        let copy = name;
        let writer = SnapshotWriter::make(core, name)?;
        Ok(Transfer {
            joiner,
            giver,
            held: Snapshot::of(core),
            writer,
            taking: Joiner::new(alloc, ModelDisk::new(alloc), joiner, copy),
        })
    }

    /// For whom it is. It takes no memory.
    pub fn joiner(&self) -> ReplicaId
        ensures { result ≡ self.now.joiner }
    {
        self.joiner
    }

    /// Of whom it is. It takes no memory.
    pub fn giver(&self) -> ReplicaId
        ensures { result ≡ self.now.giver }
    {
        self.giver
    }

    /// How many pieces were taken. It takes no memory.
    pub fn taken(&self) -> u64
        ensures { result ≡ self.now.taken }
    {
        self.taking.taken()
    }

    /// How many pieces there are. It takes no memory.
    pub fn count(&self) -> u64
        ensures count { result ≡ piece_count self.now.content }
        ensures most { self.now.taken ≤ result }
    {
        snapshots_are_counted();
        self.writer.count()
    }

    /// The next pieces are taken, or all that are left where these are fewer.
    pub fn take(self, pieces: u64) -> Result<Transfer, NoMemory>
        ensures { IfOk result (λ t. t ≡ record self { taken = min (piece_count self.content) (self.taken + pieces) }) }
    {
        let more = pieces.min(self.count() - self.taken());
        let Transfer {
            joiner,
            giver,
            held,
            writer,
            mut taking,
        } = self;
        match hand_pieces(&writer, &mut taking, more) {
            Ok(()) => Ok(Transfer {
                joiner,
                giver,
                held,
                writer,
                taking,
            }),
            Err(NoMemory) => {
                drop(held);
                drop(writer);
                drop(taking);
                Err(NoMemory)
            }
        }
    }

    /// The disk of the replica that joined, where all pieces were taken.
    pub fn finish(self) -> Result<ModelDisk, NoMemory>
        requires { self.taken ≡ piece_count self.content }
        ensures { IfOk result (λ disk. IsOfJoined (⟦<ModelDisk as Disk>⟧.view disk) self) }
    {
        snapshots_are_counted();
        let Transfer {
            joiner: _,
            giver: _,
            held,
            writer,
            taking,
        } = self;
        drop(held);
        drop(writer);
        match taking.finish() {
            Ok(disk) => Ok(disk),
            Err(CommitErr::Lost(_)) => unreachable!(),
            Err(CommitErr::NoMemory(disk)) => {
                drop(disk);
                Err(NoMemory)
            }
        }
    }
}
