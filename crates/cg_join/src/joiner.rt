//! A joiner, which takes the pieces of one snapshot and then has its disk.
ghost use Rattle.std.specs.Prelude.{◌≡◌, ◌≤◌, ◌+◌, [], length};
ghost use Rattle.cg_base.specs.declared.limits.TheConstants.{COUNT_LIMIT};
ghost use Rattle.cg_join.specs.Finishing.{ended as ended_with};

use crate::rebuild::core_of;
use crate::taking::take;
use crate::{JoinErr, PieceContent, SnapshotName};
use cg_action::Limited;
use cg_base::ReplicaId;
use cg_disk::Disk;
use cg_store::{CommitErr, Store};
use std::alloc::Global;
use std::marker::Model;

/// A replica that joins. Clauses see its disk, whose it is, which snapshot it takes, and the parts of the pieces that were
/// taken: the number of the next one is one more than their count.
#[derive(Drop)]
pub struct Joiner<D: Disk> {
    disk: D,
    id: ReplicaId,
    name: SnapshotName,
    parts: Limited<PieceContent>,
    alloc: Global,
}

impl<D: Disk> Model for Joiner<D> {
    ghost use Rattle.cg_join.specs.Finishing.{Joining};

    ghost Value = { Joining D };

    ghost view = { λ j. record { disk = j.disk; id = j.id; name = j.name; parts = j.parts } };
}

// How the making of a disk ends.
fn ended<D: Disk>(answer: Result<Store<D>, CommitErr<D>>) -> Result<D, CommitErr<D>>
    ensures { result ≡ ended_with answer }
{
    match answer {
        Ok(store) => Ok(store.into_disk()),
        Err(fault) => Err(fault),
    }
}

impl<D: Disk> Joiner<D> {
    ghost use Rattle.cg_client.specs.Replica.{Held};
    ghost use Rattle.cg_db.specs.Ascending.{Ascends};
    ghost use Rattle.cg_store.specs.Stands.{created};
    ghost use Rattle.cg_client.specs.Joined.{joiner_content};
    ghost use Rattle.cg_join.specs.Snapshot.{parts_of};
    ghost use Rattle.cg_join.specs.Taking.{Takes};
    ghost use Rattle.cg_join.specs.Finishing.{Finishes, IsSnapshotFor};

    /// A joiner that has taken no piece.
    pub fn new(alloc: Global, disk: D, id: ReplicaId, name: SnapshotName) -> Joiner<D>
        ensures { result ≡ record { disk = disk; id = id; name = name; parts = [] } }
    {
        Joiner {
            disk,
            id,
            name,
            parts: Limited::new(alloc),
            alloc,
        }
    }

    /// Takes the next piece; true says that it is the last one. After a refusal, and where memory was refused, the joiner is
    /// as it was.
    pub fn piece(&mut self, bytes: &[u8]) -> Result<bool, JoinErr>
        ensures takes { Takes self.old.name self.old.parts self.new.parts bytes.now result }
        ensures alone { self.new ≡ record self.old { parts = self.new.parts } }
    {
        take(self.alloc, &self.name, &mut self.parts, bytes)
    }

    /// How many pieces were taken.
    pub fn taken(&self) -> u64
        ensures { result ≡ length self.now.parts }
    {
        self.parts.len()
    }

    /// The disk of the replica that joined, in seven device calls. After an error it may be no replica's disk.
    pub fn finish(self) -> Result<D, CommitErr<D>>
        requires calls { (D.view self.disk).time + 7 ≤ COUNT_LIMIT }

        // All pieces of one snapshot were taken.
        requires all { IsSnapshotFor self.id self.parts }
        ensures { (h : Held) → Ascends h.db → self.parts ≡ parts_of h →
            Finishes D.view self.id (created (joiner_content self.id h)) (D.view self.disk) result }
    {
        let Joiner {
            disk,
            id,
            parts,
            alloc,
            ..
        } = self;
        match core_of(alloc, id, parts) {
            Ok(core) => ended(Store::create(disk, &core)),
            Err(_) => Err(CommitErr::NoMemory(disk)),
        }
    }
}
