use cg_base::ReplicaId;

/// The name of a snapshot: the replica that gives it, and its number among that replica's snapshots, from 1.
#[derive(Clone, Copy, Debug, PartialEq, Eq)]
pub struct SnapshotName {
    pub giver: ReplicaId,
    pub number: u64,
}
