use crate::ReplicaId;

/// A replica with its weight in votes.
#[derive(Clone, Copy, Debug, PartialEq, Eq)]
pub struct Weighted {
    pub id: ReplicaId,
    pub weight: u8,
}
