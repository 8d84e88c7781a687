use cg_base::ReplicaId;

/// A server: a replica that counts, with this weight, from 1.
#[derive(Clone, Copy, Debug, PartialEq, Eq)]
pub struct Server {
    pub id: ReplicaId,
    /// The green count that it is known to have reached.
    pub line: u64,
    pub weight: u8,
}
