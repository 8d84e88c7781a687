use cg_base::{IdSet, ReplicaId};

/// A message that has a place, with its sender, those who have received it, and those of them who are known to have received
/// each of its sender's places before, too.
#[derive(Drop)]
pub(crate) struct OrderedMessage<M> {
    pub(crate) from: ReplicaId,
    pub(crate) message: M,
    pub(crate) received: IdSet,
    pub(crate) in_turn: IdSet,
}
