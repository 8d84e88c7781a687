ghost use Rattle.std.specs.Prelude.{◌≡◌};

use crate::ReplicaId;

/// The name of an action: who made it, and its number among that replica's actions, from 1.
#[derive(Clone, Copy, Debug, PartialEq, Eq, PartialOrd, Ord)]
pub struct ActionId {
    pub creator: ReplicaId,
    pub index: u64,
}

impl ActionId {
    ghost use Rattle.cg_base.specs.Ids.{id_before};

    /// Names are ordered by creator, and then by index.
    pub fn is_before(&self, other: &ActionId) -> bool
        ensures { result ≡ id_before self.now other.now }
    {
        self.creator.get() < other.creator.get()
            || self.creator == other.creator && self.index < other.index
    }
}
