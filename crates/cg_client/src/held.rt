ghost use Rattle.std.specs.Prelude.{◌≡◌, ◌<◌, IfOk};
ghost use Rattle.cg_client.specs.Replica.{fresh_held, created};

use crate::entries::Entries;
use crate::{CheckedQueue, CheckedServers, Components, Fifo, KeptRequest, Own, last_index};
use cg_base::{ActionId, Cut, NoMemory, ReplicaId, Row, WeightSet};
use std::alloc::Global;
use std::marker::Model;

/// What a replica holds in every state. Clauses see it as a `Held`. It is one box, since a replica moves from state to
/// state as a value.
pub struct Core {
    pub(crate) held: Box<Holding>,
}

#[derive(Drop)]
pub(crate) struct Holding {
    pub(crate) id: ReplicaId,
    pub(crate) queue: CheckedQueue,
    pub(crate) yellow_valid: bool,
    pub(crate) own: Own,
    pub(crate) db: Entries,
    pub(crate) members: CheckedServers,
    pub(crate) components: Components,
    pub(crate) buffered: Row<KeptRequest>,
    pub(crate) owed: Fifo<ActionId>,
    pub(crate) alloc: Global,
}

impl Drop for Core {
    fn drop(self) {
        let Core { held: _ } = self;
    }
}

impl Model for Core {
    ghost use Rattle.cg_client.specs.Replica.{Held};

    ghost Value = { Held };

    ghost view = { λ c. record {
      id = c.held.value.id;
      queue = c.held.value.queue;
      yellow_valid = c.held.value.yellow_valid;
      own = c.held.value.own;
      db = c.held.value.db;
      members = c.held.value.members;
      prim = c.held.value.components.prim;
      attempt_index = c.held.value.components.attempt_index;
      vulnerable = c.held.value.components.vulnerable;
      buffered = c.held.value.buffered;
      owed = c.held.value.owed;
    } };
}

impl Core {
    /// What a new replica holds, among the servers of the start.
    pub fn fresh(alloc: Global, id: ReplicaId, servers: &WeightSet) -> Result<Core, NoMemory>
        ensures { IfOk result (λ core. core ≡ fresh_held id servers.now) }
    {
        let holding = Holding {
            id,
            queue: CheckedQueue::resume(alloc, 0, Cut::zero()),
            yellow_valid: false,
            own: Own::new(alloc),
            db: Entries::new(alloc),
            members: CheckedServers::start(*servers),
            components: Components::start(*servers),
            buffered: Row::new(alloc),
            owed: Fifo::new(alloc),
            alloc,
        };
        let held = Box::new(alloc, holding)?;
        Ok(Core { held })
    }

    pub(crate) fn last_created(&self) -> u64
        ensures { result ≡ created self.now }
    {
        self.held
            .queue
            .red_index(self.held.id)
            .max(last_index(&self.held.own))
    }
}
