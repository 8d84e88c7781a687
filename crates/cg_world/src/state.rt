//! The world, and what is seen of it.
ghost use Rattle.std.specs.Prelude.{◌≡◌, ◌∷◌, [], ◌&&◌, nat_lt, nat_le, is_some, option_map, IfOk, IfSome};
ghost use Rattle.std.specs.Option.{option_copied};
ghost use Rattle.cg_base.specs.Cuts.{index_in};
ghost use Rattle.cg_base.specs.Lists.{first_some};
ghost use Rattle.cg_group.specs.Ready.{ready};
ghost use Rattle.cg_group.specs.Refusals.{not_up};
ghost use Rattle.cg_disk_records.specs.Holds.{Holds};
ghost use Rattle.cg_model.specs.Admission.{takes_part, unknown};
ghost use Rattle.cg_model.specs.Making.{printed_position};
ghost use Rattle.cg_model.specs.Places.{creates, place_of};
ghost use Rattle.cg_model.specs.World.{replica_of, up_replicas};
ghost use Rattle.cg_world.specs.MadeActions.{made_named};
ghost use Rattle.cg_world.specs.DiskOut.{GivesDisk};
ghost use Rattle.cg_world.specs.Standing.{standing_of};

use crate::Standing;
use crate::made_actions::MadeActions;
use crate::place::last_place;
use cg_action::Action;
use cg_agree::{facts_stand_beside_each_world, orders_run_on};
use cg_base::{ActionId, IdSet, NoMemory, ReplicaId};
use cg_client::Core;
use cg_disk::{Disk, ModelDisk};
use cg_group::Reason;
use cg_world_events::WorldState;
use std::alloc::Global;
use std::marker::Model;

/// The world: one to which admitted events lead from before the start. Clauses see it as the definitions have it, with
/// the actions that were shown as made on the way. Its state is one box, since a world goes from call to call as a value.
#[derive(Drop)]
pub struct World {
    pub(crate) state: Box<WorldState>,
    pub(crate) made: MadeActions,
}

impl Model for World {
    ghost use Rattle.cg_world.specs.Led.{IsLedWith};
    ghost use Rattle.cg_world.specs.SoFar.{SoFar};

    ghost Value = { SoFar };

    ghost view = { λ w. record { world = w.state.value; made = w.made } };

    ghost invariant = { λ w. IsLedWith w.state.value w.made };
}

impl World {
    ghost use Rattle.cg_world.specs.Led.{IsLed, IsInBook};
    ghost use Rattle.cg_world.specs.SoFar.{nothing_yet};

    /// The world before its start.
    pub fn new(alloc: Global) -> Result<World, NoMemory>
        ensures { IfOk result (λ w. w ≡ nothing_yet) }
    {
        facts_stand_beside_each_world();
        let state = Box::new(alloc, WorldState::new(alloc))?;
        Ok(World {
            state,
            made: MadeActions::new(alloc),
        })
    }

    /// How many places of its configuration may be handed to the replica next, 0 where it is in none. It takes no memory.
    pub fn ready(&self, p: ReplicaId) -> u64
        ensures { result ≡ ready self.now.world.group p }
    {
        self.state.ready(p)
    }

    /// The replica is up. It takes no memory.
    pub fn is_up(&self, p: ReplicaId) -> bool
        ensures { result ≡ is_some (replica_of self.now.world p) }
    {
        self.state.is_up(p)
    }

    /// The replicas that are up. It takes no memory.
    pub fn up_replicas(&self) -> IdSet
        ensures { result ≡ up_replicas self.now.world }
    {
        self.state.up_replicas()
    }

    /// What the replica holds, where it is up, and the facts that stand of whatever a replica holds. It takes no memory.
    pub fn core(&self, p: ReplicaId) -> Option<&Core>
        ensures value { option_copied result ≡ option_map (λ r. r.held) (replica_of self.now.world p) }
        ensures holds { IfSome (option_copied result) Holds }
    {
        self.state.core(p)
    }

    /// The replica is up, and creates a request at once. It takes no memory.
    pub fn creates(&self, p: ReplicaId) -> bool
        ensures { result ≡ creates self.now.world p }
    {
        self.state.creates(p)
    }

    /// Why the replica can't take part in an event as itself: it hasn't begun, isn't up, or has left for good. It takes
    /// no memory.
    pub fn takes_part(&self, p: ReplicaId) -> Option<Reason>
        ensures { result ≡ takes_part self.now.world p }
    {
        self.state.takes_part(p)
    }

    /// Why nothing can be asked of the replica at all: it hasn't begun. It takes no memory.
    pub fn unknown(&self, p: ReplicaId) -> Option<Reason>
        ensures { result ≡ unknown self.now.world p }
    {
        self.state.unknown(p)
    }

    /// Why nothing is seen of the replica: it hasn't begun, or isn't up. It takes no memory.
    pub fn hidden(&self, p: ReplicaId) -> Option<Reason>
        ensures { result ≡ first_some (unknown self.now.world p ∷ not_up self.now.world.group p ∷ []) }
    {
        self.state.hidden(p)
    }

    /// How the replica stands. It takes no memory.
    pub fn standing(&self, p: ReplicaId) -> Standing
        ensures { result ≡ standing_of self.now.world p }
    {
        match self.takes_part(p) {
            Some(Reason::UnknownReplica(_)) => Standing::Unbegun,
            Some(Reason::NotUp(_)) => Standing::Down,
            Some(_) => Standing::Left,
            None => Standing::Up {
                creating: self.creates(p),
            },
        }
    }

    /// The place of the action in the global order, counted from 1; None only where it has none. It takes no memory, and as
    /// many looks as its creator has green actions behind it: the creator replies when the action becomes green there.
    pub fn place_of(&self, id: &ActionId) -> Option<u64>
        ensures { IfSome result (λ n. n ≡ place_of self.now.world.order id.now) }
    {
        orders_run_on();
        let order = self.state.order().as_slice();
        let greens = match self.core(id.creator) {
            Some(core) => core.green_count() as usize,
            None => 0,
        };
        match last_place(order, greens, id) {
            Some(place) => Some(place),
            None => last_place(order, order.len(), id),
        }
    }

    /// The replica's position on its last printed line, 0 where it has none or is down there. It takes no memory.
    pub fn printed_position(&self, p: ReplicaId) -> u64
        ensures { result ≡ printed_position self.now.world p }
    {
        self.state.printed_position(p)
    }

    /// Admitted events lead here from before the start: so each law of `cg_agree` over such worlds holds of this one. It does
    /// nothing.
    pub fn holds(&self)
        ensures { IsLed self.now.world }
    {
        let _state = &self.state;
    }

    /// The action of this name as it was made on the way to this world. It is None exactly where it wasn't shown as
    /// made, which the world's cut tells too; and the action stands in the book of a chronicle with which admitted
    /// events lead here. It takes no memory.
    pub fn made(&self, id: ActionId) -> Option<&Action>
        ensures found { option_copied result ≡ made_named self.now.made id }
        ensures some { is_some (option_copied result) ≡
            (nat_lt 0 id.index && nat_le id.index (index_in self.now.world.made id.creator)) }
        ensures action { IfSome (option_copied result) (λ a. (a.id ≡ id) × IsInBook self.now.world a) }
    {
        self.made.get(id)
    }

    /// The replica's disk as a crash now leaves it, with nothing in the places that weren't synced; None exactly where the
    /// replica hasn't begun. `NoMemory` too where the disk has made so many calls that those of a recovery might go past
    /// 2^62.
    pub fn image(self, p: ReplicaId) -> Result<Option<ModelDisk>, NoMemory>
        ensures { IfOk result (GivesDisk (⟦<ModelDisk as Disk>⟧.view) self.world p) }
    {
        let World { state, made } = self;
        drop(made);
        Box::into_inner(state).into_disk(p)
    }
}
