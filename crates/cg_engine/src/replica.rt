ghost use Rattle.std.specs.Prelude.{◌≡◌, fold, IfOk};
ghost use Rattle.cg_action.specs.Limits.{IsKind};
ghost use Rattle.cg_client.specs.Queries.{state_name};
ghost use Rattle.cg_client.specs.Replica.{fresh};
ghost use Rattle.cg_client.specs.Requests.{is_creating, request, settle};
ghost use Rattle.cg_client.specs.Calls.{kind_of, IsLineGreen};
ghost use Rattle.cg_disk_records.specs.Stored.{recovery_turn};
ghost use Rattle.cg_states.specs.Hearing.{hear_delivery};
ghost use Rattle.cg_states.specs.ReplicaStep.{replica_step};
ghost use Rattle.cg_engine.specs.Inputs.{input_of, taken, HasLimits};
ghost use Rattle.cg_engine.specs.Seen.{turn_of, white_in};
ghost use Rattle.cg_model.specs.World.{is_left_state};

use crate::Input;
use crate::member_state::{
    MemberState, core_of, hear, is_creating, name_of, request, settle, whiten,
};
use crate::out_of_prim::OutOfPrim;
use cg_base::{NoMemory, ReplicaId, WeightSet};
use cg_client::{Core, Draft, Request};
use cg_encoded::DeliveredMsg;
use cg_exchange::NonPrim;
use cg_group::Delivery;
use cg_report::StateName;
use std::alloc::Global;
use std::marker::Model;

/// A replica in memory. Clauses see what it holds, and its state. After `NoMemory` it is gone.
pub struct Replica {
    member: MemberState,
}

impl Drop for Replica {
    fn drop(self) {
        let Replica { member: _ } = self;
    }
}

impl Model for Replica {
    ghost use Rattle.cg_client.specs.Replica.{Replica as SeenReplica};
    ghost use Rattle.cg_engine.specs.Seen.{seen};

    ghost Value = { SeenReplica };

    ghost view = { λ r. seen r.member };
}

impl Replica {
    /// A new replica, alone, among the servers of the start.
    pub fn fresh(alloc: Global, id: ReplicaId, servers: &WeightSet) -> Result<Replica, NoMemory>
        ensures { IfOk result (λ r. r ≡ fresh id servers.now) }
    {
        let core = Core::fresh(alloc, id, servers)?;
        let member = MemberState::Outside(OutOfPrim::Non(NonPrim::recovered(core)));
        Ok(Replica { member })
    }

    /// The replica that comes up with what it held at its last commit: alone, in no primary component, and its own actions
    /// have become red.
    #[tactic(auto, unfolding(cg_disk_records::specs::Stored::recovery_turn))]
    pub fn recovered(core: Core) -> Result<(Replica, Draft), NoMemory>
        ensures { IfOk result (λ up. turn_of up.0 up.1 ≡ recovery_turn core) }
    {
        let mut core = core;
        let mut draft = Draft::new(core.alloc());
        match core.own_to_red(&mut draft) {
            Ok(()) => {
                let member = MemberState::Outside(OutOfPrim::Non(NonPrim::recovered(core)));
                Ok((Replica { member }, draft))
            }
            Err(_) => {
                draft.abandon();
                Err(NoMemory)
            }
        }
    }

    /// One delivery.
    pub fn hear(self, draft: &mut Draft, d: &Delivery<DeliveredMsg>) -> Result<Replica, NoMemory>
        ensures { IfOk result (λ r. turn_of r draft.new ≡ hear_delivery (turn_of self draft.old) d.now) }
    {
        let Replica { member } = self;
        let member = hear(member, draft, d)?;
        Ok(Replica { member })
    }

    /// Deliveries, in their order.
    pub fn hear_all(
        self,
        draft: &mut Draft,
        list: &[Delivery<DeliveredMsg>],
    ) -> Result<Replica, NoMemory>
        ensures { IfOk result (λ r. turn_of r draft.new ≡ fold hear_delivery (turn_of self draft.old) list.now) }
    {
        let mut replica = self;
        for d in list {
            replica = replica.hear(draft, d)?;
        }
        Ok(replica)
    }

    /// A request comes.
    pub fn request(self, draft: &mut Draft, r: Request) -> Result<Replica, NoMemory>
        requires { IsKind (kind_of r) }
        ensures { IfOk result (λ next. turn_of next draft.new ≡ request (turn_of self draft.old) (kind_of r)) }
    {
        let Replica { member } = self;
        let member = request(member, draft, r)?;
        Ok(Replica { member })
    }

    /// The event ends: the requests that are kept are created, in a state that creates.
    pub fn settle(self, draft: &mut Draft) -> Result<Replica, NoMemory>
        ensures { IfOk result (λ r. turn_of r draft.new ≡ settle (turn_of self draft.old)) }
    {
        let Replica { member } = self;
        let member = settle(member, draft)?;
        Ok(Replica { member })
    }

    /// One event: the deliveries in their order, and then the requests that are kept; or a request.
    pub fn step(self, input: Input) -> Result<(Replica, Draft), NoMemory>
        requires { HasLimits input }
        ensures { IfOk result (λ next. turn_of next.0 next.1 ≡ replica_step self (input_of input)) }
    {
        let mut draft = Draft::new(self.core().alloc());
        match self.take(&mut draft, input) {
            Ok(next) => Ok((next, draft)),
            Err(_) => {
                draft.abandon();
                Err(NoMemory)
            }
        }
    }

    fn take(self, draft: &mut Draft, input: Input) -> Result<Replica, NoMemory>
        requires { HasLimits input }
        ensures { IfOk result (λ r. turn_of r draft.new ≡ taken (turn_of self draft.old) input) }
    {
        match input {
            Input::Deliver(list) => self.hear_all(draft, list.as_slice())?.settle(draft),
            Input::Request(r) => self.request(draft, r),
        }
    }

    /// The white count rises to the white line. It takes no memory.
    pub fn whiten(&mut self)
        requires { IsLineGreen self.old.held }
        ensures { self.new ≡ white_in self.old }
    {
        whiten(&mut self.member);
    }

    /// What it holds. It takes no memory.
    pub fn core(&self) -> &Core
        ensures { result.now ≡ self.now.held }
    {
        core_of(&self.member)
    }

    /// Its state. It takes no memory.
    pub fn state(&self) -> StateName
        ensures { result ≡ state_name self.now.state }
    {
        name_of(&self.member)
    }

    /// It creates a request at once, and keeps none. It takes no memory.
    pub fn is_creating(&self) -> bool
        ensures { result ≡ is_creating self.now.state }
    {
        is_creating(&self.member)
    }

    /// It has left. It takes no memory.
    pub fn is_left(&self) -> bool
        ensures { result ≡ is_left_state self.now.state }
    {
        match &self.member {
            MemberState::Left(_) => true,
            _ => false,
        }
    }
}
