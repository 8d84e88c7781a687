ghost use Rattle.std.specs.Prelude.{◌≡◌, ℕ, IsTrue, IsOk, IfOk};
ghost use Rattle.cg_action.specs.Limits.{IsKind};
ghost use Rattle.cg_report.specs.declared.line.StateName.TheVariants.{RegPrim as RegPrimName};
ghost use Rattle.cg_wire.specs.Limits.{IsMsg};
ghost use Rattle.cg_client.specs.Replica.{RegPrim as RegPrimState, State};
ghost use Rattle.cg_client.specs.Drafts.{turn_with};
ghost use Rattle.cg_client.specs.Requests.{request, settle};
ghost use Rattle.cg_client.specs.Calls.{kind_of, IsLineGreen};
ghost use Rattle.cg_client.specs.Whitening.{with_white};
ghost use Rattle.cg_states.specs.ReplicaStep.{on_message};
ghost use Rattle.cg_states.specs.Hearing.{hear_delivery};
ghost use Rattle.cg_prim.specs.Steps.{turn_after, is_transitional};

use crate::{PrimStep, TransPrim};
use cg_base::NoMemory;
use cg_client::{Core, Draft, Installed, Request};
use cg_encoded::DeliveredMsg;
use cg_group::Delivery;
use cg_report::StateName;
use cg_wire::Msg;
use std::marker::Model;

/// A member of a primary component in its regular configuration. Clauses see what it holds.
#[derive(Drop)]
pub struct RegPrim {
    core: Core,
}

impl Model for RegPrim {
    ghost use Rattle.cg_client.specs.Replica.{Held};

    ghost Value = { Held };

    ghost view = { λ s. s.core };
}

impl RegPrim {
    /// The member has installed the component.
    pub fn enter(i: Installed) -> RegPrim
        ensures { result ≡ i }
    {
        RegPrim {
            core: i.into_core(),
        }
    }

    /// One delivery. A transitional configuration takes no memory.
    #[tactic(auto, unfolding(cg_states::specs::ReplicaStep::on_transitional, cg_states::specs::ReplicaStep::on_regular))]
    pub fn deliver(
        self,
        draft: &mut Draft,
        d: &Delivery<DeliveredMsg>,
    ) -> Result<PrimStep, NoMemory>
        ensures turn { IfOk result (λ step. turn_after step draft.new ≡
            hear_delivery (turn_with self RegPrimState draft.old) d.now) }
        ensures memory { IsTrue (is_transitional d.now) → IsOk result }
    {
        match d {
            Delivery::Message { bytes, .. } => match bytes.message() {
                Some(message) => self.hear(draft, message),
                None => Ok(PrimStep::Reg(self)),
            },
            Delivery::Transitional { .. } => {
                let RegPrim { core } = self;
                Ok(PrimStep::Trans(TransPrim::behind(core)))
            }
            Delivery::Regular { .. } => Ok(PrimStep::Reg(self)),
        }
    }

    #[tactic(auto, unfolding(cg_states::specs::ReplicaStep::on_message))]
    fn hear(mut self, draft: &mut Draft, message: &Msg) -> Result<PrimStep, NoMemory>
        requires { IsMsg message.now }
        ensures { IfOk result (λ step. (from : ℕ) → turn_after step draft.new ≡
            on_message RegPrimState from message.now (turn_with self RegPrimState draft.old)) }
    {
        match message {
            Msg::Action(a) => {
                let a = a.copy(self.core.alloc())?;
                self.core.mark_green(draft, a)?;
                Ok(PrimStep::Reg(self))
            }
            _ => Ok(PrimStep::Reg(self)),
        }
    }

    /// A request is created.
    pub fn request(mut self, draft: &mut Draft, r: Request) -> Result<RegPrim, NoMemory>
        requires { IsKind (kind_of r) }
        ensures { IfOk result (λ s. turn_with s RegPrimState draft.new ≡
            request (turn_with self RegPrimState draft.old) (kind_of r)) }
    {
        self.core.create(draft, r.into_kind())?;
        Ok(self)
    }

    /// The event ends: the requests that are kept are created, in their order.
    pub fn settle(mut self, draft: &mut Draft) -> Result<RegPrim, NoMemory>
        ensures { IfOk result (λ s. turn_with s RegPrimState draft.new ≡
            settle (turn_with self RegPrimState draft.old)) }
    {
        self.core.create_kept(draft)?;
        Ok(self)
    }

    pub fn name(&self) -> StateName
        ensures { result ≡ RegPrimName }
    {
        StateName::RegPrim
    }

    /// The white count rises to the white line. It takes no memory.
    pub fn whiten(&mut self)
        requires { IsLineGreen self.old }
        ensures { self.new ≡ with_white self.old }
    {
        self.core.whiten();
    }

    /// What it holds.
    pub fn core(&self) -> &Core
        ensures { result.now ≡ self.now }
    {
        &self.core
    }
}
