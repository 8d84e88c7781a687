ghost use Rattle.std.specs.Prelude.{◌≡◌, ℕ, IfOk};
ghost use Rattle.cg_action.specs.Limits.{IsKind};
ghost use Rattle.cg_action.specs.ActionLimits.{IsAction};
ghost use Rattle.cg_report.specs.declared.line.StateName.TheVariants.{TransPrim as TransPrimName};
ghost use Rattle.cg_wire.specs.Limits.{IsMsg};
ghost use Rattle.cg_client.specs.Replica.{TransPrim as TransPrimState, State};
ghost use Rattle.cg_client.specs.declared.parts.DraftParts.{DraftParts};
ghost use Rattle.cg_client.specs.Drafts.{turn_with};
ghost use Rattle.cg_client.specs.Requests.{request};
ghost use Rattle.cg_client.specs.Calls.{kind_of, IsLineGreen};
ghost use Rattle.cg_client.specs.Whitening.{with_white};
ghost use Rattle.cg_client.specs.Marks.{mark_yellow};
ghost use Rattle.cg_prim.specs.Steps.{turn_after};
ghost use Rattle.cg_states.specs.ReplicaStep.{on_message};
ghost use Rattle.cg_states.specs.Hearing.{hear_delivery};

use crate::PrimStep;
use cg_action::Action;
use cg_base::NoMemory;
use cg_client::{Core, Draft, Installed, Request};
use cg_encoded::DeliveredMsg;
use cg_group::Delivery;
use cg_report::StateName;
use cg_wire::Msg;
use std::marker::Model;

/// A member of a primary component in its transitional configuration. Clauses see what it holds.
#[derive(Drop)]
pub struct TransPrim {
    core: Core,
}

impl Model for TransPrim {
    ghost use Rattle.cg_client.specs.Replica.{Held};

    ghost Value = { Held };

    ghost view = { λ s. s.core };
}

impl TransPrim {
    /// The member of a component behind its regular configuration.
    pub(crate) fn behind(core: Core) -> TransPrim
        ensures { result ≡ core }
    {
        TransPrim { core }
    }

    /// An action has shown that its sender has installed the attempt: it was installed here too, and the action becomes
    /// yellow.
    pub fn after(i: Installed, draft: &mut Draft, a: Action) -> Result<TransPrim, NoMemory>
        requires { IsAction a }
        ensures { IfOk result (λ s. (state : State) →
            turn_with s state draft.new ≡ mark_yellow (turn_with i state draft.old) a) }
    {
        let mut core = i.into_core();
        core.mark_yellow(draft, a)?;
        Ok(TransPrim { core })
    }

    /// One delivery.
    #[tactic(auto, unfolding(cg_states::specs::ReplicaStep::on_transitional, cg_states::specs::ReplicaStep::on_regular))]
    pub fn deliver(
        self,
        draft: &mut Draft,
        d: &Delivery<DeliveredMsg>,
    ) -> Result<PrimStep, NoMemory>
        ensures { IfOk result (λ step. turn_after step draft.new ≡
            hear_delivery (turn_with self TransPrimState draft.old) d.now) }
    {
        match d {
            Delivery::Message { bytes, .. } => match bytes.message() {
                Some(message) => self.hear(draft, message),
                None => Ok(PrimStep::Trans(self)),
            },
            Delivery::Transitional { .. } => Ok(PrimStep::Trans(self)),
            Delivery::Regular { conf, set } => {
                let TransPrim { mut core } = self;
                core.end_prim();
                Ok(PrimStep::Exchange {
                    core,
                    conf: *conf,
                    set: *set,
                })
            }
        }
    }

    #[tactic(auto, unfolding(cg_states::specs::ReplicaStep::on_message))]
    fn hear(mut self, draft: &mut Draft, message: &Msg) -> Result<PrimStep, NoMemory>
        requires { IsMsg message.now }
        ensures { IfOk result (λ step. (from : ℕ) → turn_after step draft.new ≡
            on_message TransPrimState from message.now (turn_with self TransPrimState draft.old)) }
    {
        match message {
            Msg::Action(a) => {
                let a = a.copy(self.core.alloc())?;
                self.core.mark_yellow(draft, a)?;
                Ok(PrimStep::Trans(self))
            }
            _ => Ok(PrimStep::Trans(self)),
        }
    }

    /// A request is kept.
    pub fn request(mut self, r: Request) -> Result<TransPrim, NoMemory>
        requires { IsKind (kind_of r) }
        ensures { IfOk result (λ s. (draft : DraftParts) →
            turn_with s TransPrimState draft ≡ request (turn_with self TransPrimState draft) (kind_of r)) }
    {
        self.core.keep(r.into_kind())?;
        Ok(self)
    }

    pub fn name(&self) -> StateName
        ensures { result ≡ TransPrimName }
    {
        StateName::TransPrim
    }

    /// The white count rises to the white line. It takes no memory.
    pub fn whiten(&mut self)
        requires { IsLineGreen self.old }
        ensures { self.new ≡ with_white self.old }
    {
        self.core.whiten();
    }

    /// What it holds.
    pub fn core(&self) -> &Core
        ensures { result.now ≡ self.now }
    {
        &self.core
    }
}
