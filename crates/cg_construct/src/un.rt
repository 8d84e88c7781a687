ghost use Rattle.std.specs.Prelude.{◌≡◌, ℕ, Some, IfOk};
ghost use Rattle.cg_action.specs.Limits.{IsKind};
ghost use Rattle.cg_report.specs.declared.line.StateName.TheVariants.{Un as UnName};
ghost use Rattle.cg_wire.specs.Limits.{IsMsg};
ghost use Rattle.cg_client.specs.declared.parts.DraftParts.{DraftParts};
ghost use Rattle.cg_client.specs.Replica.{Un as UnState};
ghost use Rattle.cg_client.specs.Drafts.{turn_with};
ghost use Rattle.cg_client.specs.Requests.{request};
ghost use Rattle.cg_client.specs.Calls.{kind_of, IsLineGreen};
ghost use Rattle.cg_client.specs.Whitening.{with_white};
ghost use Rattle.cg_construct.specs.Attempt.{attempt_of};
ghost use Rattle.cg_states.specs.ReplicaStep.{on_message};
ghost use Rattle.cg_states.specs.Hearing.{hear_delivery};
ghost use Rattle.cg_construct.specs.Steps.{turn_after, HasLimits};

use crate::ConstructStep;
use crate::attempt::set_of_attempt;
use cg_base::NoMemory;
use cg_client::{Core, Draft, Installed, Request};
use cg_encoded::DeliveredMsg;
use cg_group::Delivery;
use cg_report::StateName;
use cg_wire::Msg;
use std::marker::Model;

/// A member whose attempt was cut short, and may be installed elsewhere. Clauses see what it holds.
#[derive(Drop)]
pub struct Un {
    core: Core,
    conf: u64,
}

impl Model for Un {
    ghost use Rattle.std.specs.Prelude.{◌≡◌, Some};
    ghost use Rattle.cg_client.specs.Replica.{Held};
    ghost use Rattle.cg_construct.specs.Attempt.{attempt_of};

    ghost Value = { Held };

    ghost view = { λ s. s.core };

    ghost invariant = { λ s. attempt_of s.core ≡ Some s.conf };
}

impl Un {
    /// All members have announced the attempt of the configuration.
    pub(crate) fn announced(core: Core, conf: u64) -> Un
        requires { attempt_of core ≡ Some conf }
        ensures { result ≡ core }
    {
        Un { core, conf }
    }

    /// One delivery.
    #[tactic(auto, unfolding(cg_states::specs::ReplicaStep::on_transitional, cg_states::specs::ReplicaStep::on_regular))]
    pub fn deliver(
        self,
        draft: &mut Draft,
        d: &Delivery<DeliveredMsg>,
    ) -> Result<ConstructStep, NoMemory>
        ensures turn { IfOk result (λ step. turn_after step draft.new ≡
            hear_delivery (turn_with self UnState draft.old) d.now) }
        ensures limits { IfOk result HasLimits }
    {
        match d {
            Delivery::Message { bytes, .. } => match bytes.message() {
                Some(message) => self.hear(draft, message),
                None => Ok(ConstructStep::Un(self)),
            },
            Delivery::Transitional { .. } => Ok(ConstructStep::Un(self)),
            Delivery::Regular { conf, set } => {
                let Un { core, .. } = self;
                Ok(ConstructStep::Exchange {
                    core,
                    conf: *conf,
                    set: *set,
                })
            }
        }
    }

    #[tactic(auto, unfolding(cg_states::specs::ReplicaStep::on_message))]
    fn hear(self, draft: &mut Draft, message: &Msg) -> Result<ConstructStep, NoMemory>
        requires { IsMsg message.now }
        ensures turn { IfOk result (λ step. (from : ℕ) → turn_after step draft.new ≡
            on_message UnState from message.now (turn_with self UnState draft.old)) }
        ensures limits { IfOk result HasLimits }
    {
        match message {
            Msg::Action(action) => {
                let Un { core, conf } = self;
                let action = action.copy(core.alloc())?;
                let set = set_of_attempt(&core);
                let installed = Installed::make(core, draft, set)?;
                Ok(ConstructStep::InstalledBy { installed, action })
            }
            _ => Ok(ConstructStep::Un(self)),
        }
    }

    /// A request is kept.
    pub fn request(mut self, r: Request) -> Result<Un, NoMemory>
        requires { IsKind (kind_of r) }
        ensures { IfOk result (λ s. (draft : DraftParts) →
            turn_with s UnState draft ≡ request (turn_with self UnState draft) (kind_of r)) }
    {
        self.core.keep(r.into_kind())?;
        Ok(self)
    }

    pub fn name(&self) -> StateName
        ensures { result ≡ UnName }
    {
        StateName::Un
    }

    /// The white count rises to the white line. It takes no memory.
    pub fn whiten(&mut self)
        requires { IsLineGreen self.old }
        ensures { self.new ≡ with_white self.old }
    {
        self.core.whiten();
    }

    /// What it holds.
    pub fn core(&self) -> &Core
        ensures { result.now ≡ self.now }
    {
        &self.core
    }
}
