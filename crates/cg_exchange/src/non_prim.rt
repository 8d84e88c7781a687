ghost use Rattle.std.specs.Prelude.{◌≡◌, ℕ, false, IfOk};
ghost use Rattle.cg_action.specs.Limits.{IsKind};
ghost use Rattle.cg_report.specs.declared.line.StateName.TheVariants.{NonPrim as NonPrimName};
ghost use Rattle.cg_wire.specs.Limits.{IsMsg};
ghost use Rattle.cg_client.specs.Requests.{request, settle};
ghost use Rattle.cg_client.specs.Calls.{kind_of, IsLineGreen};
ghost use Rattle.cg_client.specs.Whitening.{with_white};
ghost use Rattle.cg_exchange.specs.States.{in_non_prim};
ghost use Rattle.cg_exchange.specs.Steps.{turn_after, HasRecord};
ghost use Rattle.cg_states.specs.ReplicaStep.{on_message};
ghost use Rattle.cg_states.specs.Hearing.{hear_delivery};
ghost use Rattle.cg_client.specs.Replica.{NonPrim as NonPrimState};

use crate::{ExchangeStates, ExchangeStep};
use cg_base::NoMemory;
use cg_client::{Core, Draft, Request};
use cg_encoded::DeliveredMsg;
use cg_group::Delivery;
use cg_report::StateName;
use cg_wire::Msg;
use std::marker::Model;

/// A member of no primary component. Clauses see what it holds, and whether it is in a regular configuration.
#[derive(Drop)]
pub struct NonPrim {
    core: Core,
    regular: bool,
}

impl Model for NonPrim {
    ghost use Rattle.cg_exchange.specs.States.{Outside};

    ghost Value = { Outside };

    ghost view = { λ s. record { held = s.core; regular = s.regular } };
}

impl NonPrim {
    /// The replica has come up, and is alone.
    pub fn recovered(core: Core) -> NonPrim
        ensures { result ≡ record { held = core; regular = false } }
    {
        NonPrim {
            core,
            regular: false,
        }
    }

    /// The member of a configuration in which no primary component was formed.
    pub(crate) fn of(core: Core, regular: bool) -> NonPrim
        ensures { result ≡ record { held = core; regular = regular } }
    {
        NonPrim { core, regular }
    }

    /// It is in a regular configuration, and so creates requests at once. It takes no memory.
    pub fn is_regular(&self) -> bool
        ensures { result ≡ self.now.regular }
    {
        self.regular
    }

    /// One delivery.
    #[tactic(auto, unfolding(cg_states::specs::ReplicaStep::on_transitional, cg_states::specs::ReplicaStep::on_regular))]
    pub fn deliver(
        self,
        draft: &mut Draft,
        d: &Delivery<DeliveredMsg>,
    ) -> Result<ExchangeStep, NoMemory>
        ensures turn { IfOk result (λ step. turn_after step draft.new ≡
            hear_delivery (in_non_prim self draft.old) d.now) }
        ensures record { IfOk result HasRecord }
    {
        match d {
            Delivery::Message { bytes, .. } => match bytes.message() {
                Some(message) => self.hear(draft, message),
                None => Ok(ExchangeStep::Non(self)),
            },
            Delivery::Transitional { .. } => {
                let NonPrim { core, .. } = self;
                Ok(ExchangeStep::Non(NonPrim {
                    core,
                    regular: false,
                }))
            }
            Delivery::Regular { conf, set } => {
                let NonPrim { core, .. } = self;
                let next = ExchangeStates::enter(core, draft, *conf, *set)?;
                Ok(ExchangeStep::States(next))
            }
        }
    }

    #[tactic(auto, unfolding(cg_states::specs::ReplicaStep::on_message))]
    fn hear(mut self, draft: &mut Draft, message: &Msg) -> Result<ExchangeStep, NoMemory>
        requires { IsMsg message.now }
        ensures turn { IfOk result (λ step. (from : ℕ) → turn_after step draft.new ≡
            on_message (NonPrimState self.regular) from message.now (in_non_prim self draft.old)) }
        ensures record { IfOk result HasRecord }
    {
        match message {
            Msg::Action(a) => {
                let a = a.copy(self.core.alloc())?;
                self.core.mark_red(draft, a)?;
                Ok(ExchangeStep::Non(self))
            }
            _ => Ok(ExchangeStep::Non(self)),
        }
    }

    /// A request is created in a regular configuration, else it is kept.
    pub fn request(mut self, draft: &mut Draft, r: Request) -> Result<NonPrim, NoMemory>
        requires { IsKind (kind_of r) }
        ensures { IfOk result (λ s. in_non_prim s draft.new ≡ request (in_non_prim self draft.old) (kind_of r)) }
    {
        if !self.regular {
            self.core.keep(r.into_kind())?;
            return Ok(self);
        }
        self.core.create(draft, r.into_kind())?;
        Ok(self)
    }

    /// The event ends: in a regular configuration the requests that are kept are created, in their order.
    pub fn settle(mut self, draft: &mut Draft) -> Result<NonPrim, NoMemory>
        ensures { IfOk result (λ s. in_non_prim s draft.new ≡ settle (in_non_prim self draft.old)) }
    {
        if !self.regular {
            return Ok(self);
        }
        self.core.create_kept(draft)?;
        Ok(self)
    }

    pub fn name(&self) -> StateName
        ensures { result ≡ NonPrimName }
    {
        StateName::NonPrim
    }

    /// The white count rises to the white line. It takes no memory.
    pub fn whiten(&mut self)
        requires { IsLineGreen self.old.held }
        ensures { self.new ≡ record self.old { held = with_white self.old.held } }
    {
        self.core.whiten();
    }

    /// What it holds.
    pub fn core(&self) -> &Core
        ensures { result.now ≡ self.now.held }
    {
        &self.core
    }
}
