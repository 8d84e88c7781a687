ghost use Rattle.std.specs.Prelude.{◌≡◌, Some, IfOk};
ghost use Rattle.cg_action.specs.Limits.{IsKind};
ghost use Rattle.cg_report.specs.declared.line.StateName.TheVariants.{No as NoName};
ghost use Rattle.cg_client.specs.declared.parts.DraftParts.{DraftParts};
ghost use Rattle.cg_client.specs.Requests.{request};
ghost use Rattle.cg_client.specs.Calls.{kind_of, IsLineGreen};
ghost use Rattle.cg_client.specs.Whitening.{with_white};
ghost use Rattle.cg_construct.specs.Attempt.{attempt_of, in_no};
ghost use Rattle.cg_states.specs.No.{no_on_cpc};
ghost use Rattle.cg_construct.specs.Steps.{turn_after, HasLimits};
ghost use Rattle.cg_states.specs.ReplicaStep.{on_message};
ghost use Rattle.cg_states.specs.Hearing.{hear_delivery};
ghost use Rattle.cg_client.specs.Replica.{No as NoState};

use crate::attempt::{attempt_set, is_announced};
use crate::{ConstructStep, Un};
use cg_base::{IdSet, NoMemory, ReplicaId};
use cg_client::{Core, Draft, Request};
use cg_encoded::DeliveredMsg;
use cg_group::Delivery;
use cg_report::StateName;
use cg_wire::Msg;
use std::marker::Model;

/// A member whose attempt was cut short before all announcements had come. Clauses see what it holds, the attempt's
/// configuration and who has announced it.
#[derive(Drop)]
pub struct No {
    core: Core,
    conf: u64,
    heard: IdSet,
}

impl Model for No {
    ghost use Rattle.std.specs.Prelude.{◌≡◌, Some};
    ghost use Rattle.cg_construct.specs.Attempt.{Announced, attempt_of};

    ghost Value = { Announced };

    ghost view = { λ s. record { held = s.core; conf = s.conf; heard = s.heard } };

    ghost invariant = { λ s. attempt_of s.core ≡ Some s.conf };
}

impl No {
    /// The attempt was cut short, when these members had announced it.
    pub(crate) fn cut_short(core: Core, conf: u64, heard: IdSet) -> No
        requires { attempt_of core ≡ Some conf }
        ensures { result ≡ record { held = core; conf = conf; heard = heard } }
    {
        No { core, conf, heard }
    }

    /// One delivery.
    #[tactic(auto, unfolding(cg_states::specs::ReplicaStep::on_transitional, cg_states::specs::ReplicaStep::on_regular))]
    pub fn deliver(
        self,
        draft: &mut Draft,
        d: &Delivery<DeliveredMsg>,
    ) -> Result<ConstructStep, NoMemory>
        ensures turn { IfOk result (λ step. turn_after step draft.new ≡
            hear_delivery (in_no self draft.old) d.now) }
        ensures limits { IfOk result HasLimits }
    {
        match d {
            Delivery::Message { from, bytes, .. } => match bytes.message() {
                Some(message) => Ok(self.hear(*from, message)),
                None => Ok(ConstructStep::No(self)),
            },
            Delivery::Transitional { .. } => Ok(ConstructStep::No(self)),
            Delivery::Regular { conf, set } => {
                let No { mut core, .. } = self;
                core.forget_record();
                Ok(ConstructStep::Exchange {
                    core,
                    conf: *conf,
                    set: *set,
                })
            }
        }
    }

    #[tactic(auto, unfolding(cg_states::specs::ReplicaStep::on_message))]
    fn hear(self, from: ReplicaId, message: &Msg) -> ConstructStep
        ensures turn { (draft : DraftParts) →
            turn_after result draft ≡ on_message (NoState self.conf self.heard) from message.now (in_no self draft) }
        ensures limits { HasLimits result }
    {
        match message {
            Msg::Cpc { id, conf } => self.hear_cpc(from, *id, *conf),
            _ => ConstructStep::No(self),
        }
    }

    fn hear_cpc(self, from: ReplicaId, id: ReplicaId, of_conf: u64) -> ConstructStep
        ensures turn { (draft : DraftParts) →
            turn_after result draft ≡ no_on_cpc (in_no self draft) self.conf self.heard from id of_conf }
        ensures limits { HasLimits result }
    {
        let No {
            core,
            conf,
            mut heard,
        } = self;
        if !is_announced(&core, conf, from, id, of_conf) {
            return ConstructStep::No(No { core, conf, heard });
        }
        heard.add(from);
        if !attempt_set(&core).is_within(&heard) {
            return ConstructStep::No(No { core, conf, heard });
        }
        ConstructStep::Un(Un::announced(core, conf))
    }

    /// A request is kept.
    pub fn request(mut self, r: Request) -> Result<No, NoMemory>
        requires { IsKind (kind_of r) }
        ensures { IfOk result (λ s. (draft : DraftParts) → in_no s draft ≡ request (in_no self draft) (kind_of r)) }
    {
        self.core.keep(r.into_kind())?;
        Ok(self)
    }

    pub fn name(&self) -> StateName
        ensures { result ≡ NoName }
    {
        StateName::No
    }

    /// The white count rises to the white line. It takes no memory.
    pub fn whiten(&mut self)
        requires { IsLineGreen self.old.held }
        ensures { self.new ≡ record self.old { held = with_white self.old.held } }
    {
        self.core.whiten();
    }

    /// What it holds.
    pub fn core(&self) -> &Core
        ensures { result.now ≡ self.now.held }
    {
        &self.core
    }
}
