ghost use Rattle.std.specs.Prelude.{◌≡◌, [], Some, IsTrue, IsOk, IfOk};
ghost use Rattle.cg_action.specs.Limits.{IsKind};
ghost use Rattle.cg_report.specs.declared.line.StateName.TheVariants.{Construct as ConstructName};
ghost use Rattle.cg_client.specs.declared.parts.DraftParts.{DraftParts};
ghost use Rattle.cg_client.specs.Requests.{request};
ghost use Rattle.cg_client.specs.Calls.{kind_of, IsLineGreen};
ghost use Rattle.cg_client.specs.Whitening.{with_white};
ghost use Rattle.cg_construct.specs.Attempt.{attempt_of, in_construct};
ghost use Rattle.cg_states.specs.Construct.{construct_on_cpc};
ghost use Rattle.cg_prim.specs.Steps.{is_transitional};
ghost use Rattle.cg_construct.specs.Steps.{turn_after, HasLimits};
ghost use Rattle.cg_states.specs.ReplicaStep.{on_message};
ghost use Rattle.cg_states.specs.Hearing.{hear_delivery};
ghost use Rattle.cg_client.specs.Replica.{Construct as ConstructState};

use crate::attempt::{attempt_set, is_announced, set_of_attempt};
use crate::{ConstructStep, No};
use cg_base::{IdSet, NoMemory, ReplicaId};
use cg_client::{Core, Draft, Installed, Request};
use cg_encoded::DeliveredMsg;
use cg_group::Delivery;
use cg_report::StateName;
use cg_wire::Msg;
use std::marker::Model;

/// A member that has announced an attempt, whose record it keeps. Clauses see what it holds, the attempt's configuration
/// and who has announced it.
#[derive(Drop)]
pub struct Construct {
    core: Core,
    conf: u64,
    heard: IdSet,
}

impl Model for Construct {
    ghost use Rattle.std.specs.Prelude.{◌≡◌, Some};
    ghost use Rattle.cg_construct.specs.Attempt.{Announced, attempt_of};

    ghost Value = { Announced };

    ghost view = { λ s. record { held = s.core; conf = s.conf; heard = s.heard } };

    ghost invariant = { λ s. attempt_of s.core ≡ Some s.conf };
}

impl Construct {
    /// The attempt of a configuration, which the core's record tells of, was announced.
    pub fn enter(core: Core, conf: u64) -> Construct
        requires { attempt_of core ≡ Some conf }
        ensures { result ≡ record { held = core; conf = conf; heard = [] } }
    {
        Construct {
            core,
            conf,
            heard: IdSet::empty(),
        }
    }

    /// One delivery. A transitional configuration takes no memory.
    #[tactic(auto, unfolding(cg_states::specs::ReplicaStep::on_transitional, cg_states::specs::ReplicaStep::on_regular))]
    pub fn deliver(
        self,
        draft: &mut Draft,
        d: &Delivery<DeliveredMsg>,
    ) -> Result<ConstructStep, NoMemory>
        ensures turn { IfOk result (λ step. turn_after step draft.new ≡
            hear_delivery (in_construct self draft.old) d.now) }
        ensures limits { IfOk result HasLimits }
        ensures memory { IsTrue (is_transitional d.now) → IsOk result }
    {
        match d {
            Delivery::Message { from, bytes, .. } => match bytes.message() {
                Some(message) => self.hear(draft, *from, message),
                None => Ok(ConstructStep::Construct(self)),
            },
            Delivery::Transitional { .. } => {
                let Construct { core, conf, heard } = self;
                Ok(ConstructStep::No(No::cut_short(core, conf, heard)))
            }
            Delivery::Regular { .. } => Ok(ConstructStep::Construct(self)),
        }
    }

    #[tactic(auto, unfolding(cg_states::specs::ReplicaStep::on_message))]
    fn hear(
        self,
        draft: &mut Draft,
        from: ReplicaId,
        message: &Msg,
    ) -> Result<ConstructStep, NoMemory>
        ensures turn { IfOk result (λ step. turn_after step draft.new ≡
            on_message (ConstructState self.conf self.heard) from message.now (in_construct self draft.old)) }
        ensures limits { IfOk result HasLimits }
    {
        match message {
            Msg::Cpc { id, conf } => self.hear_cpc(draft, from, *id, *conf),
            _ => Ok(ConstructStep::Construct(self)),
        }
    }

    fn hear_cpc(
        self,
        draft: &mut Draft,
        from: ReplicaId,
        id: ReplicaId,
        of_conf: u64,
    ) -> Result<ConstructStep, NoMemory>
        ensures turn { IfOk result (λ step. turn_after step draft.new ≡
            construct_on_cpc (in_construct self draft.old) self.conf self.heard from id of_conf) }
        ensures limits { IfOk result HasLimits }
    {
        let Construct {
            core,
            conf,
            mut heard,
        } = self;
        if !is_announced(&core, conf, from, id, of_conf) {
            return Ok(ConstructStep::Construct(Construct { core, conf, heard }));
        }
        heard.add(from);
        if !attempt_set(&core).is_within(&heard) {
            return Ok(ConstructStep::Construct(Construct { core, conf, heard }));
        }
        let set = set_of_attempt(&core);
        let installed = Installed::make(core, draft, set)?;
        Ok(ConstructStep::Installed(installed))
    }

    /// A request is kept.
    pub fn request(mut self, r: Request) -> Result<Construct, NoMemory>
        requires { IsKind (kind_of r) }
        ensures { IfOk result (λ s. (draft : DraftParts) →
            in_construct s draft ≡ request (in_construct self draft) (kind_of r)) }
    {
        self.core.keep(r.into_kind())?;
        Ok(self)
    }

    pub fn name(&self) -> StateName
        ensures { result ≡ ConstructName }
    {
        StateName::Construct
    }

    /// The white count rises to the white line. It takes no memory.
    pub fn whiten(&mut self)
        requires { IsLineGreen self.old.held }
        ensures { self.new ≡ record self.old { held = with_white self.old.held } }
    {
        self.core.whiten();
    }

    /// What it holds.
    pub fn core(&self) -> &Core
        ensures { result.now ≡ self.now.held }
    {
        &self.core
    }
}
