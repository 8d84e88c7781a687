ghost use Rattle.std.specs.Prelude.{◌≡◌, IfOk};
ghost use Rattle.cg_action.specs.Limits.{IsKind};
ghost use Rattle.cg_report.specs.declared.line.StateName.TheVariants.{ExchangeStates as ExchangeStatesName};
ghost use Rattle.cg_client.specs.declared.parts.DraftParts.{DraftParts};
ghost use Rattle.cg_client.specs.Drafts.{turn_with};
ghost use Rattle.cg_client.specs.Replica.{State};
ghost use Rattle.cg_client.specs.Requests.{request};
ghost use Rattle.cg_client.specs.Calls.{kind_of, IsLineGreen};
ghost use Rattle.cg_client.specs.Summary.{enter_exchange};
ghost use Rattle.cg_client.specs.Whitening.{with_white};
ghost use Rattle.cg_states.specs.ExchangeActions.{go_on};
ghost use Rattle.cg_states.specs.ExchangeStates.{is_usable, with_heard, exchange_states_on_summary};
ghost use Rattle.cg_exchange.specs.States.{in_states};
ghost use Rattle.cg_exchange.specs.Steps.{turn_after, HasRecord};
ghost use Rattle.cg_states.specs.ReplicaStep.{on_message};
ghost use Rattle.cg_states.specs.Hearing.{hear_delivery};
ghost use Rattle.cg_client.specs.Replica.{ExchangeStates as ExchangeStatesState};

use crate::{ExchangeActions, ExchangeStep, NonPrim};
use cg_base::{IdSet, NoMemory, ReplicaId, Row};
use cg_client::{Core, Draft, Request};
use cg_encoded::DeliveredMsg;
use cg_group::Delivery;
use cg_knowledge::{Summary, senders};
use cg_plan::Plan;
use cg_report::StateName;
use cg_wire::Msg;
use std::marker::Model;

/// A member that waits for what the others hold. Clauses see what it holds itself, the configuration with its members, and
/// the summaries that were heard.
#[derive(Drop)]
pub struct ExchangeStates {
    core: Core,
    conf: u64,
    set: IdSet,
    heard: Row<Summary>,
}

impl Model for ExchangeStates {
    ghost use Rattle.cg_exchange.specs.States.{Waiting};

    ghost Value = { Waiting };

    ghost view = { λ s. record { held = s.core; conf = s.conf; set = s.set; heard = s.heard } };
}

// the summary is its sender's, of this configuration, and the sender's first one here
fn is_usable(conf: u64, heard: &[Summary], from: ReplicaId, s: &Summary) -> bool
    ensures { result ≡ is_usable conf heard.now from s.now }
{
    s.id.get() == from.get() && s.conf == conf && !senders(heard).contains(from)
}

// the plan of these summaries is made, and none of its items was accepted
fn begin_plan(
    core: Core,
    draft: &mut Draft,
    conf: u64,
    heard: Row<Summary>,
) -> Result<ExchangeStep, NoMemory>
    ensures turn { IfOk result (λ step. (state : State) →
        turn_after step draft.new ≡ go_on (turn_with core state draft.old) conf heard 0) }
    ensures record { IfOk result HasRecord }
{
    let plan = Plan::make(core.alloc(), heard.as_slice())?;
    ExchangeActions::follow(core, draft, conf, heard, plan)
}

impl ExchangeStates {
    /// A configuration with these members begins: the own actions that weren't delivered become red, and the others are
    /// told what this member holds.
    pub fn enter(
        core: Core,
        draft: &mut Draft,
        conf: u64,
        set: IdSet,
    ) -> Result<ExchangeStates, NoMemory>
        ensures { IfOk result (λ s. (state : State) →
            in_states s draft.new ≡ enter_exchange (turn_with core state draft.old) conf set) }
    {
        let mut core = core;
        core.enter_exchange(draft, conf, set)?;
        let heard = Row::new(core.alloc());
        Ok(ExchangeStates {
            core,
            conf,
            set,
            heard,
        })
    }

    /// One delivery.
    #[tactic(auto, unfolding(cg_states::specs::ReplicaStep::on_transitional, cg_states::specs::ReplicaStep::on_regular))]
    pub fn deliver(
        self,
        draft: &mut Draft,
        d: &Delivery<DeliveredMsg>,
    ) -> Result<ExchangeStep, NoMemory>
        ensures turn { IfOk result (λ step. turn_after step draft.new ≡
            hear_delivery (in_states self draft.old) d.now) }
        ensures record { IfOk result HasRecord }
    {
        match d {
            Delivery::Message { from, bytes, .. } => match bytes.message() {
                Some(message) => self.hear(draft, *from, message),
                None => Ok(ExchangeStep::States(self)),
            },
            Delivery::Transitional { .. } => {
                let ExchangeStates { core, .. } = self;
                Ok(ExchangeStep::Non(NonPrim::of(core, false)))
            }
            Delivery::Regular { .. } => Ok(ExchangeStep::States(self)),
        }
    }

    #[tactic(auto, unfolding(cg_states::specs::ReplicaStep::on_message))]
    fn hear(
        self,
        draft: &mut Draft,
        from: ReplicaId,
        message: &Msg,
    ) -> Result<ExchangeStep, NoMemory>
        ensures turn { IfOk result (λ step. turn_after step draft.new ≡
            on_message (ExchangeStatesState self.conf self.set self.heard) from message.now
            (in_states self draft.old)) }
        ensures record { IfOk result HasRecord }
    {
        match message {
            Msg::State(summary) => self.hear_summary(draft, from, summary.get()),
            _ => Ok(ExchangeStep::States(self)),
        }
    }

    fn hear_summary(
        mut self,
        draft: &mut Draft,
        from: ReplicaId,
        s: &Summary,
    ) -> Result<ExchangeStep, NoMemory>
        ensures turn { IfOk result (λ step. turn_after step draft.new ≡
            exchange_states_on_summary (in_states self draft.old) self.conf self.set self.heard from s.now) }
        ensures record { IfOk result HasRecord }
    {
        if !is_usable(self.conf, self.heard.as_slice(), from, s) {
            return Ok(ExchangeStep::States(self));
        }
        let copy = s.copy(self.core.alloc())?;
        self.heard.push(copy)?;
        self.plan_if_all_heard(draft)
    }

    // with the summaries of all members the plan is made; else more are waited for
    fn plan_if_all_heard(self, draft: &mut Draft) -> Result<ExchangeStep, NoMemory>
        ensures turn { IfOk result (λ step. (state : State) →
            turn_after step draft.new ≡ with_heard (turn_with self.held state draft.old)
            self.conf self.set self.heard) }
        ensures record { IfOk result HasRecord }
    {
        if !self.set.is_within(&senders(self.heard.as_slice())) {
            return Ok(ExchangeStep::States(self));
        }
        let ExchangeStates {
            core,
            conf,
            heard,
            ..
        } = self;
        begin_plan(core, draft, conf, heard)
    }

    /// A request is kept.
    pub fn request(mut self, r: Request) -> Result<ExchangeStates, NoMemory>
        requires { IsKind (kind_of r) }
        ensures { IfOk result (λ s. (draft : DraftParts) →
            in_states s draft ≡ request (in_states self draft) (kind_of r)) }
    {
        self.core.keep(r.into_kind())?;
        Ok(self)
    }

    pub fn name(&self) -> StateName
        ensures { result ≡ ExchangeStatesName }
    {
        StateName::ExchangeStates
    }

    /// The white count rises to the white line. It takes no memory.
    pub fn whiten(&mut self)
        requires { IsLineGreen self.old.held }
        ensures { self.new ≡ record self.old { held = with_white self.old.held } }
    {
        self.core.whiten();
    }

    /// What it holds.
    pub fn core(&self) -> &Core
        ensures { result.now ≡ self.now.held }
    {
        &self.core
    }
}
