ghost use Rattle.std.specs.Prelude.{◌≡◌, suc, if◌then◌else◌, OnOk, IfOk};
ghost use Rattle.cg_action.specs.Limits.{IsKind};
ghost use Rattle.cg_action.specs.ActionLimits.{IsAction};
ghost use Rattle.cg_plan.specs.Plan.{plan_of};
ghost use Rattle.cg_plan.specs.Progress.{is_wanted, next_item};
ghost use Rattle.cg_report.specs.declared.line.StateName.TheVariants.{ExchangeActions as ExchangeActionsName};
ghost use Rattle.cg_wire.specs.Limits.{IsMsg};
ghost use Rattle.cg_wire.specs.declared.message.Msg.TheVariants.{GreenItem, RedItem};
ghost use Rattle.cg_client.specs.declared.parts.DraftParts.{DraftParts};
ghost use Rattle.cg_client.specs.Drafts.{turn_with};
ghost use Rattle.cg_client.specs.Replica.{State};
ghost use Rattle.cg_client.specs.Requests.{request};
ghost use Rattle.cg_client.specs.Calls.{kind_of, IsLineGreen};
ghost use Rattle.cg_client.specs.Whitening.{with_white};
ghost use Rattle.cg_states.specs.ExchangeActions.{progress, take_item, go_on, exchange_actions_on_item};
ghost use Rattle.cg_exchange.specs.States.{in_actions};
ghost use Rattle.cg_exchange.specs.Steps.{turn_after, HasRecord};
ghost use Rattle.cg_states.specs.ReplicaStep.{on_message};
ghost use Rattle.cg_states.specs.Hearing.{hear_delivery};
ghost use Rattle.cg_client.specs.Replica.{ExchangeActions as ExchangeActionsState};

use crate::plan_end::end_plan;
use crate::sending::send_turn;
use crate::{ExchangeStep, NonPrim};
use cg_action::Action;
use cg_base::{ActionId, NoMemory, ReplicaId, Row};
use cg_client::{Core, Draft, Request};
use cg_encoded::DeliveredMsg;
use cg_group::Delivery;
use cg_knowledge::{Summary, gone};
use cg_plan::{Item, Plan};
use cg_report::StateName;
use cg_wire::Msg;
use std::marker::Model;

/// A member that follows the plan of the summaries. Clauses see what it holds, the configuration, the summaries, and how
/// many items were accepted.
#[derive(Drop)]
pub struct ExchangeActions {
    core: Core,
    conf: u64,
    summaries: Row<Summary>,
    plan: Plan,
}

impl Model for ExchangeActions {
    ghost use Rattle.std.specs.Prelude.{◌≡◌};
    ghost use Rattle.cg_plan.specs.Plan.{plan_of};
    ghost use Rattle.cg_exchange.specs.States.{Following};

    ghost Value = { Following };

    ghost view = { λ s. record { held = s.core; conf = s.conf; summaries = s.summaries; accepted = s.plan.accepted } };

    ghost invariant = { λ s. s.plan.turns ≡ plan_of s.summaries };
}

fn name_of(a: &Action) -> ActionId
    ensures { result ≡ a.now.id }
{
    a.id
}

// a green item becomes green at its place; a member that has left ignores what it holds
fn take_green(
    core: &mut Core,
    draft: &mut Draft,
    summaries: &[Summary],
    at: u64,
    a: &Action,
) -> Result<(), NoMemory>
    requires { IsAction a.now }
    ensures { OnOk result ((state : State) → turn_with core.new state draft.new ≡
        take_item (turn_with core.old state draft.old) summaries.now (GreenItem at a.now)) }
{
    if gone(summaries).contains(core.id()) {
        return Ok(());
    }
    let copy = a.copy(core.alloc())?;
    core.mark_green_at(draft, at, copy)
}

// a red item becomes red; a member that has left ignores what it holds
fn take_red(
    core: &mut Core,
    draft: &mut Draft,
    summaries: &[Summary],
    a: &Action,
) -> Result<(), NoMemory>
    requires { IsAction a.now }
    ensures { OnOk result ((state : State) →
        turn_with core.new state draft.new ≡ take_item (turn_with core.old state draft.old) summaries.now
        (RedItem a.now)) }
{
    if gone(summaries).contains(core.id()) {
        return Ok(());
    }
    let copy = a.copy(core.alloc())?;
    core.mark_red(draft, copy)
}

impl ExchangeActions {
    /// So many items of the plan were accepted: the member sends its part where its turn has come, and the plan may be at
    /// its end.
    #[tactic(auto, unfolding(cg_states::specs::ExchangeActions::go_on))]
    pub(crate) fn follow(
        core: Core,
        draft: &mut Draft,
        conf: u64,
        summaries: Row<Summary>,
        plan: Plan,
    ) -> Result<ExchangeStep, NoMemory>
        requires { plan.turns ≡ plan_of summaries }
        ensures turn { IfOk result (λ step. (state : State) →
            turn_after step draft.new ≡ go_on (turn_with core state draft.old) conf summaries plan.accepted) }
        ensures record { IfOk result HasRecord }
    {
        send_turn(&core, draft, plan.turn(core.id()))?;
        if !plan.done() {
            return Ok(ExchangeStep::Actions(ExchangeActions {
                core,
                conf,
                summaries,
                plan,
            }));
        }
        end_plan(core, draft, conf, summaries.as_slice())
    }

    /// One delivery.
    #[tactic(auto, unfolding(cg_states::specs::ReplicaStep::on_transitional, cg_states::specs::ReplicaStep::on_regular))]
    pub fn deliver(
        self,
        draft: &mut Draft,
        d: &Delivery<DeliveredMsg>,
    ) -> Result<ExchangeStep, NoMemory>
        ensures turn { IfOk result (λ step. turn_after step draft.new ≡
            hear_delivery (in_actions self draft.old) d.now) }
        ensures record { IfOk result HasRecord }
    {
        match d {
            Delivery::Message { from, bytes, .. } => match bytes.message() {
                Some(message) => self.hear(draft, *from, message),
                None => Ok(ExchangeStep::Actions(self)),
            },
            Delivery::Transitional { .. } => {
                let ExchangeActions { core, .. } = self;
                Ok(ExchangeStep::Non(NonPrim::of(core, false)))
            }
            Delivery::Regular { .. } => Ok(ExchangeStep::Actions(self)),
        }
    }

    #[tactic(auto, unfolding(cg_states::specs::ReplicaStep::on_message))]
    fn hear(
        self,
        draft: &mut Draft,
        from: ReplicaId,
        message: &Msg,
    ) -> Result<ExchangeStep, NoMemory>
        requires { IsMsg message.now }
        ensures turn { IfOk result (λ step. turn_after step draft.new ≡
            on_message (ExchangeActionsState self.conf self.summaries self.accepted) from message.now
            (in_actions self draft.old)) }
        ensures record { IfOk result HasRecord }
    {
        match message {
            Msg::GreenItem { at, action } => self.hear_green(draft, from, *at, action),
            Msg::RedItem(action) => self.hear_red(draft, from, action),
            _ => Ok(ExchangeStep::Actions(self)),
        }
    }

    // the item is the plan's next one, from its sender; then the plan is one item further
    fn accepts(&mut self, from: ReplicaId, item: &Item) -> bool
        ensures value { result ≡ is_wanted (next_item (progress self.old.summaries self.old.accepted)) from item.now }
        ensures rest { self.new ≡ record self.old {
          accepted = if result then suc self.old.accepted
              else self.old.accepted;
        } }
    {
        self.plan.accept(from, item).is_ok()
    }

    fn hear_green(
        mut self,
        draft: &mut Draft,
        from: ReplicaId,
        at: u64,
        action: &Action,
    ) -> Result<ExchangeStep, NoMemory>
        requires { IsAction action.now }
        ensures turn { IfOk result (λ step. turn_after step draft.new ≡
            exchange_actions_on_item (in_actions self draft.old) self.conf self.summaries self.accepted
            from (GreenItem at action.now)) }
        ensures record { IfOk result HasRecord }
    {
        if !self.accepts(from, &Item::Green { at }) {
            return Ok(ExchangeStep::Actions(self));
        }
        let ExchangeActions {
            mut core,
            conf,
            summaries,
            plan,
        } = self;
        take_green(&mut core, draft, summaries.as_slice(), at, action)?;
        ExchangeActions::follow(core, draft, conf, summaries, plan)
    }

    fn hear_red(
        mut self,
        draft: &mut Draft,
        from: ReplicaId,
        action: &Action,
    ) -> Result<ExchangeStep, NoMemory>
        requires { IsAction action.now }
        ensures turn { IfOk result (λ step. turn_after step draft.new ≡
            exchange_actions_on_item (in_actions self draft.old) self.conf self.summaries self.accepted
            from (RedItem action.now)) }
        ensures record { IfOk result HasRecord }
    {
        let id = name_of(action);
        if !self.accepts(from, &Item::Red { id }) {
            return Ok(ExchangeStep::Actions(self));
        }
        let ExchangeActions {
            mut core,
            conf,
            summaries,
            plan,
        } = self;
        take_red(&mut core, draft, summaries.as_slice(), action)?;
        ExchangeActions::follow(core, draft, conf, summaries, plan)
    }

    /// A request is kept.
    pub fn request(mut self, r: Request) -> Result<ExchangeActions, NoMemory>
        requires { IsKind (kind_of r) }
        ensures { IfOk result (λ s. (draft : DraftParts) →
            in_actions s draft ≡ request (in_actions self draft) (kind_of r)) }
    {
        self.core.keep(r.into_kind())?;
        Ok(self)
    }

    pub fn name(&self) -> StateName
        ensures { result ≡ ExchangeActionsName }
    {
        StateName::ExchangeActions
    }

    /// The white count rises to the white line. It takes no memory.
    pub fn whiten(&mut self)
        requires { IsLineGreen self.old.held }
        ensures { self.new ≡ record self.old { held = with_white self.old.held } }
    {
        self.core.whiten();
    }

    /// What it holds.
    pub fn core(&self) -> &Core
        ensures { result.now ≡ self.now.held }
    {
        &self.core
    }
}
