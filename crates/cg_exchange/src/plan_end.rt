//! The end of a plan: what a member takes over, and whether an attempt begins.
ghost use Rattle.std.specs.Prelude.{◌≡◌, filter, true, OnOk, IfOk};
ghost use Rattle.cg_base.specs.Ids.{has_name};
ghost use Rattle.cg_queue.specs.Answers.{AreReds};
ghost use Rattle.cg_queue.specs.Distinct.{is_distinct};
ghost use Rattle.cg_queue.specs.Queue.{names_of};
ghost use Rattle.cg_knowledge.specs.Verdict.{decides};
ghost use Rattle.cg_knowledge.specs.Calls.{verdict_of};
ghost use Rattle.cg_client.specs.Drafts.{turn_with};
ghost use Rattle.cg_client.specs.Replica.{State};
ghost use Rattle.cg_states.specs.PlanEnd.{with_name, usable_names, take_over, attempt, decide, end_plan};
ghost use Rattle.cg_exchange.specs.Steps.{turn_after, HasRecord};

use crate::{ExchangeStep, NonPrim};
use cg_base::{ActionId, IdList, NoMemory, Row};
use cg_client::{Core, Draft};
use cg_knowledge::{Summary, Verdict, decide, decided, remaining};
use cg_queue::is_distinct;
use cg_records::Yellow;
use cg_wire::Msg;

fn stands_in(list: &[ActionId], id: &ActionId) -> bool
    ensures { result ≡ has_name list.now id.now }
{
    list.iter().any(|other| *id == *other)
}

// the name comes behind the others, where it is one of a red action and doesn't stand there already
fn push_name(core: &Core, list: &mut IdList, id: &ActionId) -> Result<(), NoMemory>
    ensures { OnOk result (list.new ≡ with_name core.now.queue list.old id.now) }
{
    if core.is_red(*id) && !stands_in(list.as_slice(), id) {
        list.push(*id)?;
    }
    Ok(())
}

#[tactic(auto, unfolding(cg_states::specs::PlanEnd::usable_names))]
fn names_once(core: &Core, ids: &[ActionId]) -> Result<IdList, NoMemory>
    ensures { IfOk result (λ list. list ≡ usable_names core.now.queue ids.now) }
{
    let mut list = Row::new(core.alloc());
    for id in ids {
        push_name(core, &mut list, id)?;
    }
    Ok(list)
}

fn red_names(core: &Core, ids: &[ActionId]) -> Result<IdList, NoMemory>
    ensures { IfOk result (λ list. list ≡ filter (has_name (names_of core.now.queue.reds)) ids.now) }
{
    let mut list = Row::new(core.alloc());
    for id in ids {
        if core.is_red(*id) {
            list.push(*id)?;
        }
    }
    Ok(list)
}

fn usable_names(core: &Core, ids: &[ActionId]) -> Result<IdList, NoMemory>
    ensures value { IfOk result (λ list. list ≡ usable_names core.now.queue ids.now) }
    ensures reds { IfOk result (λ list. AreReds core.now.queue list) }
    ensures distinct { IfOk result (λ list. is_distinct list ≡ true) }
{
    // of names that are distinct already none needs to be looked for
    if is_distinct(ids) {
        return red_names(core, ids);
    }
    names_once(core, ids)
}

#[tactic(auto, unfolding(cg_states::specs::PlanEnd::take_over, cg_knowledge::specs::Calls::verdict_of))]
fn take_over(mut core: Core, summaries: &[Summary], verdict: Verdict) -> Result<Core, NoMemory>
    requires { verdict ≡ verdict_of summaries.now }
    ensures { IfOk result (λ after. after ≡ take_over core summaries.now) }
{
    let known = core.vulnerable();
    let stays = decided(summaries, &known);
    let list = usable_names(&core, verdict.yellow.list.as_slice())?;
    let yellow = Yellow {
        valid: verdict.yellow.valid,
        list,
    };
    core.take_over(verdict.prim, verdict.attempt_index, stays, &yellow)?;
    Ok(core)
}

// the attempt is recorded and announced
#[tactic(auto, unfolding(cg_states::specs::PlanEnd::attempt))]
fn attempt(
    mut core: Core,
    draft: &mut Draft,
    conf: u64,
    summaries: &[Summary],
) -> Result<ExchangeStep, NoMemory>
    ensures turn { IfOk result (λ step. (state : State) →
        turn_after step draft.new ≡ attempt (turn_with core state draft.old) conf summaries.now) }
    ensures record { IfOk result HasRecord }
{
    core.begin_attempt(conf, remaining(summaries))?;
    let id = core.id();
    id.holds();
    draft.send(Msg::Cpc { id, conf })?;
    Ok(ExchangeStep::Attempt { core, conf })
}

// with a quorum an attempt begins; without one the replica is in no primary component
#[tactic(auto, unfolding(cg_states::specs::PlanEnd::decide))]
fn decide_on(
    core: Core,
    draft: &mut Draft,
    conf: u64,
    summaries: &[Summary],
    quorum: bool,
) -> Result<ExchangeStep, NoMemory>
    requires { quorum ≡ decides summaries.now }
    ensures turn { IfOk result (λ step. (state : State) →
        turn_after step draft.new ≡ decide (turn_with core state draft.old) conf summaries.now) }
    ensures record { IfOk result HasRecord }
{
    if !quorum {
        return Ok(ExchangeStep::Non(NonPrim::of(core, true)));
    }
    attempt(core, draft, conf, summaries)
}

/// The plan has come to its end.
#[tactic(auto, unfolding(cg_states::specs::PlanEnd::end_plan, cg_knowledge::specs::Calls::verdict_of))]
pub(crate) fn end_plan(
    mut core: Core,
    draft: &mut Draft,
    conf: u64,
    summaries: &[Summary],
) -> Result<ExchangeStep, NoMemory>
    ensures turn { IfOk result (λ step. (state : State) →
        turn_after step draft.new ≡ end_plan (turn_with core state draft.old) conf summaries.now) }
    ensures record { IfOk result HasRecord }
{
    let verdict = decide(core.alloc(), summaries)?;
    if verdict.gone.contains(core.id()) {
        core.empty_buffer();
        return Ok(ExchangeStep::Gone(core));
    }
    let quorum = verdict.quorum;
    let core = take_over(core, summaries, verdict)?;
    decide_on(core, draft, conf, summaries, quorum)
}
