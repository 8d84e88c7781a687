//! What is shown of a world that stays as it is.
ghost use Rattle.std.specs.Prelude.{◌≡◌, [], ◌∷◌, IfOk};
ghost use Rattle.std.specs.Option.{option_map_or};
ghost use Rattle.cg_client.specs.Queries.{weak_answer, dirty_answer};
ghost use Rattle.cg_report.specs.declared.entry.Shown.TheVariants.{Weak as ShownWeak, Dirty as ShownDirty, All};
ghost use Rattle.cg_schedule.specs.declared.event.Event.TheVariants.{Weak, Dirty, Show, ShowOrder};
ghost use Rattle.cg_model.specs.World.{replica_of};
ghost use Rattle.cg_model.specs.Step.{shown_of};
ghost use Rattle.cg_world_events.specs.StepInProgress.{IsQuiet};
ghost use Rattle.cg_world_events.specs.Happening.{Happens};

use crate::admission::{admit, hidden, takes_part};
use crate::{StepInProgress, WorldState};
use cg_action::Query;
use cg_base::{ActionId, IdList, NoMemory, ReplicaId, Row};
use cg_group::GroupErr;
use cg_report::Shown;
use std::alloc::Global;

// A client asks the replica for the answer of its green actions.
#[tactic(auto, unfolding(cg_model::specs::Admission::first_refusal, cg_model::specs::Step::happens))]
pub(crate) fn weak(
    alloc: Global,
    going: &mut StepInProgress,
    p: ReplicaId,
    query: &Query,
) -> Result<(), GroupErr>
    requires { IsQuiet going.old }
    ensures { Happens going.old (Weak p query.now) going.new result }
{
    admit(takes_part(&going.state, p))?;
    let found = weak_of(alloc, &going.state, p, query)?;
    going.show(found)?;
    Ok(())
}

fn weak_of(
    alloc: Global,
    state: &WorldState,
    p: ReplicaId,
    query: &Query,
) -> Result<Row<Shown>, NoMemory>
    ensures { IfOk result (λ list. list ≡
        option_map_or (λ r. ShownWeak p (weak_answer r.held query.now) ∷ []) (replica_of state.now p) []) }
{
    match state.nodes.find(p) {
        Some(node) => node.shows_weak(alloc, query),
        None => Ok(Row::new(alloc)),
    }
}

// A client asks the replica for the answer of all actions that it knows.
#[tactic(auto, unfolding(cg_model::specs::Admission::first_refusal, cg_model::specs::Step::happens))]
pub(crate) fn dirty(
    alloc: Global,
    going: &mut StepInProgress,
    p: ReplicaId,
    query: &Query,
) -> Result<(), GroupErr>
    requires { IsQuiet going.old }
    ensures { Happens going.old (Dirty p query.now) going.new result }
{
    admit(takes_part(&going.state, p))?;
    let found = dirty_of(alloc, &going.state, p, query)?;
    going.show(found)?;
    Ok(())
}

fn dirty_of(
    alloc: Global,
    state: &WorldState,
    p: ReplicaId,
    query: &Query,
) -> Result<Row<Shown>, NoMemory>
    ensures { IfOk result (λ list. list ≡
        option_map_or (λ r. ShownDirty p (dirty_answer r.held query.now) ∷ []) (replica_of state.now p) []) }
{
    match state.nodes.find(p) {
        Some(node) => node.shows_dirty(alloc, query),
        None => Ok(Row::new(alloc)),
    }
}

// The replica shows its green actions and its database.
#[tactic(auto, unfolding(cg_model::specs::Admission::first_refusal, cg_model::specs::Step::happens))]
pub(crate) fn show(alloc: Global, going: &mut StepInProgress, p: ReplicaId) -> Result<(), GroupErr>
    requires { IsQuiet going.old }
    ensures { Happens going.old (Show p) going.new result }
{
    admit(hidden(&going.state, p))?;
    let found = shown_of(alloc, &going.state, p)?;
    going.show(found)?;
    Ok(())
}

fn shown_of(alloc: Global, state: &WorldState, p: ReplicaId) -> Result<Row<Shown>, NoMemory>
    ensures { IfOk result (λ list. list ≡ option_map_or shown_of (replica_of state.now p) []) }
{
    match state.nodes.find(p) {
        Some(node) => node.shows(alloc),
        None => Ok(Row::new(alloc)),
    }
}

// The global order is shown.
#[tactic(auto, unfolding(cg_model::specs::Admission::first_refusal, cg_model::specs::Step::happens))]
pub(crate) fn show_order(alloc: Global, going: &mut StepInProgress) -> Result<(), GroupErr>
    requires { IsQuiet going.old }
    ensures { Happens going.old ShowOrder going.new result }
{
    let found = whole_order(alloc, going.state.order.as_slice())?;
    going.show(found)?;
    Ok(())
}

fn whole_order(alloc: Global, order: &[ActionId]) -> Result<Row<Shown>, NoMemory>
    ensures { IfOk result (λ list. list ≡ All order.now ∷ []) }
{
    let names = IdList::from_slice(alloc, order)?;
    let mut list = Row::new(alloc);
    list.push(Shown::All(names))?;
    Ok(list)
}
