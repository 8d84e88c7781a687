//! A member's part of the plan is sent: those items of it whose actions are kept.
ghost use Rattle.std.specs.Prelude.{◌≡◌, ◌++◌, ◌+◌, flat_map, map, OnOk};
ghost use Rattle.std.specs.Option.{option_to_list};
ghost use Rattle.cg_base.specs.Lists.{above_up_to};
ghost use Rattle.cg_plan.specs.Items.{red_item};
ghost use Rattle.cg_plan.specs.declared.parts.Item.TheVariants.{Green, Red};
ghost use Rattle.cg_client.specs.Drafts.{turn_with};
ghost use Rattle.cg_client.specs.Replica.{State};
ghost use Rattle.cg_states.specs.ExchangeActions.{message_of, messages_in_part, send_part};

use cg_base::{ActionId, NoMemory, ReplicaId};
use cg_client::{Core, Draft};
use cg_plan::Part;
use cg_wire::Msg;

fn push_green(core: &Core, draft: &mut Draft, at: u64) -> Result<(), NoMemory>
    ensures sent { OnOk result (draft.new.sent ≡ draft.old.sent
        ++ option_to_list (message_of core.now.queue (Green at))) }
    ensures rest { OnOk result (draft.new ≡ record draft.old { sent = draft.new.sent }) }
{
    match core.green_at(at) {
        Some(a) => {
            let action = a.copy(core.alloc())?;
            draft.send(Msg::GreenItem { at, action })
        }
        None => Ok(()),
    }
}

fn push_red(core: &Core, draft: &mut Draft, id: ActionId) -> Result<(), NoMemory>
    ensures sent { OnOk result (draft.new.sent ≡ draft.old.sent
        ++ option_to_list (message_of core.now.queue (Red id))) }
    ensures rest { OnOk result (draft.new ≡ record draft.old { sent = draft.new.sent }) }
{
    match core.get(id) {
        Some(a) => draft.send(Msg::RedItem(a.copy(core.alloc())?)),
        None => Ok(()),
    }
}

// the green items above a place up to another
fn push_greens(core: &Core, draft: &mut Draft, low: u64, to: u64) -> Result<(), NoMemory>
    ensures sent { OnOk result (draft.new.sent ≡ draft.old.sent
        ++ flat_map (λ item. option_to_list (message_of core.now.queue item)) (map Green (above_up_to low to))) }
    ensures rest { OnOk result (draft.new ≡ record draft.old { sent = draft.new.sent }) }
{
    let count = to.saturating_sub(low);
    for i in 0..count {
        push_green(core, draft, low + i + 1)?;
    }
    Ok(())
}

// a creator's red items above an index up to another
fn push_reds(
    core: &Core,
    draft: &mut Draft,
    creator: ReplicaId,
    low: u64,
    to: u64,
) -> Result<(), NoMemory>
    ensures sent { OnOk result (draft.new.sent ≡ draft.old.sent
        ++ flat_map (λ item. option_to_list (message_of core.now.queue item))
        (map (red_item creator) (above_up_to low to))) }
    ensures rest { OnOk result (draft.new ≡ record draft.old { sent = draft.new.sent }) }
{
    let count = to.saturating_sub(low);
    for i in 0..count {
        push_red(
            core,
            draft,
            ActionId {
                creator,
                index: low + i + 1,
            },
        )?;
    }
    Ok(())
}

fn push_part(core: &Core, draft: &mut Draft, part: &Part) -> Result<(), NoMemory>
    ensures sent { OnOk result (draft.new.sent ≡ draft.old.sent ++ messages_in_part core.now.queue part.now) }
    ensures rest { OnOk result (draft.new ≡ record draft.old { sent = draft.new.sent }) }
{
    match part {
        Part::Greens { from, to } => push_greens(core, draft, (*from).saturating_sub(1), *to),
        Part::Reds { creator, from, to } => {
            push_reds(core, draft, *creator, (*from).saturating_sub(1), *to)
        }
    }
}

/// The part whose turn has come is sent, where there is one.
#[tactic(auto, unfolding(cg_states::specs::ExchangeActions::send_part))]
pub(crate) fn send_turn(core: &Core, draft: &mut Draft, part: Option<Part>) -> Result<(), NoMemory>
    ensures { OnOk result ((state : State) →
        turn_with core.now state draft.new ≡ send_part (turn_with core.now state draft.old) part) }
{
    match part {
        Some(part) => push_part(core, draft, &part),
        None => Ok(()),
    }
}
