//! Lists of actions and of names, from the actions that are known.
ghost use Rattle.std.specs.Prelude.{◌≡◌, ◌++◌, ◌∷◌, [], filter, not, OnOk, IfOk};
ghost use Rattle.std.specs.Option.{option_to_list};
ghost use Rattle.cg_base.specs.Ids.{has_name};
ghost use Rattle.cg_action.specs.ActionLimits.{IsAction};
ghost use Rattle.cg_queue.specs.Queue.{action_of, names_of};
ghost use Rattle.cg_client.specs.Chosen.{actions_named, plain_reds};

use crate::checked_queue::CheckedQueue;
use crate::marking::name_of;
use cg_action::{Action, Limited};
use cg_base::{ActionId, IdList, IdRuns, NoMemory, Row};
use std::alloc::Global;

/// The kept actions of these names, in the order of the names.
pub fn actions_named(
    alloc: Global,
    queue: &CheckedQueue,
    ids: &[ActionId],
) -> Result<Limited<Action>, NoMemory>
    ensures { IfOk result (λ list. list ≡ actions_named queue.now ids.now) }
{
    let mut list = Limited::new(alloc);
    for id in ids {
        push_named(alloc, queue, *id, &mut list)?;
    }
    Ok(list)
}

fn push_named(
    alloc: Global,
    queue: &CheckedQueue,
    id: ActionId,
    list: &mut Limited<Action>,
) -> Result<(), NoMemory>
    ensures { OnOk result (list.new ≡ list.old ++ option_to_list (action_of queue.now id)) }
{
    match queue.get(id) {
        Some(a) => list.push(a.copy(alloc)?),
        None => Ok(()),
    }
}

/// The reds whose names aren't yellow come behind the others, by name.
pub fn add_plain_reds(queue: &CheckedQueue, list: &mut Limited<Action>) -> Result<(), NoMemory>
    ensures { OnOk result (list.new ≡ list.old ++ plain_reds queue.now) }
{
    let reds = queue.reds()?;
    for a in reds.into_vec() {
        push_plain(queue, a, list)?;
    }
    Ok(())
}

fn push_plain(queue: &CheckedQueue, a: Action, list: &mut Limited<Action>) -> Result<(), NoMemory>
    requires { IsAction a }
    ensures { OnOk result (list.new ≡ list.old ++ filter (λ a. not (has_name queue.now.yellow a.id)) (a ∷ [])) }
{
    if queue.is_yellow(name_of(&a)) {
        return Ok(());
    }
    list.push(a)
}

/// The names of the reds that aren't yellow, in their order.
pub fn plain_names(queue: &CheckedQueue) -> Result<IdRuns, NoMemory>
    ensures { IfOk result (λ ids. ids ≡ names_of (plain_reds queue.now)) }
{
    queue.plain_red_names()
}

/// The names of these actions.
pub fn names_of(alloc: Global, actions: &[Action]) -> Result<IdList, NoMemory>
    ensures { IfOk result (λ ids. ids ≡ names_of actions.now) }
{
    let mut ids = Row::new(alloc);
    for a in actions {
        ids.push(a.id)?;
    }
    Ok(ids)
}
