//! What a mark makes of the actions that are known and of the own ones.
ghost use Rattle.std.specs.Prelude.{◌≡◌, ◌<◌, ◌++◌, suc, OnOk};
ghost use Rattle.cg_base.specs.declared.limits.TheConstants.{COUNT_LIMIT};
ghost use Rattle.cg_base.specs.Cuts.{index_in};
ghost use Rattle.cg_action.specs.ActionLimits.{IsAction};
ghost use Rattle.cg_queue.specs.Queue.{green_count, placed_red, placed_green};
ghost use Rattle.cg_client.specs.Chosen.{unknown_in};
ghost use Rattle.cg_client.specs.Own.{after_first, last_index};

use crate::checked_queue::CheckedQueue;
use crate::own::Own;
use cg_action::{Action, Limited};
use cg_base::{ActionId, NoMemory};
use cg_queue::QueueFault;
use std::alloc::Global;

/// The name of an action.
pub fn name_of(a: &Action) -> ActionId
    ensures { result ≡ a.now.id }
{
    a.id
}

/// The index of the last own action, 0 where there is none.
pub fn last_index(own: &Own) -> u64
    ensures { result ≡ last_index own.now }
{
    match own.last() {
        Some(a) => a.id.index,
        None => 0,
    }
}

/// The first own action is waited for no more where it has this name.
pub fn drop_own(own: &mut Own, id: &ActionId)
    ensures { own.new ≡ after_first own.old id.now }
{
    let is_first = match own.first() {
        Some(a) => a.id == *id,
        None => false,
    };
    if is_first {
        own.drop_first();
    }
}

/// The action is one more of those that are newly known, where it wasn't known.
pub fn note_unknown(
    alloc: Global,
    queue: &CheckedQueue,
    known: &mut Limited<Action>,
    a: &Action,
) -> Result<(), NoMemory>
    requires { IsAction a.now }
    ensures { OnOk result (known.new ≡ known.old ++ unknown_in queue.now a.now) }
{
    if queue.red_index(a.id.creator) < a.id.index {
        known.push(a.copy(alloc)?)?;
    }
    Ok(())
}

/// Marks an action red, the next of its creator.
pub fn put_red(queue: &mut CheckedQueue, a: Action) -> Result<(), NoMemory>
    requires action { IsAction a }
    requires next { a.id.index ≡ suc (index_in queue.old.red_cut a.id.creator) }
    ensures { OnOk result (queue.new ≡ placed_red queue.old a) }
{
    match queue.mark_red(a) {
        Ok(_) => Ok(()),
        Err(QueueFault::NoMemory) => Err(NoMemory),
        Err(QueueFault::Gap { .. }) => unreachable!(),
    }
}

/// Marks an action green at the next place, the next green one of its creator.
pub fn put_green(queue: &mut CheckedQueue, at: u64, a: Action) -> Result<(), NoMemory>
    requires action { IsAction a }
    requires place { at ≡ suc (green_count queue.old) }
    requires few { green_count queue.old < COUNT_LIMIT }
    requires next { a.id.index ≡ suc (index_in queue.old.green_cut a.id.creator) }
    ensures { OnOk result (queue.new ≡ placed_green queue.old a) }
{
    match queue.mark_green(at, a) {
        Ok(_) => Ok(()),
        Err(QueueFault::NoMemory) => Err(NoMemory),
        Err(QueueFault::Gap { .. }) => unreachable!(),
    }
}
