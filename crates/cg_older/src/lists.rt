//! Lists of actions, as the older format has them, and of their names.

ghost use Rattle.std.specs.Prelude.{◌≡◌};
ghost use Rattle.std.specs.List.{list_any};
ghost use Rattle.cg_codec.specs.Taking.{unread_of, TakesWithMemory};
ghost use Rattle.cg_disk_records.specs.Reading.{ids_reading};
ghost use Rattle.cg_older.specs.Reading.{old_actions_reading};
ghost use Rattle.cg_older.specs.Weights.{is_heavy_join};

use cg_action::{Action, ActionList, Kind, take_action_id};
use cg_base::IdList;
use cg_codec::{CodecFault, Fields};
use cg_disk_records::take_actions;
use std::alloc::Global;

/// Takes actions, in any order, among which there is no join with a weight.
#[tactic(auto, unfolding(crate::specs::Reading::old_actions_reading))]
pub(crate) fn take_old_actions(
    alloc: Global,
    fields: &mut Fields<'_>,
) -> Result<ActionList, CodecFault>
    ensures { TakesWithMemory (λ l. l) old_actions_reading (unread_of fields.old) (unread_of fields.new) result }
{
    let mut after = *fields;
    let actions = take_actions(alloc, &mut after)?;
    if has_heavy_join(actions.as_slice()) {
        return Err(fields.bad());
    }
    *fields = after;
    Ok(actions)
}

/// Takes names of actions, in any order.
#[tactic(auto, unfolding(cg_disk_records::specs::Reading::ids_reading))]
pub(crate) fn take_ids(alloc: Global, fields: &mut Fields<'_>) -> Result<IdList, CodecFault>
    ensures { TakesWithMemory (λ l. l) ids_reading (unread_of fields.old) (unread_of fields.new) result }
{
    let mut after = *fields;
    let count = after.take_count(u32::MAX)?;
    let mut ids = IdList::new(alloc);
    'names: for _ in 0..count {
        let id = take_action_id(&mut after)?;
        ids.push(id)?;
    }
    *fields = after;
    Ok(ids)
}

fn has_heavy_join(actions: &[Action]) -> bool
    ensures { result ≡ list_any is_heavy_join actions.now }
{
    for action in actions {
        if is_heavy_join(action) {
            return true;
        }
    }
    false
}

/// The action is the join of a server with a weight above 1.
pub(crate) fn is_heavy_join(action: &Action) -> bool
    ensures { result ≡ is_heavy_join action.now }
{
    match action.kind.get() {
        Kind::Join(_, weight) => *weight > 1,
        _ => false,
    }
}
