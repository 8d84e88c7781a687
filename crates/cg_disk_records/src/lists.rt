//! Lists of actions and of their names in bytes.

ghost use Rattle.std.specs.Prelude.{◌≡◌, ◌++◌, flat_map, OnOk, OnErr};
ghost use Rattle.cg_base.specs.Fronts.{KeepsFront};
ghost use Rattle.cg_codec.specs.Fields.{list, spelled_id};
ghost use Rattle.cg_codec.specs.Taking.{unread_of, TakesWithMemory};
ghost use Rattle.cg_base.specs.Lists.{Each};
ghost use Rattle.cg_action.specs.ActionLimits.{IsAction, IsActionId};
ghost use Rattle.cg_action.specs.Bytes.{spelled_action};
ghost use Rattle.cg_disk_records.specs.Limits.{IsShort, AreActions};
ghost use Rattle.cg_disk_records.specs.Reading.{actions_reading};

use cg_action::{Action, ActionList, put_action, take_action};
use cg_base::{ActionId, NoMemory, Row};
use cg_codec::{CodecFault, Fields, put_action_id, put_u32};
use std::alloc::Global;

// No action has fewer bytes. The number in front of a list may be wrong, and then there is no room for so many.
const SHORTEST: usize = 19;

/// Takes actions, in any order: how many, and these.
#[tactic(auto, unfolding(crate::specs::Reading::actions_reading))]
pub fn take_actions(alloc: Global, fields: &mut Fields<'_>) -> Result<ActionList, CodecFault>
    ensures { TakesWithMemory (λ l. l) actions_reading (unread_of fields.old) (unread_of fields.new) result }
{
    let mut after = *fields;
    let count = after.take_count(u32::MAX)?;
    let room = (count as usize).min(after.left() / SHORTEST);
    let mut actions = Row::with_capacity(alloc, room)?;
    for _ in 0..count {
        actions.push(take_action(alloc, &mut after)?)?;
    }
    *fields = after;
    Ok(actions)
}

/// Puts two lists of actions at the end, as one.
pub fn put_actions(out: &mut Vec<u8>, first: &[Action], others: &[Action]) -> Result<(), NoMemory>
    requires { AreActions (first.now ++ others.now) }
    ensures ok { OnOk result (out.new.items ≡ out.old.items ++ list spelled_action (first.now ++ others.now)) }
    ensures err { OnErr result (out.new.items ≡ out.old.items) }
{
    let before = out.len();
    let put = write_actions(out, first, others);
    if put.is_err() {
        out.truncate(before);
    }
    put
}

/// Puts names of actions at the end.
pub(crate) fn put_ids(out: &mut Vec<u8>, ids: &[ActionId]) -> Result<(), NoMemory>
    requires short { IsShort ids.now }
    requires each { Each IsActionId ids.now }
    ensures ok { OnOk result (out.new.items ≡ out.old.items ++ list spelled_id ids.now) }
    ensures err { OnErr result (out.new.items ≡ out.old.items) }
{
    let before = out.len();
    let put = write_ids(out, ids);
    if put.is_err() {
        out.truncate(before);
    }
    put
}

// Each of these leaves what was there in front of what it wrote before memory was refused.

fn write_actions(out: &mut Vec<u8>, first: &[Action], others: &[Action]) -> Result<(), NoMemory>
    requires { AreActions (first.now ++ others.now) }
    ensures ok { OnOk result (out.new.items ≡ out.old.items ++ list spelled_action (first.now ++ others.now)) }
    ensures err { OnErr result (KeepsFront out.old.items out.new.items) }
{
    put_u32(out, (first.len() + others.len()) as u32)?;
    write_each(out, first)?;
    write_each(out, others)
}

// actions without their number
fn write_each(out: &mut Vec<u8>, actions: &[Action]) -> Result<(), NoMemory>
    requires { Each IsAction actions.now }
    ensures ok { OnOk result (out.new.items ≡ out.old.items ++ flat_map spelled_action actions.now) }
    ensures err { OnErr result (KeepsFront out.old.items out.new.items) }
{
    for action in actions {
        put_action(out, action)?;
    }
    Ok(())
}

fn write_ids(out: &mut Vec<u8>, ids: &[ActionId]) -> Result<(), NoMemory>
    requires short { IsShort ids.now }
    requires each { Each IsActionId ids.now }
    ensures ok { OnOk result (out.new.items ≡ out.old.items ++ list spelled_id ids.now) }
    ensures err { OnErr result (KeepsFront out.old.items out.new.items) }
{
    put_u32(out, ids.len() as u32)?;
    for id in ids {
        put_action_id(out, id)?;
    }
    Ok(())
}
