//! The changes behind a checkpoint, put into what a replica holds.
ghost use Rattle.std.specs.Prelude.{◌≡◌, ◌≢◌, ◌==◌, ◌&&◌, suc, true, false, IfOk, OnOk};
ghost use Rattle.cg_client.specs.Replica.{created};
ghost use Rattle.std.specs.List.{list_all};
ghost use Rattle.cg_action.specs.ActionLimits.{IsAction};
ghost use Rattle.cg_base.specs.Ids.{has_name};
ghost use Rattle.cg_client.specs.Marks.{is_first};
ghost use Rattle.cg_client.specs.Calls.{IsLineGreen};
ghost use Rattle.cg_queue.specs.Queue.{names_of};
ghost use Rattle.cg_codec.specs.Taking.{unread_of, TakesWithMemory};
ghost use Rattle.cg_action.specs.Reading.{action_reading, id_reading};
ghost use Rattle.cg_codec.specs.declared.fault.CodecFault.TheVariants.{NoMemory as OutOfMemory};
ghost use Rattle.cg_disk_records.specs.Following.{fits_known, know, green_by_name, make, are_yellow, put_values, with_values};
ghost use Rattle.cg_disk_records.specs.Holds.{Holds};
ghost use Rattle.cg_store.specs.Stands.{led_by};
ghost use Rattle.cg_store.specs.Opening.{Follows};
ghost use Rattle.cg_store.specs.Putting.{item_reading, list_reading, item_step, PutsAll, PutsNext};
ghost use Rattle.cg_store.specs.Repeating.{IsRecent};

use crate::last_values::LastValues;
use cg_action::{Action, actions_are_exact, take_action, take_action_id};
use cg_base::{ActionId, NoMemory};
use cg_client::Core;
use cg_codec::{CodecFault, Fields};
use cg_disk_records::what_is_held_agrees;
use cg_queue::{is_distinct, is_next};
use cg_records::Stable;
use std::alloc::Global;

/// Puts a record into what the replica holds, where it is a change that fits. Each of its actions is put in as it is read, so
/// that no list of them is made; where the record doesn't fit, some of them have been.
#[tactic(auto, unfolding(cg_disk_records::specs::Parts::change_in))]
pub(crate) fn follow<'a>(
    alloc: Global,
    core: &mut Core,
    recent: &mut LastValues<'a>,
    body: &'a [u8],
) -> Result<bool, NoMemory>
    requires holds { Holds core.old }
    requires recent { IsRecent recent.old }
    ensures recent { IsRecent recent.new }
    ensures follows { IfOk result (Follows (led_by core.old body.now) core.new) }
    ensures holds { IfOk result (λ fits. fits ≡ true → Holds core.new) }
{
    what_is_held_agrees();
    let mut fields = match recent.take(alloc, body) {
        Ok(fields) => fields,
        Err(fault) => return refused(fault),
    };
    if !put_all(ChangeList::Known, alloc, core, &mut fields)? {
        return Ok(false);
    }
    if !put_all(ChangeList::Green, alloc, core, &mut fields)? {
        return Ok(false);
    }
    if !put_all(ChangeList::Made, alloc, core, &mut fields)? {
        return Ok(false);
    }
    match fields.finish() {
        Ok(()) => put_values(core, &recent.values),
        Err(_) => Ok(false),
    }
}

// bytes at fault fit nowhere
fn refused(fault: CodecFault) -> Result<bool, NoMemory>
    ensures { IfOk result (λ fits. (fits ≡ false) × (fault ≢ OutOfMemory)) }
{
    match fault.number() {
        Some(_) => Ok(false),
        None => Err(NoMemory),
    }
}

/// The lists of a change.
#[derive(Clone, Copy)]
pub(crate) enum ChangeList {
    /// Actions that are red now.
    Known,
    /// Names of red actions that are green now.
    Green,
    /// Actions of the replica itself.
    Made,
}

// Each item of this list is put in as it is read.
fn put_all(
    list: ChangeList,
    alloc: Global,
    core: &mut Core,
    fields: &mut Fields<'_>,
) -> Result<bool, NoMemory>
    ensures { IfOk result (PutsAll (list_reading list) (item_step list) core.old (unread_of fields.old)
        core.new (unread_of fields.new)) }
{
    let count = match fields.take_count(u32::MAX) {
        Ok(count) => count,
        Err(fault) => return refused(fault),
    };
    for _ in 0..count {
        if !put_next(list, alloc, core, fields)? {
            return Ok(false);
        }
    }
    Ok(true)
}

fn put_next(
    list: ChangeList,
    alloc: Global,
    core: &mut Core,
    fields: &mut Fields<'_>,
) -> Result<bool, NoMemory>
    ensures { IfOk result (PutsNext (item_reading list) (item_step list) core.old (unread_of fields.old)
        core.new (unread_of fields.new)) }
{
    match list {
        ChangeList::Known => know_next(alloc, core, fields),
        ChangeList::Green => turn_next(core, fields),
        ChangeList::Made => make_next(alloc, core, fields),
    }
}

// an action that is read is within the limits
fn take_one(alloc: Global, fields: &mut Fields<'_>) -> Result<Action, CodecFault>
    ensures read { TakesWithMemory (λ a. a) action_reading (unread_of fields.old) (unread_of fields.new) result }
    ensures within { IfOk result IsAction }
{
    actions_are_exact();
    fields.are_bytes();
    take_action(alloc, fields)
}

fn know_next(alloc: Global, core: &mut Core, fields: &mut Fields<'_>) -> Result<bool, NoMemory>
    ensures { IfOk result (PutsNext action_reading know core.old (unread_of fields.old)
        core.new (unread_of fields.new)) }
{
    match take_one(alloc, fields) {
        Ok(a) => know_one(core, a),
        Err(fault) => refused(fault),
    }
}

fn know_one(core: &mut Core, a: Action) -> Result<bool, NoMemory>
    requires { IsAction a }
    ensures { IfOk result (Follows (know core.old a) core.new) }
{
    if !fits_known(core, &a) {
        return Ok(false);
    }
    core.know(a)?;
    Ok(true)
}

fn fits_known(core: &Core, a: &Action) -> bool
    ensures { result ≡ fits_known core.now a.now }
{
    is_next(a.id.index, core.red_index(a.id.creator))
        && (a.id.creator != core.id() || is_first_own(core, &a.id))
}

// it is the own action that is waited for first
fn is_first_own(core: &Core, id: &ActionId) -> bool
    ensures { result ≡ is_first (names_of core.now.own) id.now }
{
    match core.own_at(0) {
        Some(a) => a.id == *id,
        None => false,
    }
}

fn turn_next(core: &mut Core, fields: &mut Fields<'_>) -> Result<bool, NoMemory>
    ensures { IfOk result (PutsNext id_reading green_by_name core.old (unread_of fields.old)
        core.new (unread_of fields.new)) }
{
    match take_action_id(fields) {
        Ok(id) => turn_one(core, id),
        Err(fault) => refused(fault),
    }
}

fn turn_one(core: &mut Core, id: ActionId) -> Result<bool, NoMemory>
    ensures { IfOk result (Follows (green_by_name core.old id) core.new) }
{
    let Some(a) = core.get(id) else {
        return Ok(false);
    };
    if !is_next(a.id.index, core.green_index(a.id.creator)) {
        return Ok(false);
    }
    let name = a.id;
    core.turn_green(name)?;
    Ok(true)
}

fn make_next(alloc: Global, core: &mut Core, fields: &mut Fields<'_>) -> Result<bool, NoMemory>
    ensures { IfOk result (PutsNext action_reading make core.old (unread_of fields.old)
        core.new (unread_of fields.new)) }
{
    match take_one(alloc, fields) {
        Ok(a) => make_one(core, a),
        Err(fault) => refused(fault),
    }
}

fn make_one(core: &mut Core, a: Action) -> Result<bool, NoMemory>
    requires { IsAction a }
    ensures { IfOk result (Follows (make core.old a) core.new) }
{
    if !fits_made(core, &a) {
        return Ok(false);
    }
    core.make(a)?;
    Ok(true)
}

fn fits_made(core: &Core, a: &Action) -> bool
    ensures { result ≡ ((a.now.id.creator == core.now.id) && (a.now.id.index == suc (created core.now))) }
{
    a.id.creator == core.id() && is_next(a.id.index, core.created())
}

// The new values, where they fit; then the white count rises, and the actions up to it are discarded.
#[tactic(auto, unfolding(cg_disk_records::specs::Stored::whiten))]
fn put_values(core: &mut Core, stable: &Stable) -> Result<bool, NoMemory>
    requires { IsLineGreen core.old }
    ensures { IfOk result (Follows (with_values stable.now core.old) core.new) }
{
    if !values_fit(core, stable) {
        return Ok(false);
    }
    take_values(core, stable)?;
    core.whiten();
    Ok(true)
}

fn values_fit(core: &Core, stable: &Stable) -> bool
    ensures { result ≡ (are_yellow core.now.queue stable.now.yellow.list && (stable.now.created == created core.now)) }
{
    are_yellow(core, stable.yellow.list.as_slice()) && stable.created == core.created()
}

pub(crate) fn take_values(core: &mut Core, stable: &Stable) -> Result<(), NoMemory>
    requires { are_yellow core.old.queue stable.now.yellow.list ≡ true }
    ensures { OnOk result (core.new ≡ put_values core.old stable.now) }
{
    core.take_over(
        stable.prim,
        stable.attempt_index,
        stable.vulnerable,
        &stable.yellow,
    )
}

/// The names are those of red actions, each once.
fn are_yellow(core: &Core, ids: &[ActionId]) -> bool
    ensures { result ≡ are_yellow core.now.queue ids.now }
{
    is_distinct(ids) && are_red(core, ids)
}

fn are_red(core: &Core, ids: &[ActionId]) -> bool
    ensures { result ≡ list_all (has_name (names_of core.now.queue.reds)) ids.now }
{
    for id in ids {
        if !core.is_red(*id) {
            return false;
        }
    }
    true
}
