//! The records of a follower's disk.

ghost use Rattle.std.specs.Prelude.{◌≡◌, ◌<◌, length, IfOk, IfSome, OnOk};
ghost use Rattle.cg_base.specs.declared.limits.TheConstants.{LIST_LIMIT};
ghost use Rattle.cg_codec.specs.Reading.{whole};
ghost use Rattle.cg_codec.specs.Taking.{unread_of, Takes, TakesWithMemory, Decodes};
ghost use Rattle.cg_action.specs.ActionLimits.{IsAction};
ghost use Rattle.cg_db.specs.Limits.{AreEntries};
ghost use Rattle.cg_base.specs.Lists.{Each};
ghost use Rattle.cg_disk_records.specs.Limits.{AreActions, IsDatabase};
ghost use Rattle.cg_follow.specs.Bytes.{spelled_follower, spelled_feed, cursor_reading, follower_reading, feed_reading, follower_in, feed_in};

use crate::followers_are_exact;
use crate::taken::Taken;
use cg_action::{Action, ActionList};
use cg_base::{COUNT_LIMIT, LIST_LIMIT, NoMemory};
use cg_codec::{CodecFault, Fields, put_u64};
use cg_db::Db;
use cg_disk_records::{put_actions, put_entries, take_actions, take_entries};
use std::alloc::Global;

/// The first record: a cursor and a database.
#[tactic(auto, unfolding(crate::specs::Bytes::spelled_follower))]
pub(crate) fn follower_record(alloc: Global, cursor: u64, db: &Db) -> Result<Vec<u8>, NoMemory>
    requires { AreEntries db.now }
    ensures spelled { IfOk result (λ bytes. bytes.items ≡ spelled_follower (record { cursor = cursor; db = db.now })) }
    ensures within { OnOk result (IsDatabase db.now) }
    ensures short { IfOk result (λ bytes. length bytes.items < LIST_LIMIT) }
{
    db.holds();
    if db.count() >= LIST_LIMIT as u64 {
        return Err(NoMemory);
    }
    let mut bytes = Vec::new(alloc);
    put_u64(&mut bytes, cursor)?;
    put_entries(&mut bytes, db)?;
    if bytes.len() >= LIST_LIMIT {
        return Err(NoMemory);
    }
    Ok(bytes)
}

/// The record of a feed: its actions.
#[tactic(auto, unfolding(crate::specs::Bytes::spelled_feed))]
pub(crate) fn feed_record(alloc: Global, actions: &[Action]) -> Result<Vec<u8>, NoMemory>
    requires { Each IsAction actions.now }
    ensures spelled { IfOk result (λ bytes. bytes.items ≡ spelled_feed actions.now) }
    ensures within { OnOk result (AreActions actions.now) }
    ensures short { IfOk result (λ bytes. length bytes.items < LIST_LIMIT) }
{
    if actions.len() >= LIST_LIMIT {
        return Err(NoMemory);
    }
    let mut bytes = Vec::new(alloc);
    put_actions(&mut bytes, &[], actions)?;
    if bytes.len() >= LIST_LIMIT {
        return Err(NoMemory);
    }
    Ok(bytes)
}

/// What all of the bytes spell as a first record, if they spell one.
#[tactic(auto, unfolding(crate::specs::Bytes::follower_in))]
pub(crate) fn read_follower(alloc: Global, bytes: &[u8]) -> Result<Option<Taken>, NoMemory>
    ensures { IfOk result (λ found. found ≡ follower_in bytes.now) }
{
    match decode_follower(alloc, bytes) {
        Ok(taken) => Ok(Some(taken)),
        Err(fault) => match fault.number() {
            Some(_) => Ok(None),
            None => Err(NoMemory),
        },
    }
}

fn decode_follower(alloc: Global, bytes: &[u8]) -> Result<Taken, CodecFault>
    ensures { Decodes (λ taken. taken) (whole follower_reading bytes.now) result }
{
    let mut fields = Fields::new(bytes);
    let taken = take_follower(alloc, &mut fields)?;
    fields.finish()?;
    Ok(taken)
}

#[tactic(auto, unfolding(crate::specs::Bytes::follower_reading))]
fn take_follower(alloc: Global, fields: &mut Fields<'_>) -> Result<Taken, CodecFault>
    ensures { TakesWithMemory (λ taken. taken) follower_reading (unread_of fields.old) (unread_of fields.new) result }
{
    let mut after = *fields;
    let cursor = take_cursor(&mut after)?;
    let db = take_entries(alloc, &mut after)?;
    *fields = after;
    Ok(Taken { cursor, db })
}

#[tactic(auto, unfolding(crate::specs::Bytes::cursor_reading))]
fn take_cursor(fields: &mut Fields<'_>) -> Result<u64, CodecFault>
    ensures { Takes (λ n. n) cursor_reading (unread_of fields.old) (unread_of fields.new) result }
{
    let mut after = *fields;
    let n = after.take_u64()?;
    if n >= COUNT_LIMIT {
        return Err(fields.bad());
    }
    *fields = after;
    Ok(n)
}

/// The actions that all of the bytes spell as a feed, if they spell one.
#[tactic(auto, unfolding(crate::specs::Bytes::feed_in))]
pub(crate) fn read_feed(alloc: Global, bytes: &[u8]) -> Result<Option<ActionList>, NoMemory>
    ensures read { IfOk result (λ found. found ≡ feed_in bytes.now) }
    ensures within { IfOk result (λ found. IfSome found (Each IsAction)) }
{
    followers_are_exact();
    match decode_feed(alloc, bytes) {
        Ok(actions) => Ok(Some(actions)),
        Err(fault) => match fault.number() {
            Some(_) => Ok(None),
            None => Err(NoMemory),
        },
    }
}

fn decode_feed(alloc: Global, bytes: &[u8]) -> Result<ActionList, CodecFault>
    ensures { Decodes (λ l. l) (whole feed_reading bytes.now) result }
{
    let mut fields = Fields::new(bytes);
    let actions = take_feed(alloc, &mut fields)?;
    fields.finish()?;
    Ok(actions)
}

#[tactic(auto, unfolding(crate::specs::Bytes::feed_reading))]
fn take_feed(alloc: Global, fields: &mut Fields<'_>) -> Result<ActionList, CodecFault>
    ensures { TakesWithMemory (λ l. l) feed_reading (unread_of fields.old) (unread_of fields.new) result }
{
    let mut after = *fields;
    let actions = take_actions(alloc, &mut after)?;
    if actions.is_empty() {
        return Err(fields.bad());
    }
    *fields = after;
    Ok(actions)
}
