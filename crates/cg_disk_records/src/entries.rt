//! The entries of a database in bytes.

ghost use Rattle.std.specs.Prelude.{◌≡◌, ◌++◌, flat_map, OnOk, OnErr, Result, Ok, Err};
ghost use Rattle.cg_base.specs.Fronts.{KeepsFront};
ghost use Rattle.cg_codec.specs.Fields.{list};
ghost use Rattle.cg_codec.specs.Taking.{unread_of, Takes, TakesWithMemory};
ghost use Rattle.cg_text.specs.Order.{text_before};
ghost use Rattle.cg_action.specs.ActionLimits.{IsKey, IsValue};
ghost use Rattle.cg_db.specs.Map.{value_of};
ghost use Rattle.cg_db.specs.View.{entry_at};
ghost use Rattle.cg_db.specs.Limits.{AreEntries};
ghost use Rattle.cg_disk_records.specs.Checkpoint.{spelled_entry};
ghost use Rattle.cg_disk_records.specs.Limits.{IsShort};
ghost use Rattle.cg_disk_records.specs.Reading.{key_behind_reading, entry_reading, entries_reading};
ghost use Rattle.cg_disk_records.specs.Laws.{TakesEntry};

use cg_action::{Value, put_value, take_value};
use cg_base::NoMemory;
use cg_codec::{CodecFault, Fields, put_text, put_u32};
use cg_db::Db;
use cg_text::Txt;
use std::alloc::Global;

/// Takes a database: how many entries it has, and these, each key behind the one before.
#[tactic(auto, unfolding(crate::specs::Reading::entries_reading))]
pub fn take_entries(alloc: Global, fields: &mut Fields<'_>) -> Result<Db, CodecFault>
    ensures { TakesWithMemory (λ db. db) entries_reading (unread_of fields.old) (unread_of fields.new) result }
{
    let mut after = *fields;
    let count = after.take_count(u32::MAX)?;
    let mut db = Db::new(alloc);
    let mut last = "";
    'entries: for _ in 0..count {
        last = take_into(alloc, &mut after, last, &mut db)?;
    }
    *fields = after;
    Ok(db)
}

// takes an entry whose key is behind the given one, and puts it into the database
fn take_into<'a>(
    alloc: Global,
    fields: &mut Fields<'a>,
    last: &str,
    db: &mut Db,
) -> Result<&'a str, CodecFault>
    ensures { TakesEntry (λ t. t.now) last.now db.old db.new (unread_of fields.old) (unread_of fields.new) result }
{
    let mut after = *fields;
    let (key, value) = take_entry(alloc, &mut after, last)?;
    let copy = Txt::new(alloc, key)?;
    db.put(copy, value)?;
    *fields = after;
    Ok(key)
}

/// Takes an entry whose key is behind the given one, as every key is behind the empty text.
#[tactic(auto, unfolding(crate::specs::Reading::entry_reading))]
pub fn take_entry<'a>(
    alloc: Global,
    fields: &mut Fields<'a>,
    last: &str,
) -> Result<(&'a str, Value), CodecFault>
    ensures { TakesWithMemory (λ e. record { key = e.0.now; value = e.1 }) (entry_reading last.now)
        (unread_of fields.old) (unread_of fields.new) result }
{
    let mut after = *fields;
    let key = take_key_behind(&mut after, last)?;
    let value = take_value(alloc, &mut after)?;
    *fields = after;
    Ok((key, value))
}

#[tactic(auto, unfolding(crate::specs::Reading::key_behind_reading, cg_action::specs::Reading::key_reading))]
fn take_key_behind<'a>(fields: &mut Fields<'a>, last: &str) -> Result<&'a str, CodecFault>
    ensures { Takes (λ t. t.now) (key_behind_reading last.now) (unread_of fields.old) (unread_of fields.new) result }
{
    let mut after = *fields;
    let key = after.take_text(64)?;
    if key.is_empty() || !is_before(last, key) {
        return Err(fields.bad());
    }
    *fields = after;
    Ok(key)
}

fn is_before(first: &str, second: &str) -> bool
    ensures { result ≡ text_before first.now second.now }
{
    first < second
}

/// Puts the entries of a database at the end, ascending by key.
pub fn put_entries(out: &mut Vec<u8>, db: &Db) -> Result<(), NoMemory>
    requires short { IsShort db.now }
    requires entries { AreEntries db.now }
    ensures ok { OnOk result (out.new.items ≡ out.old.items ++ list spelled_entry db.now) }
    ensures err { OnErr result (out.new.items ≡ out.old.items) }
{
    let before = out.len();
    let put = write_entries(out, db);
    if put.is_err() {
        out.truncate(before);
    }
    put
}

fn write_entries(out: &mut Vec<u8>, db: &Db) -> Result<(), NoMemory>
    requires short { IsShort db.now }
    requires entries { AreEntries db.now }
    ensures ok { OnOk result (out.new.items ≡ out.old.items ++ list spelled_entry db.now) }
    ensures err { OnErr result (KeepsFront out.old.items out.new.items) }
{
    db.holds();
    let keys = db.keys()?;
    put_u32(out, db.count() as u32)?;
    for key in keys.as_slice() {
        write_entry(out, db, key)?;
    }
    Ok(())
}

// the key with its value, if it is there
fn write_entry(out: &mut Vec<u8>, db: &Db, key: &Txt) -> Result<(), NoMemory>
    requires entries { AreEntries db.now }
    requires key { IsKey key.now }
    ensures ok { OnOk result (out.new.items ≡ out.old.items
        ++ flat_map spelled_entry (entry_at key.now (value_of db.now key.now))) }
    ensures err { OnErr result (KeepsFront out.old.items out.new.items) }
{
    let Some(value) = db.value(key) else {
        return Ok(());
    };
    put_entry(out, key, value)
}

/// Puts an entry at the end.
pub fn put_entry(out: &mut Vec<u8>, key: &Txt, value: &Value) -> Result<(), NoMemory>
    requires key { IsKey key.now }
    requires value { IsValue value.now }
    ensures ok { OnOk result (out.new.items ≡ out.old.items
        ++ spelled_entry (record { key = key.now; value = value.now })) }
    ensures err { OnErr result (out.new.items ≡ out.old.items) }
{
    let before = out.len();
    let put = write_parts(out, key, value);
    if put.is_err() {
        out.truncate(before);
    }
    put
}

#[tactic(auto, unfolding(crate::specs::Checkpoint::spelled_entry))]
fn write_parts(out: &mut Vec<u8>, key: &Txt, value: &Value) -> Result<(), NoMemory>
    requires key { IsKey key.now }
    requires value { IsValue value.now }
    ensures ok { OnOk result (out.new.items ≡ out.old.items
        ++ spelled_entry (record { key = key.now; value = value.now })) }
    ensures err { OnErr result (KeepsFront out.old.items out.new.items) }
{
    put_text(out, key.as_str())?;
    put_value(out, value)
}
