//! Changes of the older format, and what they are in the newer one.

ghost use Rattle.std.specs.Prelude.{◌≡◌, None, IfOk, MatchOption};
ghost use Rattle.cg_codec.specs.Reading.{whole};
ghost use Rattle.cg_codec.specs.Taking.{unread_of, TakesWithMemory, Decodes};
ghost use Rattle.cg_disk_records.specs.Change.{spelled_change};
ghost use Rattle.cg_disk_records.specs.Limits.{IsChange};
ghost use Rattle.cg_disk_records.specs.Parts.{change_in};
ghost use Rattle.cg_older.specs.Older.{old_change_in};
ghost use Rattle.cg_older.specs.Reading.{old_change_reading};

use crate::lists::{take_ids, take_old_actions};
use crate::stable::take_old_stable;
use cg_base::NoMemory;
use cg_codec::{CodecFault, Fields};
use cg_disk_records::{Change, changes_are_exact, lists_are_exact, put_change};
use std::alloc::Global;

/// The change of the newer format that says the same as this one of the older format, if it is one.
pub fn newer_change(alloc: Global, body: &[u8]) -> Result<Option<Vec<u8>>, NoMemory>
    ensures { IfOk result (λ r. MatchOption r (old_change_in body.now ≡ None)
        (λ bytes. change_in bytes.items ≡ old_change_in body.now)) }
{
    changes_are_exact();
    match decode_old_change(alloc, body) {
        Ok(change) => Ok(Some(bytes_of_change(alloc, &change)?)),
        Err(fault) => match fault.number() {
            Some(_) => Ok(None),
            None => Err(NoMemory),
        },
    }
}

// a change in the bytes of the newer format
fn bytes_of_change(alloc: Global, change: &Change) -> Result<Vec<u8>, NoMemory>
    requires { IsChange change.now }
    ensures { IfOk result (λ bytes. bytes.items ≡ spelled_change change.now) }
{
    let mut bytes = Vec::new(alloc);
    let known = change.known.as_slice();
    let green = change.green.as_slice();
    let made = change.made.as_slice();
    put_change(&mut bytes, &change.stable, &[], known, green, made)?;
    Ok(bytes)
}

fn decode_old_change(alloc: Global, body: &[u8]) -> Result<Change, CodecFault>
    ensures read { Decodes (λ c. c) (whole old_change_reading body.now) result }
    ensures within { IfOk result IsChange }
{
    lists_are_exact();
    read_old_change(alloc, body)
}

fn read_old_change(alloc: Global, body: &[u8]) -> Result<Change, CodecFault>
    ensures { Decodes (λ c. c) (whole old_change_reading body.now) result }
{
    let mut fields = Fields::new(body);
    let change = take_old_change(alloc, &mut fields)?;
    fields.finish()?;
    Ok(change)
}

#[tactic(auto, unfolding(crate::specs::Reading::old_change_reading))]
fn take_old_change(alloc: Global, fields: &mut Fields<'_>) -> Result<Change, CodecFault>
    ensures { TakesWithMemory (λ c. c) old_change_reading (unread_of fields.old) (unread_of fields.new) result }
{
    let mut after = *fields;
    let stable = take_old_stable(alloc, &mut after)?;
    let known = take_old_actions(alloc, &mut after)?;
    let green = take_ids(alloc, &mut after)?;
    let made = take_old_actions(alloc, &mut after)?;
    *fields = after;
    Ok(Change {
        stable,
        known,
        green,
        made,
    })
}
