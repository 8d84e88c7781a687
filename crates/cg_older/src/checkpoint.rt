//! Checkpoints of the older format, and what they are in the newer one.

ghost use Rattle.std.specs.Prelude.{◌≡◌, ◌++◌, ◌<◌, ◌≤◌, ℕ, None, false, length, IfOk, OnOk, MatchOption};
ghost use Rattle.cg_base.specs.declared.limits.TheConstants.{COUNT_LIMIT, LIST_LIMIT};
ghost use Rattle.cg_codec.specs.Reading.{whole};
ghost use Rattle.cg_codec.specs.Taking.{unread_of, TakesWithMemory, Decodes};
ghost use Rattle.cg_disk_records.specs.Checkpoint.{spelled_kept, spelled_parts, parts_of};
ghost use Rattle.cg_disk_records.specs.Limits.{IsKept, IsStored, AreParts};
ghost use Rattle.cg_disk_records.specs.Parts.{checkpoint_in};
ghost use Rattle.cg_older.specs.Bytes.{spelled_old_parts, spelled_old_checkpoint};
ghost use Rattle.cg_older.specs.Older.{old_checkpoint_in, has_weights};
ghost use Rattle.cg_older.specs.Reading.{old_kept_reading, old_checkpoint_reading};

use crate::lists::take_old_actions;
use crate::reached::{put_old_reached, take_old_reached};
use crate::stable::{put_old_stable, take_old_stable};
use cg_base::{COUNT_LIMIT, LIST_LIMIT, NoMemory};
use cg_client::Core;
use cg_codec::{CodecFault, Fields, put_u64};
use cg_disk_records::{
    Checkpoint, KeptActions, decode_checkpoint, lists_are_exact, parts_are_exact, put_actions,
    put_checkpoint, put_entries, put_reached, take_entries,
};
use cg_records::{put_stable, take_number};
use std::alloc::Global;

/// The checkpoint of the newer format that says the same as this one of the older format, of whatever replica, if it is
/// one.
pub fn newer_checkpoint(alloc: Global, body: &[u8]) -> Result<Option<Vec<u8>>, NoMemory>
    ensures { IfOk result (λ r. MatchOption r ((id : ℕ) → old_checkpoint_in id body.now ≡ None)
        (λ bytes. (id : ℕ) → checkpoint_in id bytes.items ≡ old_checkpoint_in id body.now)) }
{
    parts_are_exact();
    match decode_old_checkpoint(alloc, body) {
        Ok(checkpoint) => newer_bytes(alloc, &checkpoint),
        Err(fault) => match fault.number() {
            Some(_) => Ok(None),
            None => Err(NoMemory),
        },
    }
}

// the parts of a checkpoint in the bytes of the newer format, where their generation is one of the older
fn newer_bytes(alloc: Global, checkpoint: &Checkpoint) -> Result<Option<Vec<u8>>, NoMemory>
    requires { AreParts checkpoint.now }
    ensures { IfOk result (λ r. MatchOption r (COUNT_LIMIT ≤ checkpoint.now.generation)
        (λ bytes. (checkpoint.now.generation < COUNT_LIMIT) × (bytes.items ≡ spelled_parts checkpoint.now))) }
{
    // so that there is room for many later ones
    if checkpoint.generation >= COUNT_LIMIT {
        return Ok(None);
    }
    let mut bytes = Vec::new(alloc);
    put_parts(&mut bytes, checkpoint)?;
    Ok(Some(bytes))
}

/// A checkpoint of the older format with generation 1 of what a replica holds. Where a list has 2^32 things or more, or
/// a number is 2^63 or more, it is refused as want of memory.
pub fn old_checkpoint(alloc: Global, core: &Core) -> Result<Vec<u8>, NoMemory>
    requires { has_weights core.now ≡ false }
    ensures spelled { IfOk result (λ bytes. bytes.items ≡ spelled_old_checkpoint 1 core.now) }
    ensures short { IfOk result (λ bytes. length bytes.items < LIST_LIMIT) }
    ensures within { OnOk result (IsStored core.now) }
{
    let checkpoint = parts_of(alloc, core)?;
    let mut bytes = Vec::new(alloc);
    put_old_parts(&mut bytes, &checkpoint)?;
    if bytes.len() >= LIST_LIMIT {
        return Err(NoMemory);
    }
    Ok(bytes)
}

// the parts of a checkpoint of what a replica holds, by way of its bytes in the newer format
fn parts_of(alloc: Global, core: &Core) -> Result<Checkpoint, NoMemory>
    ensures value { IfOk result (λ p. p ≡ parts_of 1 core.now) }
    ensures parts { IfOk result AreParts }
    ensures within { OnOk result (IsStored core.now) }
{
    parts_are_exact();
    let mut bytes = Vec::new(alloc);
    put_checkpoint(&mut bytes, 1, core)?;
    match decode_checkpoint(alloc, bytes.as_slice()) {
        Ok(checkpoint) => Ok(checkpoint),
        // what was put is read again, if memory isn't refused
        Err(_) => Err(NoMemory),
    }
}

fn decode_old_checkpoint(alloc: Global, body: &[u8]) -> Result<Checkpoint, CodecFault>
    ensures read { Decodes (λ p. p) (whole old_checkpoint_reading body.now) result }
    ensures within { IfOk result AreParts }
{
    lists_are_exact();
    read_old_checkpoint(alloc, body)
}

fn read_old_checkpoint(alloc: Global, body: &[u8]) -> Result<Checkpoint, CodecFault>
    ensures { Decodes (λ p. p) (whole old_checkpoint_reading body.now) result }
{
    let mut fields = Fields::new(body);
    let checkpoint = take_old_checkpoint(alloc, &mut fields)?;
    fields.finish()?;
    Ok(checkpoint)
}

#[tactic(auto, unfolding(crate::specs::Reading::old_checkpoint_reading))]
fn take_old_checkpoint(alloc: Global, fields: &mut Fields<'_>) -> Result<Checkpoint, CodecFault>
    ensures { TakesWithMemory (λ p. p) old_checkpoint_reading (unread_of fields.old) (unread_of fields.new) result }
{
    let mut after = *fields;
    let generation = take_number(&mut after)?;
    let stable = take_old_stable(alloc, &mut after)?;
    let reached = take_old_reached(&mut after)?;
    let db = take_entries(alloc, &mut after)?;
    let kept = take_old_kept(alloc, &mut after)?;
    *fields = after;
    Ok(Checkpoint {
        generation,
        stable,
        reached,
        db,
        kept,
    })
}

#[tactic(auto, unfolding(crate::specs::Reading::old_kept_reading))]
fn take_old_kept(alloc: Global, fields: &mut Fields<'_>) -> Result<KeptActions, CodecFault>
    ensures { TakesWithMemory (λ k. k) old_kept_reading (unread_of fields.old) (unread_of fields.new) result }
{
    let mut after = *fields;
    let greens = take_old_actions(alloc, &mut after)?;
    let reds = take_old_actions(alloc, &mut after)?;
    let own = take_old_actions(alloc, &mut after)?;
    *fields = after;
    Ok(KeptActions { greens, reds, own })
}

#[tactic(auto, unfolding(cg_disk_records::specs::Checkpoint::spelled_parts))]
fn put_parts(out: &mut Vec<u8>, checkpoint: &Checkpoint) -> Result<(), NoMemory>
    requires { AreParts checkpoint.now }
    ensures { OnOk result (out.new.items ≡ out.old.items ++ spelled_parts checkpoint.now) }
{
    let reached = &checkpoint.reached;
    put_u64(out, checkpoint.generation)?;
    put_stable(out, &checkpoint.stable)?;
    put_reached(
        out,
        reached.count,
        reached.white,
        &reached.cut,
        &reached.members,
    )?;
    put_entries(out, &checkpoint.db)?;
    put_kept(out, &checkpoint.kept)
}

#[tactic(auto, unfolding(crate::specs::Bytes::spelled_old_parts))]
fn put_old_parts(out: &mut Vec<u8>, checkpoint: &Checkpoint) -> Result<(), NoMemory>
    requires { AreParts checkpoint.now }
    ensures { OnOk result (out.new.items ≡ out.old.items ++ spelled_old_parts checkpoint.now) }
{
    put_u64(out, checkpoint.generation)?;
    put_old_stable(out, &checkpoint.stable)?;
    put_old_reached(out, &checkpoint.reached)?;
    put_entries(out, &checkpoint.db)?;
    put_kept(out, &checkpoint.kept)
}

#[tactic(auto, unfolding(cg_disk_records::specs::Checkpoint::spelled_kept))]
fn put_kept(out: &mut Vec<u8>, kept: &KeptActions) -> Result<(), NoMemory>
    requires { IsKept kept.now }
    ensures { OnOk result (out.new.items ≡ out.old.items ++ spelled_kept kept.now) }
{
    put_actions(out, &[], kept.greens.as_slice())?;
    put_actions(out, &[], kept.reds.as_slice())?;
    put_actions(out, &[], kept.own.as_slice())
}
