//! Sets of replicas in bytes.

ghost use Rattle.std.specs.Prelude.{◌≡◌, ◌++◌, OnOk, OnErr};
ghost use Rattle.cg_base.specs.Fronts.{KeepsFront};
ghost use Rattle.cg_codec.specs.Taking.{unread_of, Takes};
ghost use Rattle.cg_records.specs.Bytes.{spelled_set, spelled_weight_set, spelled_weighted};
ghost use Rattle.cg_records.specs.Reading.{take_set as reading_set, take_weight_set as reading_weight_set, take_weighted_above as weighted_above};

use crate::numbers::{take_id_above, take_weight};
use cg_base::{IdSet, NoMemory, WeightSet, Weighted};
use cg_codec::{CodecFault, Fields, put_u8, put_u32};

/// Takes a set: how many members it has, and these, each above the one before.
#[tactic(auto, unfolding(crate::specs::Reading::take_set))]
pub fn take_set(f: &mut Fields<'_>) -> Result<IdSet, CodecFault>
    ensures { Takes (λ x. x) reading_set (unread_of f.old) (unread_of f.new) result }
{
    let mut after = *f;
    let count = after.take_count(32)?;
    let mut set = IdSet::empty();
    let mut last = 0;
    'members: for _ in 0..count {
        let id = take_id_above(&mut after, last)?;
        set.add(id);
        last = id.get();
    }
    *f = after;
    Ok(set)
}

#[tactic(auto, unfolding(crate::specs::Reading::take_weighted_above))]
fn take_weighted_above(f: &mut Fields<'_>, last: u8) -> Result<Weighted, CodecFault>
    ensures { Takes (λ x. x) (weighted_above last) (unread_of f.old) (unread_of f.new) result }
{
    let mut after = *f;
    let id = take_id_above(&mut after, last)?;
    let weight = take_weight(&mut after)?;
    *f = after;
    Ok(Weighted { id, weight })
}

/// Takes a set with weights: how many members it has, and these, each above the one before, with a weight from 1 to 255.
#[tactic(auto, unfolding(crate::specs::Reading::take_weight_set))]
pub fn take_weight_set(f: &mut Fields<'_>) -> Result<WeightSet, CodecFault>
    ensures { Takes (λ x. x) reading_weight_set (unread_of f.old) (unread_of f.new) result }
{
    let mut after = *f;
    let count = after.take_count(32)?;
    let mut set = WeightSet::empty();
    let mut last = 0;
    'members: for _ in 0..count {
        let member = take_weighted_above(&mut after, last)?;
        set.put(member.id, member.weight);
        last = member.id.get();
    }
    *f = after;
    Ok(set)
}

/// Puts a set at the end.
pub fn put_set(out: &mut Vec<u8>, v: &IdSet) -> Result<(), NoMemory>
    ensures ok { OnOk result (out.new.items ≡ out.old.items ++ spelled_set v.now) }
    ensures err { OnErr result (out.new.items ≡ out.old.items) }
{
    let before = out.len();
    let put = write_set(out, v);
    if put.is_err() {
        out.truncate(before);
    }
    put
}

#[tactic(auto, unfolding(crate::specs::Bytes::spelled_set))]
fn write_set(out: &mut Vec<u8>, v: &IdSet) -> Result<(), NoMemory>
    ensures ok { OnOk result (out.new.items ≡ out.old.items ++ spelled_set v.now) }
    ensures err { OnErr result (KeepsFront out.old.items out.new.items) }
{
    put_u32(out, u32::from(v.count()))?;
    for id in v.iter() {
        put_u8(out, id.get())?;
    }
    Ok(())
}

/// Puts a set with weights at the end.
pub fn put_weight_set(out: &mut Vec<u8>, v: &WeightSet) -> Result<(), NoMemory>
    ensures ok { OnOk result (out.new.items ≡ out.old.items ++ spelled_weight_set v.now) }
    ensures err { OnErr result (out.new.items ≡ out.old.items) }
{
    let before = out.len();
    let put = write_weight_set(out, v);
    if put.is_err() {
        out.truncate(before);
    }
    put
}

#[tactic(auto, unfolding(crate::specs::Bytes::spelled_weight_set))]
fn write_weight_set(out: &mut Vec<u8>, v: &WeightSet) -> Result<(), NoMemory>
    ensures ok { OnOk result (out.new.items ≡ out.old.items ++ spelled_weight_set v.now) }
    ensures err { OnErr result (KeepsFront out.old.items out.new.items) }
{
    put_u32(out, u32::from(v.ids().count()))?;
    for member in v.iter() {
        write_weighted(out, member)?;
    }
    Ok(())
}

#[tactic(auto, unfolding(crate::specs::Bytes::spelled_weighted))]
fn write_weighted(out: &mut Vec<u8>, member: Weighted) -> Result<(), NoMemory>
    ensures ok { OnOk result (out.new.items ≡ out.old.items ++ spelled_weighted member) }
    ensures err { OnErr result (KeepsFront out.old.items out.new.items) }
{
    put_u8(out, member.id.get())?;
    put_u8(out, member.weight)
}
