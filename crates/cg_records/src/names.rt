//! Names of actions in bytes, alone and as cuts.

ghost use Rattle.std.specs.Prelude.{◌≡◌, ◌++◌, ◌<◌, length, OnOk, OnErr};
ghost use Rattle.cg_base.specs.declared.limits.TheConstants.{LIST_LIMIT};
ghost use Rattle.cg_base.specs.Fronts.{KeepsFront};
ghost use Rattle.cg_codec.specs.Taking.{unread_of, Takes, TakesWithMemory};
ghost use Rattle.cg_codec.specs.Fields.{spelled_id};
ghost use Rattle.cg_records.specs.Bytes.{spelled_cut, spelled_names};
ghost use Rattle.cg_records.specs.Reading.{take_cut as reading_cut, take_name_above as name_above, take_names as reading_names};

use crate::numbers::{take_id_above, take_index};
use cg_base::{ActionId, Cut, IdList, NoMemory};
use cg_codec::{CodecFault, Fields, put_action_id, put_u32};
use std::alloc::Global;

#[tactic(auto, unfolding(crate::specs::Reading::take_name_above))]
fn take_name_above(f: &mut Fields<'_>, last: u8) -> Result<ActionId, CodecFault>
    ensures { Takes (λ x. x) (name_above last) (unread_of f.old) (unread_of f.new) result }
{
    let mut after = *f;
    let creator = take_id_above(&mut after, last)?;
    let index = take_index(&mut after)?;
    *f = after;
    Ok(ActionId { creator, index })
}

/// Takes a cut: how many creators have an action in it, and each, above the one before, with the index of its last one.
#[tactic(auto, unfolding(crate::specs::Reading::take_cut))]
pub fn take_cut(f: &mut Fields<'_>) -> Result<Cut, CodecFault>
    ensures { Takes (λ x. x) reading_cut (unread_of f.old) (unread_of f.new) result }
{
    let mut after = *f;
    let count = after.take_count(32)?;
    let mut cut = Cut::zero();
    let mut last = 0;
    'tops: for _ in 0..count {
        let top = take_name_above(&mut after, last)?;
        cut.raise(top.creator, top.index);
        last = top.creator.get();
    }
    *f = after;
    Ok(cut)
}

/// Takes names of actions, in any order: how many, and these.
#[tactic(auto, unfolding(crate::specs::Reading::take_names))]
pub(crate) fn take_names(alloc: Global, f: &mut Fields<'_>) -> Result<IdList, CodecFault>
    ensures { TakesWithMemory (λ x. x) reading_names (unread_of f.old) (unread_of f.new) result }
{
    let mut after = *f;
    let count = after.take_count(u32::MAX)?;
    let mut ids = IdList::new(alloc);
    'names: for _ in 0..count {
        let id = take_name_above(&mut after, 0)?;
        ids.push(id)?;
    }
    *f = after;
    Ok(ids)
}

/// Puts a cut at the end.
pub fn put_cut(out: &mut Vec<u8>, v: &Cut) -> Result<(), NoMemory>
    ensures ok { OnOk result (out.new.items ≡ out.old.items ++ spelled_cut v.now) }
    ensures err { OnErr result (out.new.items ≡ out.old.items) }
{
    let before = out.len();
    let put = write_cut(out, v);
    if put.is_err() {
        out.truncate(before);
    }
    put
}

#[tactic(auto, unfolding(crate::specs::Bytes::spelled_cut))]
fn write_cut(out: &mut Vec<u8>, v: &Cut) -> Result<(), NoMemory>
    ensures ok { OnOk result (out.new.items ≡ out.old.items ++ spelled_cut v.now) }
    ensures err { OnErr result (KeepsFront out.old.items out.new.items) }
{
    put_u32(out, u32::from(v.creators().count()))?;
    for top in v.iter() {
        put_action_id(out, &top)?;
    }
    Ok(())
}

#[tactic(auto, unfolding(crate::specs::Bytes::spelled_names))]
pub(crate) fn write_names(out: &mut Vec<u8>, ids: &[ActionId]) -> Result<(), NoMemory>
    requires { length ids.now < LIST_LIMIT }
    ensures ok { OnOk result (out.new.items ≡ out.old.items ++ spelled_names ids.now) }
    ensures err { OnErr result (KeepsFront out.old.items out.new.items) }
{
    put_u32(out, ids.len() as u32)?;
    for id in ids {
        put_action_id(out, id)?;
    }
    Ok(())
}
