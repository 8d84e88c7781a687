//! What a replica keeps beside its actions, in the bytes of the older format.

ghost use Rattle.std.specs.Prelude.{◌≡◌, ◌++◌, ◌<◌, length, OnOk};
ghost use Rattle.cg_base.specs.declared.limits.TheConstants.{LIST_LIMIT};
ghost use Rattle.cg_codec.specs.Taking.{unread_of, Takes, TakesWithMemory};
ghost use Rattle.cg_older.specs.Bytes.{spelled_old_prim, spelled_old_stable};
ghost use Rattle.cg_older.specs.Reading.{old_prim_reading, old_stable_reading};

use cg_base::{NoMemory, WeightSet};
use cg_codec::{CodecFault, Fields, put_u64};
use cg_records::{
    Primary, Stable, put_maybe_vulnerable, put_set, put_yellow, take_maybe_vulnerable, take_number,
    take_set, take_yellow,
};
use std::alloc::Global;

/// Takes what a replica keeps beside its actions.
#[tactic(auto, unfolding(crate::specs::Reading::old_stable_reading))]
pub(crate) fn take_old_stable(alloc: Global, fields: &mut Fields<'_>) -> Result<Stable, CodecFault>
    ensures { TakesWithMemory (λ s. s) old_stable_reading (unread_of fields.old) (unread_of fields.new) result }
{
    let mut after = *fields;
    let prim = take_old_prim(&mut after)?;
    let attempt_index = take_number(&mut after)?;
    let vulnerable = take_maybe_vulnerable(&mut after)?;
    let yellow = take_yellow(alloc, &mut after)?;
    let created = take_number(&mut after)?;
    *fields = after;
    Ok(Stable {
        prim,
        attempt_index,
        vulnerable,
        yellow,
        created,
    })
}

#[tactic(auto, unfolding(crate::specs::Reading::old_prim_reading))]
fn take_old_prim(fields: &mut Fields<'_>) -> Result<Primary, CodecFault>
    ensures { Takes (λ p. p) old_prim_reading (unread_of fields.old) (unread_of fields.new) result }
{
    let mut after = *fields;
    let index = take_number(&mut after)?;
    let conf = take_number(&mut after)?;
    let set = take_set(&mut after)?;
    *fields = after;
    Ok(Primary {
        index,
        conf,
        set: WeightSet::of(&set),
    })
}

/// Puts what a replica keeps beside its actions at the end, without the weights of the primary component.
#[tactic(auto, unfolding(crate::specs::Bytes::spelled_old_stable))]
pub(crate) fn put_old_stable(out: &mut Vec<u8>, stable: &Stable) -> Result<(), NoMemory>
    requires { length stable.now.yellow.list < LIST_LIMIT }
    ensures { OnOk result (out.new.items ≡ out.old.items ++ spelled_old_stable stable.now) }
{
    put_old_prim(out, &stable.prim)?;
    put_u64(out, stable.attempt_index)?;
    put_maybe_vulnerable(out, &stable.vulnerable)?;
    put_yellow(out, &stable.yellow)?;
    put_u64(out, stable.created)
}

#[tactic(auto, unfolding(crate::specs::Bytes::spelled_old_prim))]
fn put_old_prim(out: &mut Vec<u8>, prim: &Primary) -> Result<(), NoMemory>
    ensures { OnOk result (out.new.items ≡ out.old.items ++ spelled_old_prim prim.now) }
{
    put_u64(out, prim.index)?;
    put_u64(out, prim.conf)?;
    put_set(out, &prim.set.ids())
}
