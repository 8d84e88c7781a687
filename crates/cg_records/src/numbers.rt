//! The numbers of records.

ghost use Rattle.std.specs.Prelude.{◌≡◌};
ghost use Rattle.cg_codec.specs.Taking.{unread_of, Takes};
ghost use Rattle.cg_records.specs.Reading.{take_number as number, take_index as index, take_id_above as id_above, take_weight as weight};

use cg_base::{NUMBER_LIMIT, ReplicaId};
use cg_codec::{CodecFault, Fields};

/// Takes a count, an index or the number of a configuration: eight bytes, below 2^63.
#[tactic(auto, unfolding(crate::specs::Reading::take_number))]
pub fn take_number(f: &mut Fields<'_>) -> Result<u64, CodecFault>
    ensures { Takes (λ x. x) number (unread_of f.old) (unread_of f.new) result }
{
    let mut after = *f;
    let n = after.take_u64()?;
    if n >= NUMBER_LIMIT {
        return Err(f.bad());
    }
    *f = after;
    Ok(n)
}

/// Takes the index of an action: from 1 on, and below 2^63.
#[tactic(auto, unfolding(crate::specs::Reading::take_index))]
pub(crate) fn take_index(f: &mut Fields<'_>) -> Result<u64, CodecFault>
    ensures { Takes (λ x. x) index (unread_of f.old) (unread_of f.new) result }
{
    let mut after = *f;
    let n = after.take_u64()?;
    if n == 0 || n >= NUMBER_LIMIT {
        return Err(f.bad());
    }
    *f = after;
    Ok(n)
}

/// Takes the identifier of a replica.
pub fn take_id(f: &mut Fields<'_>) -> Result<ReplicaId, CodecFault>
    ensures { Takes (λ x. x) (id_above 0) (unread_of f.old) (unread_of f.new) result }
{
    take_id_above(f, 0)
}

/// Takes the identifier of a replica that is above the given one.
#[tactic(auto, unfolding(crate::specs::Reading::take_id_above))]
pub fn take_id_above(f: &mut Fields<'_>, last: u8) -> Result<ReplicaId, CodecFault>
    ensures { Takes (λ x. x) (id_above last) (unread_of f.old) (unread_of f.new) result }
{
    let mut after = *f;
    let n = after.take_u8()?;
    if n <= last || n > ReplicaId::MAX {
        return Err(f.bad());
    }
    *f = after;
    Ok(ReplicaId::known(n))
}

/// Takes a weight: one byte that isn't 0.
#[tactic(auto, unfolding(crate::specs::Reading::take_weight))]
pub fn take_weight(f: &mut Fields<'_>) -> Result<u8, CodecFault>
    ensures { Takes (λ x. x) weight (unread_of f.old) (unread_of f.new) result }
{
    let mut after = *f;
    let n = after.take_u8()?;
    if n == 0 {
        return Err(f.bad());
    }
    *f = after;
    Ok(n)
}
