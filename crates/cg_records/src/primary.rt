ghost use Rattle.std.specs.Prelude.{◌≡◌, ◌++◌, OnOk, OnErr};
ghost use Rattle.cg_base.specs.Fronts.{KeepsFront};
ghost use Rattle.cg_codec.specs.Taking.{unread_of, Takes};
ghost use Rattle.cg_records.specs.Bytes.{spelled_prim};
ghost use Rattle.cg_records.specs.Reading.{take_prim as reading_prim};

use crate::numbers::take_number;
use crate::sets::{put_weight_set, take_weight_set};
use cg_base::{NoMemory, WeightSet};
use cg_codec::{CodecFault, Fields, put_u64};

/// A primary component: its index among the primary components, the configuration in which it was installed, and its
/// members with their weights. Before the first one the index and the configuration are 0, and the members are those that
/// the system starts with.
#[derive(Clone, Copy, Debug, PartialEq, Eq)]
pub struct Primary {
    pub index: u64,
    pub conf: u64,
    pub set: WeightSet,
}

/// Takes a primary component.
#[tactic(auto, unfolding(crate::specs::Reading::take_prim))]
pub fn take_prim(f: &mut Fields<'_>) -> Result<Primary, CodecFault>
    ensures { Takes (λ x. x) reading_prim (unread_of f.old) (unread_of f.new) result }
{
    let mut after = *f;
    let index = take_number(&mut after)?;
    let conf = take_number(&mut after)?;
    let set = take_weight_set(&mut after)?;
    *f = after;
    Ok(Primary { index, conf, set })
}

/// Puts a primary component at the end.
pub fn put_prim(out: &mut Vec<u8>, v: &Primary) -> Result<(), NoMemory>
    ensures ok { OnOk result (out.new.items ≡ out.old.items ++ spelled_prim v.now) }
    ensures err { OnErr result (out.new.items ≡ out.old.items) }
{
    let before = out.len();
    let put = write_prim(out, v);
    if put.is_err() {
        out.truncate(before);
    }
    put
}

#[tactic(auto, unfolding(crate::specs::Bytes::spelled_prim))]
fn write_prim(out: &mut Vec<u8>, v: &Primary) -> Result<(), NoMemory>
    ensures ok { OnOk result (out.new.items ≡ out.old.items ++ spelled_prim v.now) }
    ensures err { OnErr result (KeepsFront out.old.items out.new.items) }
{
    put_u64(out, v.index)?;
    put_u64(out, v.conf)?;
    put_weight_set(out, &v.set)
}
