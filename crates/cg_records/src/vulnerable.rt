ghost use Rattle.std.specs.Prelude.{◌≡◌, ◌++◌, OnOk, OnErr};
ghost use Rattle.cg_base.specs.Fronts.{KeepsFront};
ghost use Rattle.cg_codec.specs.Fields.{optional};
ghost use Rattle.cg_codec.specs.Taking.{unread_of, Takes};
ghost use Rattle.cg_records.specs.Bytes.{spelled_vulnerable};
ghost use Rattle.cg_records.specs.Reading.{take_vulnerable as reading_vulnerable, take_maybe_vulnerable as reading_maybe};

use crate::numbers::take_number;
use crate::sets::{put_set, take_set};
use cg_base::{IdSet, NoMemory};
use cg_codec::{CodecFault, Fields, put_u8, put_u64};

/// An attempt to install a primary component that may have come to its end at others: its configuration, the index of the
/// primary component that it was made from, its members, and those of them whose record of it is known.
#[derive(Clone, Copy, Debug, PartialEq, Eq)]
pub struct Vulnerable {
    pub attempt: u64,
    pub from: u64,
    pub set: IdSet,
    pub bits: IdSet,
}

/// Takes a vulnerable record.
#[tactic(auto, unfolding(crate::specs::Reading::take_vulnerable))]
pub fn take_vulnerable(f: &mut Fields<'_>) -> Result<Vulnerable, CodecFault>
    ensures { Takes (λ x. x) reading_vulnerable (unread_of f.old) (unread_of f.new) result }
{
    let mut after = *f;
    let attempt = take_number(&mut after)?;
    let from = take_number(&mut after)?;
    let set = take_set(&mut after)?;
    let bits = take_set(&mut after)?;
    *f = after;
    Ok(Vulnerable {
        attempt,
        from,
        set,
        bits,
    })
}

/// Takes a vulnerable record that may be absent.
#[tactic(auto, unfolding(crate::specs::Reading::take_maybe_vulnerable))]
pub fn take_maybe_vulnerable(f: &mut Fields<'_>) -> Result<Option<Vulnerable>, CodecFault>
    ensures { Takes (λ x. x) reading_maybe (unread_of f.old) (unread_of f.new) result }
{
    let mut after = *f;
    if !after.take_truth()? {
        *f = after;
        return Ok(None);
    }
    let v = take_vulnerable(&mut after)?;
    *f = after;
    Ok(Some(v))
}

/// Puts a vulnerable record at the end.
pub fn put_vulnerable(out: &mut Vec<u8>, v: &Vulnerable) -> Result<(), NoMemory>
    ensures ok { OnOk result (out.new.items ≡ out.old.items ++ spelled_vulnerable v.now) }
    ensures err { OnErr result (out.new.items ≡ out.old.items) }
{
    let before = out.len();
    let put = write_vulnerable(out, v);
    if put.is_err() {
        out.truncate(before);
    }
    put
}

#[tactic(auto, unfolding(crate::specs::Bytes::spelled_vulnerable))]
fn write_vulnerable(out: &mut Vec<u8>, v: &Vulnerable) -> Result<(), NoMemory>
    ensures ok { OnOk result (out.new.items ≡ out.old.items ++ spelled_vulnerable v.now) }
    ensures err { OnErr result (KeepsFront out.old.items out.new.items) }
{
    put_u64(out, v.attempt)?;
    put_u64(out, v.from)?;
    put_set(out, &v.set)?;
    put_set(out, &v.bits)
}

/// Puts a vulnerable record that may be absent at the end.
pub fn put_maybe_vulnerable(out: &mut Vec<u8>, v: &Option<Vulnerable>) -> Result<(), NoMemory>
    ensures ok { OnOk result (out.new.items ≡ out.old.items ++ optional spelled_vulnerable v.now) }
    ensures err { OnErr result (out.new.items ≡ out.old.items) }
{
    let before = out.len();
    let put = write_maybe_vulnerable(out, v);
    if put.is_err() {
        out.truncate(before);
    }
    put
}

fn write_maybe_vulnerable(out: &mut Vec<u8>, v: &Option<Vulnerable>) -> Result<(), NoMemory>
    ensures ok { OnOk result (out.new.items ≡ out.old.items ++ optional spelled_vulnerable v.now) }
    ensures err { OnErr result (KeepsFront out.old.items out.new.items) }
{
    match v {
        None => put_u8(out, 0),
        Some(v) => {
            put_u8(out, 1)?;
            put_vulnerable(out, v)
        }
    }
}
