ghost use Rattle.std.specs.Prelude.{◌≡◌, ◌++◌, ◌<◌, length, OnOk, OnErr};
ghost use Rattle.cg_base.specs.declared.limits.TheConstants.{LIST_LIMIT};
ghost use Rattle.cg_base.specs.Fronts.{KeepsFront};
ghost use Rattle.cg_codec.specs.Reading.{whole};
ghost use Rattle.cg_codec.specs.Taking.{unread_of, TakesWithMemory, Decodes};
ghost use Rattle.cg_records.specs.Bytes.{spelled_stable};
ghost use Rattle.cg_records.specs.Reading.{take_stable as reading_stable};

use crate::numbers::take_number;
use crate::primary::{Primary, put_prim, take_prim};
use crate::vulnerable::{Vulnerable, put_maybe_vulnerable, take_maybe_vulnerable};
use crate::yellow::{Yellow, put_yellow, take_yellow};
use cg_base::NoMemory;
use cg_codec::{CodecFault, Fields, put_u64};
use std::alloc::Global;

/// What a replica keeps beside its actions: the last primary component that it knows of, its attempt index, its
/// vulnerable record, its yellow list, and the index of the last action that it created.
pub struct Stable {
    pub prim: Primary,
    pub attempt_index: u64,
    pub vulnerable: Option<Vulnerable>,
    pub yellow: Yellow,
    pub created: u64,
}

impl Drop for Stable {
    fn drop(self) {
        let Stable {
            prim: _,
            attempt_index: _,
            vulnerable: _,
            yellow: _,
            created: _,
        } = self;
    }
}

impl Stable {
    /// Puts it at the end.
    pub fn encode(&self, out: &mut Vec<u8>) -> Result<(), NoMemory>
        requires { length self.now.yellow.list < LIST_LIMIT }
        ensures ok { OnOk result (out.new.items ≡ out.old.items ++ spelled_stable self.now) }
        ensures err { OnErr result (out.new.items ≡ out.old.items) }
    {
        put_stable(out, self)
    }

    /// The value that the bytes spell.
    pub fn decode(alloc: Global, bytes: &[u8]) -> Result<Stable, CodecFault>
        ensures { Decodes (λ x. x) (whole reading_stable bytes.now) result }
    {
        let mut f = Fields::new(bytes);
        let s = take_stable(alloc, &mut f)?;
        f.finish()?;
        Ok(s)
    }
}

/// Takes what a replica keeps beside its actions. Where memory is refused the reader is as before, too.
#[tactic(auto, unfolding(crate::specs::Reading::take_stable))]
pub fn take_stable(alloc: Global, f: &mut Fields<'_>) -> Result<Stable, CodecFault>
    ensures { TakesWithMemory (λ x. x) reading_stable (unread_of f.old) (unread_of f.new) result }
{
    let mut after = *f;
    let prim = take_prim(&mut after)?;
    let attempt_index = take_number(&mut after)?;
    let vulnerable = take_maybe_vulnerable(&mut after)?;
    let yellow = take_yellow(alloc, &mut after)?;
    let created = take_number(&mut after)?;
    *f = after;
    Ok(Stable {
        prim,
        attempt_index,
        vulnerable,
        yellow,
        created,
    })
}

/// Puts what a replica keeps beside its actions at the end.
pub fn put_stable(out: &mut Vec<u8>, v: &Stable) -> Result<(), NoMemory>
    requires { length v.now.yellow.list < LIST_LIMIT }
    ensures ok { OnOk result (out.new.items ≡ out.old.items ++ spelled_stable v.now) }
    ensures err { OnErr result (out.new.items ≡ out.old.items) }
{
    let before = out.len();
    let put = write_stable(out, v);
    if put.is_err() {
        out.truncate(before);
    }
    put
}

#[tactic(auto, unfolding(crate::specs::Bytes::spelled_stable))]
fn write_stable(out: &mut Vec<u8>, v: &Stable) -> Result<(), NoMemory>
    requires { length v.now.yellow.list < LIST_LIMIT }
    ensures ok { OnOk result (out.new.items ≡ out.old.items ++ spelled_stable v.now) }
    ensures err { OnErr result (KeepsFront out.old.items out.new.items) }
{
    put_prim(out, &v.prim)?;
    put_u64(out, v.attempt_index)?;
    put_maybe_vulnerable(out, &v.vulnerable)?;
    put_yellow(out, &v.yellow)?;
    put_u64(out, v.created)
}
