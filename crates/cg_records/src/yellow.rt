ghost use Rattle.std.specs.Prelude.{◌≡◌, ◌++◌, ◌<◌, length, false, [], OnOk, OnErr, IfOk};
ghost use Rattle.cg_base.specs.declared.limits.TheConstants.{LIST_LIMIT};
ghost use Rattle.cg_base.specs.Fronts.{KeepsFront};
ghost use Rattle.cg_codec.specs.Taking.{unread_of, TakesWithMemory};
ghost use Rattle.cg_records.specs.Bytes.{spelled_yellow};
ghost use Rattle.cg_records.specs.Reading.{take_yellow as reading_yellow};

use crate::names::{take_names, write_names};
use cg_base::{IdList, NoMemory};
use cg_codec::{CodecFault, Fields, put_truth};
use std::alloc::Global;

/// The actions that were delivered in the transitional configuration of a primary component, in order. The list says
/// something of the others of that component only where it is valid: where the next regular configuration came.
#[derive(PartialEq, Eq)]
pub struct Yellow {
    pub valid: bool,
    pub list: IdList,
}

impl Drop for Yellow {
    fn drop(self) {
        let Yellow { valid: _, list: _ } = self;
    }
}

impl Yellow {
    /// The list that says nothing.
    pub fn none(alloc: Global) -> Yellow
        ensures { result ≡ record { valid = false; list = [] } }
    {
        Yellow {
            valid: false,
            list: IdList::new(alloc),
        }
    }

    /// A copy of it.
    pub fn copy(&self, alloc: Global) -> Result<Yellow, NoMemory>
        ensures { IfOk result (λ y. y ≡ self.now) }
    {
        let list = IdList::from_slice(alloc, self.list.as_slice())?;
        Ok(Yellow {
            valid: self.valid,
            list,
        })
    }
}

/// Takes a yellow list. Where memory is refused the reader is as before, too.
#[tactic(auto, unfolding(crate::specs::Reading::take_yellow))]
pub fn take_yellow(alloc: Global, f: &mut Fields<'_>) -> Result<Yellow, CodecFault>
    ensures { TakesWithMemory (λ x. x) reading_yellow (unread_of f.old) (unread_of f.new) result }
{
    let mut after = *f;
    let valid = after.take_truth()?;
    let list = take_names(alloc, &mut after)?;
    *f = after;
    Ok(Yellow { valid, list })
}

/// Puts a yellow list at the end.
pub fn put_yellow(out: &mut Vec<u8>, v: &Yellow) -> Result<(), NoMemory>
    requires { length v.now.list < LIST_LIMIT }
    ensures ok { OnOk result (out.new.items ≡ out.old.items ++ spelled_yellow v.now) }
    ensures err { OnErr result (out.new.items ≡ out.old.items) }
{
    let before = out.len();
    let put = write_yellow(out, v);
    if put.is_err() {
        out.truncate(before);
    }
    put
}

#[tactic(auto, unfolding(crate::specs::Bytes::spelled_yellow))]
fn write_yellow(out: &mut Vec<u8>, v: &Yellow) -> Result<(), NoMemory>
    requires { length v.now.list < LIST_LIMIT }
    ensures ok { OnOk result (out.new.items ≡ out.old.items ++ spelled_yellow v.now) }
    ensures err { OnErr result (KeepsFront out.old.items out.new.items) }
{
    put_truth(out, v.valid)?;
    write_names(out, v.list.as_slice())
}
