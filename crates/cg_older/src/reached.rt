//! How far the greens of a replica reach, in the bytes of the older format.

ghost use Rattle.std.specs.Prelude.{◌≡◌, ◌++◌, OnOk};
ghost use Rattle.cg_codec.specs.Taking.{unread_of, Takes};
ghost use Rattle.cg_older.specs.Bytes.{spelled_old_reached};
ghost use Rattle.cg_older.specs.Reading.{old_reached_reading};

use crate::servers::{put_old_servers, take_old_members};
use cg_base::NoMemory;
use cg_codec::{CodecFault, Fields, put_u64};
use cg_disk_records::Reached;
use cg_records::{put_cut, put_set, take_cut, take_number};

/// Takes how far greens reach.
#[tactic(auto, unfolding(crate::specs::Reading::old_reached_reading))]
pub(crate) fn take_old_reached(fields: &mut Fields<'_>) -> Result<Reached, CodecFault>
    ensures { Takes (λ r. r) old_reached_reading (unread_of fields.old) (unread_of fields.new) result }
{
    let mut after = *fields;
    let count = take_number(&mut after)?;
    let white = take_number(&mut after)?;
    let cut = take_cut(&mut after)?;
    let members = take_old_members(&mut after)?;
    *fields = after;
    Ok(Reached {
        count,
        white,
        cut,
        members,
    })
}

/// Puts at the end how far greens reach, without the weights of the servers.
#[tactic(auto, unfolding(crate::specs::Bytes::spelled_old_reached))]
pub(crate) fn put_old_reached(out: &mut Vec<u8>, reached: &Reached) -> Result<(), NoMemory>
    ensures { OnOk result (out.new.items ≡ out.old.items ++ spelled_old_reached reached.now) }
{
    put_u64(out, reached.count)?;
    put_u64(out, reached.white)?;
    put_cut(out, &reached.cut)?;
    put_old_servers(out, reached.members.servers())?;
    put_set(out, &reached.members.left())
}
