//! How far the greens of a replica reach, in bytes.

ghost use Rattle.std.specs.Prelude.{◌≡◌, ◌++◌, OnOk, OnErr};
ghost use Rattle.cg_base.specs.Fronts.{KeepsFront};
ghost use Rattle.cg_codec.specs.Taking.{unread_of, TakesWithMemory};
ghost use Rattle.cg_disk_records.specs.Checkpoint.{spelled_reached};
ghost use Rattle.cg_disk_records.specs.Reading.{reached_reading};

use crate::Reached;
use crate::servers::{put_servers, take_members};
use cg_base::{Cut, NoMemory};
use cg_codec::{CodecFault, Fields, put_u64};
use cg_members::Members;
use cg_records::{put_cut, put_set, take_cut, take_number};

/// Takes how far greens reach.
#[tactic(auto, unfolding(crate::specs::Reading::reached_reading))]
pub fn take_reached(fields: &mut Fields<'_>) -> Result<Reached, CodecFault>
    ensures { TakesWithMemory (λ r. r) reached_reading (unread_of fields.old) (unread_of fields.new) result }
{
    let mut after = *fields;
    let count = take_number(&mut after)?;
    let white = take_number(&mut after)?;
    let cut = take_cut(&mut after)?;
    let members = take_members(&mut after)?;
    *fields = after;
    Ok(Reached {
        count,
        white,
        cut,
        members,
    })
}

/// Puts at the end how far greens reach, from borrowed parts.
pub fn put_reached(
    out: &mut Vec<u8>,
    count: u64,
    white: u64,
    cut: &Cut,
    members: &Members,
) -> Result<(), NoMemory>
    ensures ok { OnOk result (out.new.items ≡ out.old.items
        ++ spelled_reached (record { count = count; white = white; cut = cut.now; members = members.now })) }
    ensures err { OnErr result (out.new.items ≡ out.old.items) }
{
    let before = out.len();
    let put = write_reached(out, count, white, cut, members);
    if put.is_err() {
        out.truncate(before);
    }
    put
}

#[tactic(auto, unfolding(crate::specs::Checkpoint::spelled_reached))]
fn write_reached(
    out: &mut Vec<u8>,
    count: u64,
    white: u64,
    cut: &Cut,
    members: &Members,
) -> Result<(), NoMemory>
    ensures ok { OnOk result (out.new.items ≡ out.old.items
        ++ spelled_reached (record { count = count; white = white; cut = cut.now; members = members.now })) }
    ensures err { OnErr result (KeepsFront out.old.items out.new.items) }
{
    put_u64(out, count)?;
    put_u64(out, white)?;
    put_cut(out, cut)?;
    put_servers(out, members.servers())?;
    put_set(out, &members.left())
}
