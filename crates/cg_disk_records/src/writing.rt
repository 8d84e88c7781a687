//! A checkpoint of what a replica holds.

ghost use Rattle.std.specs.Prelude.{◌≡◌, ◌<◌, ◌++◌, OnOk, OnErr, IfOk};
ghost use Rattle.cg_base.specs.declared.limits.TheConstants.{NUMBER_LIMIT};
ghost use Rattle.cg_base.specs.Fronts.{KeepsFront};
ghost use Rattle.cg_disk_records.specs.Stored.{stable_of};
ghost use Rattle.cg_disk_records.specs.Checkpoint.{reached_of, kept_of, spelled_reached, spelled_kept, spelled_checkpoint};
ghost use Rattle.cg_disk_records.specs.Limits.{IsStored, HaveShortLists};

use crate::entries::put_entries;
use crate::kept::{KeptList, count_in, put_list};
use crate::reached::put_reached;
use cg_base::NoMemory;
use cg_client::Core;
use cg_codec::put_u64;
use cg_records::{Stable, put_stable};

/// Puts a checkpoint of what a replica holds at the end. It copies neither actions nor entries. Where a list has 2^32 things
/// or more, or a number is 2^63 or more, it is refused as want of memory.
pub fn put_checkpoint(out: &mut Vec<u8>, generation: u64, core: &Core) -> Result<(), NoMemory>
    requires { generation < NUMBER_LIMIT }
    ensures ok { OnOk result (out.new.items ≡ out.old.items ++ spelled_checkpoint generation core.now) }
    ensures within { OnOk result (IsStored core.now) }
    ensures err { OnErr result (out.new.items ≡ out.old.items) }
{
    let before = out.len();
    let stable = within_limits(core)?;
    let put = write_checkpoint(out, generation, &stable, core);
    if put.is_err() {
        out.truncate(before);
    }
    put
}

// what may change at any time, where all that the replica holds is within the limits of a record
fn within_limits(core: &Core) -> Result<Stable, NoMemory>
    ensures stable { IfOk result (λ s. s ≡ stable_of core.now) }
    ensures within { OnOk result (IsStored core.now) }
{
    let stable = core.stable()?;
    are_short(core)?;
    core.holds();
    Ok(stable)
}

#[tactic(auto, unfolding(crate::specs::Checkpoint::spelled_checkpoint, crate::specs::Checkpoint::spelled_parts))]
fn write_checkpoint(
    out: &mut Vec<u8>,
    generation: u64,
    stable: &Stable,
    core: &Core,
) -> Result<(), NoMemory>
    requires stable { stable.now ≡ stable_of core.now }
    requires within { IsStored core.now }
    ensures ok { OnOk result (out.new.items ≡ out.old.items ++ spelled_checkpoint generation core.now) }
    ensures err { OnErr result (KeepsFront out.old.items out.new.items) }
{
    put_u64(out, generation)?;
    put_stable(out, stable)?;
    put_reached_of(out, core)?;
    put_entries(out, core.db())?;
    put_kept(out, core)
}

fn put_reached_of(out: &mut Vec<u8>, core: &Core) -> Result<(), NoMemory>
    ensures ok { OnOk result (out.new.items ≡ out.old.items ++ spelled_reached (reached_of core.now)) }
    ensures err { OnErr result (out.new.items ≡ out.old.items) }
{
    let queue = core.queue();
    let cut = core.green_cut();
    put_reached(
        out,
        queue.green_count(),
        queue.white_count(),
        &cut,
        core.members(),
    )
}

fn put_kept(out: &mut Vec<u8>, core: &Core) -> Result<(), NoMemory>
    requires { IsStored core.now }
    ensures ok { OnOk result (out.new.items ≡ out.old.items ++ spelled_kept (kept_of core.now)) }
    ensures err { OnErr result (out.new.items ≡ out.old.items) }
{
    let before = out.len();
    let put = write_kept(out, core);
    if put.is_err() {
        out.truncate(before);
    }
    put
}

#[tactic(auto, unfolding(crate::specs::Checkpoint::spelled_kept))]
fn write_kept(out: &mut Vec<u8>, core: &Core) -> Result<(), NoMemory>
    requires { IsStored core.now }
    ensures ok { OnOk result (out.new.items ≡ out.old.items ++ spelled_kept (kept_of core.now)) }
    ensures err { OnErr result (KeepsFront out.old.items out.new.items) }
{
    put_list(out, core, KeptList::Greens)?;
    put_list(out, core, KeptList::Reds)?;
    put_list(out, core, KeptList::Own)
}

// each list is shorter than 2^32
fn are_short(core: &Core) -> Result<(), NoMemory>
    ensures { OnOk result (HaveShortLists core.now) }
{
    let greens = count_in(core, KeptList::Greens);
    let reds = count_in(core, KeptList::Reds);
    let own = count_in(core, KeptList::Own);
    if greens.is_none()
        || reds.is_none()
        || own.is_none()
        || core.db().count() > u64::from(u32::MAX)
    {
        return Err(NoMemory);
    }
    Ok(())
}
