//! The actions that a replica keeps, put one after the other.

ghost use Rattle.std.specs.Prelude.{◌≡◌, ◌≤◌, ◌<◌, ◌++◌, length, slice_get, OnOk, OnErr, IfSome, MatchOption};
ghost use Rattle.std.specs.Option.{option_copied};
ghost use Rattle.cg_base.specs.declared.limits.TheConstants.{LIST_LIMIT};
ghost use Rattle.cg_base.specs.Fronts.{KeepsFront};
ghost use Rattle.cg_codec.specs.Fields.{list};
ghost use Rattle.cg_action.specs.ActionLimits.{IsAction};
ghost use Rattle.cg_action.specs.Bytes.{spelled_action};
ghost use Rattle.cg_disk_records.specs.Kept.{list_in, spelled_next};
ghost use Rattle.cg_disk_records.specs.Limits.{AreActions};

use cg_action::{Action, put_action};
use cg_base::NoMemory;
use cg_client::Core;
use cg_codec::put_u32;

/// A list of actions that a replica keeps.
#[derive(Clone, Copy)]
pub(crate) enum KeptList {
    Greens,
    Reds,
    Own,
}

/// How many actions the list has. None says that there are 2^32 or more.
pub(crate) fn count_in(core: &Core, which: KeptList) -> Option<u32>
    ensures { MatchOption result (LIST_LIMIT ≤ length (list_in core.now which)) (λ count. count ≡
        length (list_in core.now which)) }
{
    match which {
        KeptList::Greens => small(core.queue().green_count() - core.queue().white_count()),
        KeptList::Reds => core.queue().red_count(),
        KeptList::Own => small(core.own_count() as u64),
    }
}

fn small(count: u64) -> Option<u32>
    ensures { MatchOption result (LIST_LIMIT ≤ count) (λ n. n ≡ count) }
{
    if count > u64::from(u32::MAX) {
        return None;
    }
    Some(count as u32)
}

// the action at an index of the list
fn action_at(core: &Core, which: KeptList, i: u32) -> Option<&Action>
    ensures { option_copied result ≡ slice_get (list_in core.now which) i }
{
    match which {
        KeptList::Greens => green_at(core, i),
        KeptList::Reds => core.queue().red_at(i as usize),
        KeptList::Own => core.own_at(i as usize),
    }
}

fn green_at(core: &Core, i: u32) -> Option<&Action>
    ensures { option_copied result ≡ slice_get core.now.queue.greens i }
{
    let queue = core.queue();
    queue.holds();
    queue.green_at(queue.white_count() + 1 + u64::from(i))
}

/// Puts the list at the end.
pub(crate) fn put_list(out: &mut Vec<u8>, core: &Core, which: KeptList) -> Result<(), NoMemory>
    requires { AreActions (list_in core.now which) }
    ensures ok { OnOk result (out.new.items ≡ out.old.items ++ list spelled_action (list_in core.now which)) }
    ensures err { OnErr result (out.new.items ≡ out.old.items) }
{
    let before = out.len();
    let put = write_list(out, core, which);
    if put.is_err() {
        out.truncate(before);
    }
    put
}

fn write_list(out: &mut Vec<u8>, core: &Core, which: KeptList) -> Result<(), NoMemory>
    requires { AreActions (list_in core.now which) }
    ensures ok { OnOk result (out.new.items ≡ out.old.items ++ list spelled_action (list_in core.now which)) }
    ensures err { OnErr result (KeepsFront out.old.items out.new.items) }
{
    let Some(count) = count_in(core, which) else {
        return Err(NoMemory);
    };
    put_u32(out, count)?;
    for i in 0..count {
        put_next(out, action_at(core, which, i))?;
    }
    Ok(())
}

fn put_next(out: &mut Vec<u8>, next: Option<&Action>) -> Result<(), NoMemory>
    requires { IfSome (option_copied next) IsAction }
    ensures ok { OnOk result (out.new.items ≡ out.old.items ++ spelled_next (option_copied next.entry)) }
    ensures err { OnErr result (out.new.items ≡ out.old.items) }
{
    match next {
        Some(action) => put_action(out, action),
        None => Ok(()),
    }
}
