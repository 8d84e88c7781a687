ghost use Rattle.std.specs.Prelude.{◌≡◌, ◌<◌, ◌++◌, length, IfOk};
ghost use Rattle.cg_base.specs.declared.limits.TheConstants.{LIST_LIMIT, NUMBER_LIMIT};
ghost use Rattle.cg_action.specs.ActionLimits.{IsAction};
ghost use Rattle.cg_base.specs.Lists.{Each};
ghost use Rattle.cg_records.specs.Limits.{IsStable};
ghost use Rattle.cg_disk_records.specs.Change.{spelled_change};
ghost use Rattle.cg_disk_records.specs.Checkpoint.{spelled_checkpoint};
ghost use Rattle.cg_disk_records.specs.Limits.{IsChange, IsStored};
ghost use Rattle.cg_disk_records.specs.Following.{change_with};

use cg_action::Action;
use cg_base::{LIST_LIMIT, NoMemory};
use cg_client::{Core, Draft};
use cg_disk_records::{put_change, put_checkpoint};
use cg_records::Stable;
use std::alloc::Global;

// most records are no longer, and need no more room
const USUAL: usize = 256;

/// The record of a change, with the red marks that stand in no record first.
pub(crate) fn change_record(
    alloc: Global,
    stable: &Stable,
    unwritten: &[Action],
    draft: &Draft,
) -> Result<Vec<u8>, NoMemory>
    requires stable { IsStable stable.now }
    requires unwritten { Each IsAction unwritten.now }
    ensures spelled { IfOk result (λ bytes. bytes.items ≡
        spelled_change (change_with stable.now (unwritten.now ++ draft.now.known) draft.now.green draft.now.made)) }
    ensures within { IfOk
        result (λ bytes. IsChange (change_with stable.now (unwritten.now ++ draft.now.known)
        draft.now.green draft.now.made)) }
    ensures short { IfOk result (λ bytes. length bytes.items < LIST_LIMIT) }
{
    let mut bytes = Vec::with_capacity(alloc, USUAL)?;
    let known = draft.known();
    let green = draft.green();
    let made = draft.made();
    put_change(&mut bytes, stable, unwritten, known, green, made)?;
    if bytes.len() >= LIST_LIMIT {
        return Err(NoMemory);
    }
    Ok(bytes)
}

/// The record of a checkpoint.
pub(crate) fn checkpoint_record(
    alloc: Global,
    generation: u64,
    core: &Core,
) -> Result<Vec<u8>, NoMemory>
    requires { generation < NUMBER_LIMIT }
    ensures spelled { IfOk result (λ bytes. bytes.items ≡ spelled_checkpoint generation core.now) }
    ensures within { IfOk result (λ bytes. IsStored core.now) }
    ensures short { IfOk result (λ bytes. length bytes.items < LIST_LIMIT) }
{
    let mut bytes = Vec::new(alloc);
    put_checkpoint(&mut bytes, generation, core)?;
    if bytes.len() >= LIST_LIMIT {
        return Err(NoMemory);
    }
    Ok(bytes)
}
