ghost use Rattle.std.specs.Prelude.{◌≡◌, ◌++◌, ◌+◌, ◌<◌, IsTrue, OnOk, OnErr};
ghost use Rattle.cg_base.specs.declared.limits.TheConstants.{LIST_LIMIT};
ghost use Rattle.cg_base.specs.Fronts.{KeepsFront};
ghost use Rattle.cg_action.specs.ActionLimits.{IsAction, IsActionId};
ghost use Rattle.cg_base.specs.Lists.{Each};
ghost use Rattle.cg_records.specs.Limits.{IsStable};
ghost use Rattle.cg_disk_records.specs.Change.{spelled_change};
ghost use Rattle.cg_disk_records.specs.Limits.{IsChange};
ghost use Rattle.cg_disk_records.specs.Following.{change_with};

use crate::lists::{put_actions, put_ids};
use cg_action::{Action, ActionList};
use cg_base::{ActionId, IdList, NoMemory};
use cg_records::{Stable, put_stable};

/// What a commit changes of what stands on the disk.
#[derive(Drop)]
pub struct Change {
    /// The new values of what may change at any time.
    pub stable: Stable,
    /// The actions newly known, in the order of their marks.
    pub known: ActionList,
    /// The names newly green, in order.
    pub green: IdList,
    /// The actions newly made.
    pub made: ActionList,
}

/// Puts a change at the end, of which the newly known actions are those of two lists, one behind the other. Lists of 2^32
/// things or more are refused as want of memory.
pub fn put_change(
    out: &mut Vec<u8>,
    stable: &Stable,
    unwritten: &[Action],
    known: &[Action],
    green: &[ActionId],
    made: &[Action],
) -> Result<(), NoMemory>
    requires stable { IsStable stable.now }
    requires unwritten { Each IsAction unwritten.now }
    requires known { Each IsAction known.now }
    requires green { Each IsActionId green.now }
    requires made { Each IsAction made.now }
    ensures ok { OnOk result (out.new.items ≡ out.old.items
        ++ spelled_change (change_with stable.now (unwritten.now ++ known.now) green.now made.now)) }
    ensures within { OnOk result (IsChange (change_with stable.now (unwritten.now ++ known.now) green.now made.now)) }
    ensures err { OnErr result (out.new.items ≡ out.old.items) }
{
    if !are_short(unwritten.len(), known.len(), green.len(), made.len()) {
        return Err(NoMemory);
    }
    let before = out.len();
    let put = write_change(out, stable, unwritten, known, green, made);
    if put.is_err() {
        out.truncate(before);
    }
    put
}

// two lists as one, and two others, are shorter than 2^32
fn are_short(first: usize, second: usize, green: usize, made: usize) -> bool
    ensures { IsTrue result → (first + second < LIST_LIMIT) × (green < LIST_LIMIT) × (made < LIST_LIMIT) }
{
    let most = u32::MAX as usize;
    first <= most && second <= most - first && green <= most && made <= most
}

#[tactic(auto, unfolding(crate::specs::Change::spelled_change))]
fn write_change(
    out: &mut Vec<u8>,
    stable: &Stable,
    unwritten: &[Action],
    known: &[Action],
    green: &[ActionId],
    made: &[Action],
) -> Result<(), NoMemory>
    requires { IsChange (change_with stable.now (unwritten.now ++ known.now) green.now made.now) }
    ensures ok { OnOk result (out.new.items ≡ out.old.items
        ++ spelled_change (change_with stable.now (unwritten.now ++ known.now) green.now made.now)) }
    ensures err { OnErr result (KeepsFront out.old.items out.new.items) }
{
    put_stable(out, stable)?;
    put_actions(out, unwritten, known)?;
    put_ids(out, green)?;
    put_actions(out, &[], made)
}
