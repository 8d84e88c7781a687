//! What a joiner holds, rebuilt from a snapshot.
ghost use Rattle.std.specs.Prelude.{◌≡◌, IfOk};
ghost use Rattle.cg_action.specs.ActionLimits.{IsAction};
ghost use Rattle.cg_client.specs.Replica.{Held};
ghost use Rattle.cg_db.specs.Limits.{AreEntries};
ghost use Rattle.cg_db.specs.Ascending.{Ascends};
ghost use Rattle.cg_base.specs.Lists.{Each};
ghost use Rattle.cg_join.specs.Limits.{IsHead};
ghost use Rattle.cg_join.specs.Finishing.{IsSnapshotFor};
ghost use Rattle.cg_store.specs.Leading.{LeadTo};
ghost use Rattle.cg_client.specs.Joined.{joiner_content};
ghost use Rattle.cg_join.specs.Snapshot.{parts_of, joined_from};

use crate::gather::{Gathered, gather};
use crate::{PieceContent, SnapshotHead};
use cg_action::{ActionList, Boxed, Limited};
use cg_base::{NoMemory, ReplicaId};
use cg_client::Core;
use cg_db::Db;
use cg_disk_records::Reached;
use cg_store::{GreenState, resume};
use std::alloc::Global;

/// What a joiner holds to which these parts came: those of a snapshot.
pub(crate) fn core_of(
    alloc: Global,
    id: ReplicaId,
    parts: Limited<PieceContent>,
) -> Result<Core, NoMemory>
    requires { IsSnapshotFor id parts }
    ensures { (h : Held) → Ascends h.db → parts ≡ parts_of h → IfOk result (λ core. core ≡ joiner_content id h) }
{
    let Gathered { head, greens, db } = gather(alloc, parts.into_list().into_vec())?;
    match head {
        Some(head) => rebuild(alloc, id, head, greens, db),
        None => unreachable!(),
    }
}

fn rebuild(
    alloc: Global,
    id: ReplicaId,
    head: Boxed<SnapshotHead>,
    greens: ActionList,
    db: Db,
) -> Result<Core, NoMemory>
    requires head { IsHead head }
    requires greens { Each IsAction greens }
    requires lead { LeadTo head.reached.cut greens }
    requires db { AreEntries db }
    ensures { IfOk result (λ core. core ≡ joined_from id head greens db) }
{
    let head = head.get();
    let state = GreenState {
        reached: Reached {
            count: head.reached.count,
            white: head.reached.white,
            cut: head.reached.cut,
            members: head.reached.members.copy(),
        },
        greens,
        db,
        prim: head.prim,
        attempt_index: head.attempt_index,
        vulnerable: None,
    };
    resume(alloc, id, state)
}
