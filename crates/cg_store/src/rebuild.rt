//! What a replica holds, rebuilt from a checkpoint.
ghost use Rattle.std.specs.Prelude.{◌≡◌, fold, IfOk, OnOk};
ghost use Rattle.cg_action.specs.ActionLimits.{IsAction};
ghost use Rattle.cg_queue.specs.Queue.{names_of};
ghost use Rattle.cg_base.specs.Lists.{Each};
ghost use Rattle.cg_disk_records.specs.Laws.{AreSaved};
ghost use Rattle.cg_disk_records.specs.Parts.{stored_in};
ghost use Rattle.cg_store.specs.Leading.{AreNext};
ghost use Rattle.cg_store.specs.Rebuilt.{with_kept_red, with_kept_own};

use crate::replay::take_values;
use crate::resuming::{GreenState, resume};
use cg_action::ActionList;
use cg_base::{NoMemory, ReplicaId};
use cg_client::Core;
use cg_disk_records::{Checkpoint, KeptActions};
use std::alloc::Global;

/// What a replica holds that has a checkpoint with these parts.
pub(crate) fn rebuild(alloc: Global, id: ReplicaId, p: Checkpoint) -> Result<Core, NoMemory>
    requires { AreSaved id p }
    ensures { IfOk result (λ core. core ≡ stored_in id p) }
{
    let Checkpoint {
        stable,
        reached,
        db,
        kept,
        ..
    } = p;
    let KeptActions { greens, reds, own } = kept;
    let state = GreenState {
        reached,
        greens,
        db,
        prim: stable.prim,
        attempt_index: stable.attempt_index,
        vulnerable: stable.vulnerable,
    };
    let mut core = resume(alloc, id, state)?;
    put_reds(&mut core, reds)?;
    put_own(&mut core, own)?;
    take_values(&mut core, &stable)?;
    Ok(core)
}

// Each is the next one of its creator.
fn put_reds(core: &mut Core, reds: ActionList) -> Result<(), NoMemory>
    requires actions { Each IsAction reds }
    requires next { AreNext core.old.queue.red_cut (names_of reds) }
    ensures { OnOk result (core.new ≡ fold with_kept_red core.old reds) }
{
    for a in reds.into_vec() {
        core.know(a)?;
    }
    Ok(())
}

fn put_own(core: &mut Core, own: ActionList) -> Result<(), NoMemory>
    requires { Each IsAction own }
    ensures { OnOk result (core.new ≡ fold with_kept_own core.old own) }
{
    for a in own.into_vec() {
        core.make(a)?;
    }
    Ok(())
}
