//! What a replica holds that begins with greens alone.
ghost use Rattle.std.specs.Prelude.{◌≡◌, fold, IfOk, OnOk};
ghost use Rattle.cg_action.specs.ActionLimits.{IsAction};
ghost use Rattle.cg_db.specs.Limits.{AreEntries};
ghost use Rattle.cg_queue.specs.Queue.{names_of};
ghost use Rattle.cg_base.specs.Lists.{Each};
ghost use Rattle.cg_records.specs.Limits.{IsSmallCut};
ghost use Rattle.cg_disk_records.specs.Limits.{IsReached};
ghost use Rattle.cg_store.specs.Leading.{AreNext, LeadTo, IsBelow};
ghost use Rattle.cg_store.specs.Rebuilt.{with_kept_green, resumed_with};

use cg_action::{Action, ActionList};
use cg_base::{COUNT_LIMIT, Cut, NoMemory, ReplicaId};
use cg_client::{Core, WhiteState};
use cg_db::Db;
use cg_disk_records::{Reached, count_of};
use cg_records::{Primary, Vulnerable};
use std::alloc::Global;

/// What a replica has green, and where it stands among primary components.
#[derive(Drop)]
pub struct GreenState {
    /// How far its greens reach.
    pub reached: Reached,
    /// The greens that are kept, in order.
    pub greens: ActionList,
    /// What all greens have made of the database.
    pub db: Db,
    pub prim: Primary,
    pub attempt_index: u64,
    pub vulnerable: Option<Vulnerable>,
}

/// What a replica holds that has these greens, and knows no other action. Of each creator the greens that are kept are the
/// last ones up to the cut, as those of a checkpoint and of a snapshot are (`lead`). More than 2^62 greens, and numbers of
/// primary components or attempts that have no bytes, are refused as want of memory.
pub fn resume(alloc: Global, id: ReplicaId, state: GreenState) -> Result<Core, NoMemory>
    requires reached { IsReached state.reached }
    requires greens { Each IsAction state.greens }
    requires lead { LeadTo state.reached.cut state.greens }
    requires db { AreEntries state.db }
    ensures { IfOk result (λ core. core ≡ resumed_with id state) }
{
    let GreenState {
        reached,
        greens,
        db,
        prim,
        attempt_index,
        vulnerable,
    } = state;
    let Reached {
        white,
        cut,
        members,
        ..
    } = reached;
    if white > COUNT_LIMIT {
        return Err(NoMemory);
    }
    let below = cut_below(&cut, greens.as_slice());
    let state = WhiteState {
        white,
        cut: below,
        db,
        members,
        prim,
        attempt_index,
        vulnerable,
    };
    let mut core = Core::stored(alloc, id, state)?;
    put_greens(&mut core, greens)?;
    Ok(core)
}

// how far the greens in front of these reach
fn cut_below(cut: &Cut, greens: &[Action]) -> Cut
    requires { IsSmallCut cut.now }
    ensures { IsBelow cut.now greens.now result }
{
    let mut below = Cut::zero();
    for slot in 0..32 {
        let id = ReplicaId::known(slot + 1);
        below.raise(id, cut.get(id).saturating_sub(count_of(greens, id)));
    }
    below
}

// Each is the next one of its creator.
fn put_greens(core: &mut Core, greens: ActionList) -> Result<(), NoMemory>
    requires actions { Each IsAction greens }
    requires next { AreNext core.old.queue.green_cut (names_of greens) }
    ensures { OnOk result (core.new ≡ fold with_kept_green core.old greens) }
{
    for a in greens.into_vec() {
        core.put_green(a)?;
    }
    Ok(())
}
