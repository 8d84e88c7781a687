//! The start: replicas that begin.
ghost use Rattle.std.specs.Prelude.{◌≡◌, false, fold, OnOk};
ghost use Rattle.cg_base.specs.Weights.{ids};
ghost use Rattle.cg_group.specs.State.{is_up};
ghost use Rattle.cg_schedule.specs.declared.event.Event.TheVariants.{Start};
ghost use Rattle.cg_model.specs.World.{no_world};
ghost use Rattle.cg_model.specs.Step.{begin_replica};
ghost use Rattle.cg_world_events.specs.StepInProgress.{IsQuiet};
ghost use Rattle.cg_world_events.specs.Happening.{Happens};

use crate::admission::{admit, empty_set};
use crate::{Node, StepInProgress, WorldState};
use cg_base::{NoMemory, ReplicaId, WeightSet};
use cg_group::GroupErr;
use std::alloc::Global;

// These replicas begin, each alone, as the servers of one database.
#[tactic(auto, unfolding(cg_model::specs::Admission::first_refusal, cg_model::specs::Step::happens))]
pub(crate) fn start(
    alloc: Global,
    going: &mut StepInProgress,
    set: &WeightSet,
) -> Result<(), GroupErr>
    requires quiet { IsQuiet going.old }
    requires first { going.old.world ≡ no_world }
    ensures { Happens going.old (Start set.now) going.new result }
{
    admit(empty_set(&set.ids()))?;
    begin_all(alloc, &mut going.state, set)?;
    Ok(())
}

fn begin_all(alloc: Global, state: &mut WorldState, set: &WeightSet) -> Result<(), NoMemory>
    requires { state.old ≡ no_world }
    ensures { OnOk result (state.new ≡ fold (begin_replica set.now) state.old (ids set.now)) }
{
    set.holds();
    for p in set.ids().iter() {
        begin_replica(alloc, state, set, p)?;
    }
    Ok(())
}

// A named replica comes up with a new disk.
fn begin_replica(
    alloc: Global,
    state: &mut WorldState,
    set: &WeightSet,
    p: ReplicaId,
) -> Result<(), NoMemory>
    requires { is_up state.old.group p ≡ false }
    ensures { OnOk result (state.new ≡ begin_replica set.now state.old p) }
{
    let node = Node::begin(alloc, p, set)?;
    state.named.add(p);
    state.nodes.put(node)?;
    state.group.add(p)
}
