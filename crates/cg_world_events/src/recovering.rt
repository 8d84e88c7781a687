//! The ways back from a crash, and a disk of the older format.
ghost use Rattle.std.specs.Prelude.{◌≡◌, ◌≤◌, None, false, is_some, OnOk};
ghost use Rattle.cg_group.specs.State.{is_up};
ghost use Rattle.cg_disk_records.specs.Crash.{StopWith};
ghost use Rattle.cg_schedule.specs.declared.event.Event.TheVariants.{Recover, RecoverStopped, Downgrade};
ghost use Rattle.cg_model.specs.Admission.{is_weighted};
ghost use Rattle.cg_model.specs.World.{replica_of};
ghost use Rattle.cg_model.specs.Step.{risen, recover, recover_under, downgrade};
ghost use Rattle.cg_world_events.specs.Grounds.{IsHosted};
ghost use Rattle.cg_world_events.specs.Happening.{Happens};
ghost use Rattle.cg_world_events.specs.StepInProgress.{IsQuiet};
ghost use Rattle.cg_world_events.specs.Nodes.{raised, raised_under};
ghost use Rattle.cg_world_events.specs.Striking.{put_back};

use crate::admission::{admit, cannot_rise, is_weighted};
use crate::{EventEffects, Node, StepInProgress, WorldState};
use cg_base::{Bytes, NoMemory, ReplicaId};
use cg_group::GroupErr;
use std::alloc::Global;

// The replica comes back from its disk.
#[tactic(auto, unfolding(cg_model::specs::Admission::first_refusal, cg_model::specs::Step::happens))]
pub(crate) fn recover(
    alloc: Global,
    going: &mut StepInProgress,
    p: ReplicaId,
) -> Result<(), GroupErr>
    requires quiet { IsQuiet going.old }
    requires hosted { IsHosted going.old.world }
    ensures { Happens going.old (Recover p) going.new result }
{
    admit(cannot_rise(&going.state, p))?;
    come_up(alloc, going, p)?;
    Ok(())
}

// The replica comes up, and what is to be shown of that is shown.
fn come_up(alloc: Global, going: &mut StepInProgress, p: ReplicaId) -> Result<(), NoMemory>
    requires quiet { IsQuiet going.old }
    requires hosted { IsHosted going.old.world }
    requires down { is_some (replica_of going.old.world p) ≡ false }
    ensures { OnOk result (going.new ≡ recover going.old.world p) }
{
    match going.state.take(p) {
        Some(node) => recover_node(alloc, going, node),
        None => Ok(()),
    }
}

fn recover_node(alloc: Global, going: &mut StepInProgress, node: Node) -> Result<(), NoMemory>
    requires quiet { IsQuiet going.old }
    requires outside { is_up going.old.world.group node.id ≡ false }
    ensures { OnOk result (going.new ≡
        put_back going.old.world (raised node (risen going.old.world.made node.life))) }
{
    let (node, news) = node.recover(alloc, &going.state.made.get())?;
    put_back(going, node, news)
}

// The replica comes back from its disk, unless it is stopped in the device call of this number, which leaves these bytes in
// places that weren't synced.
#[tactic(auto, unfolding(cg_model::specs::Admission::first_refusal, cg_model::specs::Step::happens))]
pub(crate) fn recover_stopped(
    alloc: Global,
    going: &mut StepInProgress,
    p: ReplicaId,
    call: u64,
    fill: &Bytes,
) -> Result<(), GroupErr>
    requires quiet { IsQuiet going.old }
    requires hosted { IsHosted going.old.world }
    requires counted { 1 ≤ call }
    ensures { Happens going.old (RecoverStopped p call fill.now) going.new result }
{
    admit(cannot_rise(&going.state, p))?;
    come_up_under(alloc, going, p, call, fill)?;
    Ok(())
}

// The replica comes up, and what is to be shown of that is shown; or it stays down.
fn come_up_under(
    alloc: Global,
    going: &mut StepInProgress,
    p: ReplicaId,
    call: u64,
    fill: &Bytes,
) -> Result<(), NoMemory>
    requires quiet { IsQuiet going.old }
    requires hosted { IsHosted going.old.world }
    requires down { is_some (replica_of going.old.world p) ≡ false }
    requires counted { 1 ≤ call }
    ensures { OnOk result (going.new ≡
        recover_under going.old.world p (record { call = call; fault = StopWith fill.now })) }
{
    match going.state.take(p) {
        Some(node) => recover_node_under(alloc, going, node, call, fill),
        None => Ok(()),
    }
}

fn recover_node_under(
    alloc: Global,
    going: &mut StepInProgress,
    node: Node,
    call: u64,
    fill: &Bytes,
) -> Result<(), NoMemory>
    requires quiet { IsQuiet going.old }
    requires outside { is_up going.old.world.group node.id ≡ false }
    requires counted { 1 ≤ call }
    ensures { OnOk result (going.new ≡ put_back going.old.world
        (raised_under going.old.world.made (record { call = call; fault = StopWith fill.now }) node)) }
{
    let made = going.state.made.get();
    let (node, news) = node.recover_stopped(alloc, call, fill.as_slice(), &made)?;
    put_back(going, node, news)
}

// The replica's node stands again: it is up where something is to be shown of that, and else down.
fn put_back(
    going: &mut StepInProgress,
    node: Node,
    news: Option<EventEffects>,
) -> Result<(), NoMemory>
    requires quiet { IsQuiet going.old }
    requires outside { is_up going.old.world.group node.id ≡ false }
    ensures { OnOk result (going.new ≡ put_back going.old.world (node, news)) }
{
    match news {
        Some(news) => {
            going.state.put_up(node)?;
            going.tell(news)
        }
        None => going.state.put_down(node),
    }
}

// In place of the replica's disk there is one of the older format, which stands for the same.
#[tactic(auto, unfolding(cg_model::specs::Admission::first_refusal, cg_model::specs::Step::happens))]
pub(crate) fn downgrade(
    alloc: Global,
    going: &mut StepInProgress,
    p: ReplicaId,
) -> Result<(), GroupErr>
    requires { IsQuiet going.old }
    ensures { Happens going.old (Downgrade p) going.new result }
{
    admit(cannot_rise(&going.state, p))?;
    admit(is_weighted(&going.state, p)?)?;
    make_old(alloc, &mut going.state, p)?;
    Ok(())
}

fn make_old(alloc: Global, state: &mut WorldState, p: ReplicaId) -> Result<(), NoMemory>
    requires light { is_weighted state.old p ≡ None }
    requires down { is_some (replica_of state.old p) ≡ false }
    ensures { OnOk result (state.new ≡ downgrade state.old p) }
{
    match state.nodes.take(p) {
        Some(node) => {
            let node = node.downgrade(alloc)?;
            state.nodes.put(node)
        }
        None => Ok(()),
    }
}
