//! Crashes, and faults of devices.
ghost use Rattle.std.specs.Prelude.{◌≡◌, ◌≤◌, [], OnOk};
ghost use Rattle.cg_disk_records.specs.Crash.{FailOnce, StopWith};
ghost use Rattle.cg_schedule.specs.declared.event.Event.TheVariants.{Stop, Fail};
ghost use Rattle.cg_model.specs.World.{bring_down};
ghost use Rattle.cg_model.specs.Step.{arm, crashed, stop};
ghost use Rattle.cg_world_events.specs.Nodes.{changed};
ghost use Rattle.cg_world_events.specs.Happening.{Happens};
ghost use Rattle.cg_world_events.specs.StepInProgress.{IsQuiet};

use crate::admission::{admit, takes_part};
use crate::nodes::BoxedNode;
use crate::{StepInProgress, WorldState};
use cg_base::{Bytes, NoMemory, ReplicaId, Row};
use cg_group::GroupErr;
use std::alloc::Global;

// The replica crashes now, or in the device call of this number from the next one on, which leaves these bytes in places that
// weren't synced.
#[tactic(auto, unfolding(cg_model::specs::Admission::first_refusal, cg_model::specs::Step::happens))]
pub(crate) fn stop(
    alloc: Global,
    going: &mut StepInProgress,
    p: ReplicaId,
    call: u64,
    fill: &Bytes,
) -> Result<(), GroupErr>
    requires { IsQuiet going.old }
    ensures { Happens going.old (Stop p call fill.now) going.new result }
{
    admit(takes_part(&going.state, p))?;
    stop_at(alloc, &mut going.state, p, call, fill)?;
    Ok(())
}

fn stop_at(
    alloc: Global,
    state: &mut WorldState,
    p: ReplicaId,
    call: u64,
    fill: &Bytes,
) -> Result<(), NoMemory>
    ensures { OnOk result (state.new ≡ stop state.old p call fill.now) }
{
    if call == 0 {
        return crash(state, p);
    }
    let fill = Row::from_slice(alloc, fill.as_slice())?;
    arm_stop(state, p, call, fill)
}

// A crash now, where the replica is up.
fn crash(state: &mut WorldState, p: ReplicaId) -> Result<(), NoMemory>
    ensures { OnOk result (state.new ≡ stop state.old p 0 []) }
{
    match state.take_up(p) {
        Some(node) => crash_node(state, node),
        None => Ok(()),
    }
}

fn crash_node(state: &mut WorldState, node: BoxedNode) -> Result<(), NoMemory>
    ensures { OnOk result (
        let down = changed node (crashed node.life) in state.new ≡ bring_down state.old down.id down.life) }
{
    let node = node.crash(state.alloc())?;
    state.take_down(node)
}

// A crash is armed, where the replica is up.
fn arm_stop(state: &mut WorldState, p: ReplicaId, call: u64, fill: Bytes) -> Result<(), NoMemory>
    requires { 1 ≤ call }
    ensures { OnOk result (state.new ≡ arm state.old p (record { call = call; fault = StopWith fill })) }
{
    match state.take_up(p) {
        Some(node) => {
            let mut node = node.into_inner();
            node.stop_at(call, fill);
            state.nodes.put(node)
        }
        None => Ok(()),
    }
}

// The device call of this number, from the next one on, fails once.
#[tactic(auto, unfolding(cg_model::specs::Admission::first_refusal, cg_model::specs::Step::happens))]
pub(crate) fn fail(going: &mut StepInProgress, p: ReplicaId, call: u64) -> Result<(), GroupErr>
    requires quiet { IsQuiet going.old }
    requires counted { 1 ≤ call }
    ensures { Happens going.old (Fail p call) going.new result }
{
    admit(takes_part(&going.state, p))?;
    arm_fail(&mut going.state, p, call)?;
    Ok(())
}

// A fault is armed, where the replica is up.
fn arm_fail(state: &mut WorldState, p: ReplicaId, call: u64) -> Result<(), NoMemory>
    requires { 1 ≤ call }
    ensures { OnOk result (state.new ≡ arm state.old p (record { call = call; fault = FailOnce })) }
{
    match state.take_up(p) {
        Some(node) => {
            let mut node = node.into_inner();
            node.fail_at(call);
            state.nodes.put(node)
        }
        None => Ok(()),
    }
}
