//! Snapshots go to joiners, piece by piece.
ghost use Rattle.std.specs.Prelude.{◌≡◌, ◌∷◌, [], false, option_map, IfOk, OnOk};
ghost use Rattle.cg_group.specs.State.{is_up};
ghost use Rattle.cg_records.specs.Limits.{IsNumber};
ghost use Rattle.cg_report.specs.declared.entry.Shown.TheVariants.{Pieces};
ghost use Rattle.cg_schedule.specs.declared.event.Event.TheVariants.{Transfer as TransferEvent};
ghost use Rattle.cg_client.specs.Joined.{piece_count};
ghost use Rattle.cg_disk_records.specs.Crash.{new_disk};
ghost use Rattle.cg_model.specs.World.{replica_of, bring_up};
ghost use Rattle.cg_model.specs.Step.{joiner_replica, handed, takes, transfer};
ghost use Rattle.cg_transfer.specs.Calls.{copy_of};
ghost use Rattle.cg_world_events.specs.Choosing.{Chooses};
ghost use Rattle.cg_world_events.specs.Nodes.{new_node};
ghost use Rattle.cg_world_events.specs.StepInProgress.{IsQuiet};
ghost use Rattle.cg_world_events.specs.Grounds.{IsHosted};
ghost use Rattle.cg_world_events.specs.Happening.{Happens};

use crate::admission::{admit, transfer_refused};
use crate::{Node, StepInProgress, WorldState};
use cg_base::{NoMemory, ReplicaId, Row};
use cg_group::GroupErr;
use cg_report::Shown;
use cg_transfer::Transfer;
use std::alloc::Global;

// The next pieces of a snapshot go to its joiner, which is up when it has all of them.
#[tactic(auto, unfolding(cg_model::specs::Admission::first_refusal, cg_model::specs::Step::happens))]
pub(crate) fn transfer(
    alloc: Global,
    going: &mut StepInProgress,
    p: ReplicaId,
    joiner: ReplicaId,
    pieces: u64,
) -> Result<(), GroupErr>
    requires quiet { IsQuiet going.old }
    requires hosted { IsHosted going.old.world }
    ensures { Happens going.old (TransferEvent p joiner pieces) going.new result }
{
    admit(transfer_refused(&going.state, p, joiner))?;
    hand_pieces(alloc, going, p, joiner, pieces)?;
    Ok(())
}

fn hand_pieces(
    alloc: Global,
    going: &mut StepInProgress,
    p: ReplicaId,
    joiner: ReplicaId,
    pieces: u64,
) -> Result<(), NoMemory>
    requires quiet { IsQuiet going.old }
    requires down { is_up going.old.world.group joiner ≡ false }
    ensures { OnOk result (going.new ≡ transfer going.old.world p joiner pieces) }
{
    let chosen = choose(&mut going.state, p, joiner)?;
    match chosen {
        Some(snapshot) => take_pieces(alloc, going, snapshot, pieces),
        None => Ok(()),
    }
}

// The giver's snapshot for the joiner, a new one where none is under way.
fn choose(
    state: &mut WorldState,
    p: ReplicaId,
    joiner: ReplicaId,
) -> Result<Option<Transfer>, NoMemory>
    ensures { IfOk result (λ found. Chooses state.old state.new p joiner found) }
{
    if !state.is_up(p) {
        return Ok(None);
    }
    match state.transfers.take(p, joiner) {
        Some(snapshot) => Ok(Some(snapshot)),
        None => copy(state, p, joiner),
    }
}

// A new snapshot of the replica, where it is up.
fn copy(
    state: &mut WorldState,
    p: ReplicaId,
    joiner: ReplicaId,
) -> Result<Option<Transfer>, NoMemory>
    ensures copy { IfOk result (λ found. found ≡
        option_map (λ r. copy_of joiner p r.held) (replica_of state.old p)) }
    ensures world { state.new ≡ state.old }
{
    let number = state.given.next_number(state.nodes.alloc(), p)?;
    copy_of(state, p, number, joiner)
}

fn copy_of(
    state: &WorldState,
    p: ReplicaId,
    number: u64,
    joiner: ReplicaId,
) -> Result<Option<Transfer>, NoMemory>
    requires { IsNumber number }
    ensures { IfOk result (λ found. found ≡
        option_map (λ r. copy_of joiner p r.held) (replica_of state.now p)) }
{
    match state.core(p) {
        Some(core) => {
            let copy = Transfer::of(core, p, number, joiner)?;
            Ok(Some(copy))
        }
        None => Ok(None),
    }
}

// The next pieces are taken, or all that are left, and that is shown.
fn take_pieces(
    alloc: Global,
    going: &mut StepInProgress,
    snapshot: Transfer,
    pieces: u64,
) -> Result<(), NoMemory>
    requires quiet { IsQuiet going.old }
    requires down { is_up going.old.world.group snapshot.joiner ≡ false }
    ensures { OnOk result (going.new ≡ takes going.old.world snapshot pieces) }
{
    let snapshot = snapshot.take(pieces)?;
    let list = taken_of(alloc, &snapshot)?;
    hand(alloc, &mut going.state, snapshot)?;
    going.show(list)
}

// How many pieces were taken, and of how many.
fn taken_of(alloc: Global, snapshot: &Transfer) -> Result<Row<Shown>, NoMemory>
    ensures { IfOk result (λ list. list ≡ Pieces snapshot.now.joiner
        snapshot.now.taken (piece_count snapshot.now.content) ∷ []) }
{
    let joiner = snapshot.joiner();
    let taken = snapshot.taken();
    let all = snapshot.count();
    let mut list = Row::new(alloc);
    list.push(Shown::Pieces { joiner, taken, all })?;
    Ok(list)
}

// The joiner is up where all pieces were taken; or its snapshot is under way.
fn hand(alloc: Global, state: &mut WorldState, snapshot: Transfer) -> Result<(), NoMemory>
    requires { is_up state.old.group snapshot.joiner ≡ false }
    ensures { OnOk result (state.new ≡ handed state.old snapshot) }
{
    if snapshot.taken() == snapshot.count() {
        return join_in(alloc, state, snapshot);
    }
    state.transfers.push(snapshot)
}

fn join_in(alloc: Global, state: &mut WorldState, snapshot: Transfer) -> Result<(), NoMemory>
    requires down { is_up state.old.group snapshot.joiner ≡ false }
    requires all { snapshot.taken ≡ piece_count snapshot.content }
    ensures { OnOk result (
        let r = joiner_replica snapshot.joiner snapshot.content in
        state.new ≡ bring_up state.old r (new_disk r.held)) }
{
    let joiner = snapshot.joiner();
    let node = arrive(alloc, snapshot)?;
    state.nodes.put(node)?;
    state.group.add(joiner)
}

// The joiner is up with its new disk.
fn arrive(alloc: Global, snapshot: Transfer) -> Result<Node, NoMemory>
    requires { snapshot.taken ≡ piece_count snapshot.content }
    ensures { IfOk result (λ s. s ≡
        new_node snapshot.joiner (joiner_replica snapshot.joiner snapshot.content)) }
{
    let joiner = snapshot.joiner();
    let disk = snapshot.finish()?;
    Node::from_disk(alloc, disk, joiner)
}
