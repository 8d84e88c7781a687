//! What the records of a disk stand for.
ghost use Rattle.std.specs.Prelude.{◌≡◌, drop, Some, IfOk};
ghost use Rattle.cg_disk.specs.Sides.{opposite};
ghost use Rattle.cg_journal.specs.Records.{on_side};
ghost use Rattle.cg_disk_records.specs.Laws.{AreSaved};
ghost use Rattle.cg_disk_records.specs.Parts.{stored_in};
ghost use Rattle.cg_disk_records.specs.Holds.{Holds};
ghost use Rattle.cg_store.specs.Stands.{led_by_all};
ghost use Rattle.cg_store.specs.Opening.{Follows, FindsFirst, IsInFront, IsLater, FindsFront, Replays, Finds};

use crate::last_values::LastValues;
use crate::rebuild::rebuild;
use crate::replay::follow;
use cg_base::{NoMemory, ReplicaId};
use cg_client::Core;
use cg_disk::Side;
use cg_disk_records::{Checkpoint, generation_of, read_checkpoint, what_is_held_agrees};
use cg_journal::Bodies;
use cg_records::Stable;
use std::alloc::Global;

/// The side in use, the generation of its checkpoint, the values that stand there, and all that the replica holds.
#[derive(Drop)]
pub(crate) struct OpenedSide {
    pub(crate) side: Side,
    pub(crate) generation: u64,
    pub(crate) values: Stable,
    pub(crate) core: Core,
}

/// What the records of the two sides stand for, if they stand for a state of this replica.
pub(crate) fn find(
    alloc: Global,
    id: ReplicaId,
    a: &Bodies,
    b: &Bodies,
) -> Result<Option<OpenedSide>, NoMemory>
    ensures { IfOk result (Finds id (record { a = a.now; b = b.now })) }
{
    what_is_held_agrees();
    match front_of(alloc, id, a, b)? {
        Some(front) => {
            let bodies = bodies_on(front.side, a, b);
            replay(alloc, id, front, bodies)
        }
        None => Ok(None),
    }
}

/// The checkpoint at the front of a side.
#[derive(Drop)]
pub(crate) struct SideFront {
    side: Side,
    first: Checkpoint,
}

pub(crate) fn other(side: Side) -> Side
    ensures { result ≡ opposite side }
{
    match side {
        Side::A => Side::B,
        Side::B => Side::A,
    }
}

fn bodies_on<'a>(side: Side, a: &'a Bodies, b: &'a Bodies) -> &'a Bodies
    ensures { result.now ≡ on_side side (record { a = a.now; b = b.now }) }
{
    match side {
        Side::A => a,
        Side::B => b,
    }
}

// the checkpoint at the front of a side
fn first_of(alloc: Global, id: ReplicaId, bodies: &Bodies) -> Result<Option<Checkpoint>, NoMemory>
    ensures { IfOk result (FindsFirst id bodies.now) }
{
    match bodies.get(0) {
        Some(body) => read_checkpoint(alloc, id, body),
        None => Ok(None),
    }
}

// The checkpoint in use. Where both sides begin with one, only that of the later side is read whole.
fn front_of(
    alloc: Global,
    id: ReplicaId,
    a: &Bodies,
    b: &Bodies,
) -> Result<Option<SideFront>, NoMemory>
    ensures { IfOk result (FindsFront id (record { a = a.now; b = b.now })) }
{
    let side = later(a, b);
    if let Some(first) = first_of(alloc, id, bodies_on(side, a, b))? {
        return Ok(Some(SideFront { side, first }));
    }
    let side = other(side);
    match first_of(alloc, id, bodies_on(side, a, b))? {
        Some(first) => Ok(Some(SideFront { side, first })),
        None => Ok(None),
    }
}

// of two sides that begin with checkpoints the one with the greater generation, A where the two are equal
fn later(a: &Bodies, b: &Bodies) -> Side
    ensures { IsLater a.now b.now result }
{
    let Some(front_a) = front_generation(a) else {
        return Side::A;
    };
    let Some(front_b) = front_generation(b) else {
        return Side::A;
    };
    if front_a < front_b { Side::B } else { Side::A }
}

// the generation of the checkpoint at the front, if there is one
fn front_generation(bodies: &Bodies) -> Option<u64>
    ensures { IsInFront bodies.now result }
{
    match bodies.get(0) {
        Some(body) => generation_of(body),
        None => None,
    }
}

fn replay(
    alloc: Global,
    id: ReplicaId,
    front: SideFront,
    bodies: &Bodies,
) -> Result<Option<OpenedSide>, NoMemory>
    requires saved { AreSaved id front.first }
    requires holds { Holds (stored_in id front.first) }
    ensures { IfOk result (Replays id front.side front.first (drop 1 bodies.now)) }
{
    let SideFront { side, first } = front;
    let generation = first.generation;
    let mut core = rebuild(alloc, id, first)?;
    let fits = follow_all(alloc, &mut core, bodies)?;
    if !fits {
        return Ok(None);
    }
    let values = core.stable()?;
    Ok(Some(OpenedSide {
        side,
        generation,
        values,
        core,
    }))
}

// Puts all records behind the first one into what the replica holds, where each is a change that fits.
fn follow_all(alloc: Global, core: &mut Core, bodies: &Bodies) -> Result<bool, NoMemory>
    requires { Holds core.old }
    ensures { IfOk result (Follows (led_by_all (Some core.old) (drop 1 bodies.now)) core.new) }
{
    let mut recent = LastValues::new(core.stable()?);
    for i in 1..bodies.len() {
        let Some(body) = bodies.get(i) else {
            unreachable!();
        };
        if !follow(alloc, core, &mut recent, body)? {
            return Ok(false);
        }
    }
    Ok(true)
}
