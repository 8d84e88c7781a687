//! What the records of sides of either format stand for.
ghost use Rattle.std.specs.Prelude.{◌≡◌, ◌++◌, ◌∷◌, [], List, ℕ, IfOk, OnOk};
ghost use Rattle.cg_store.specs.Translated.{IsSameChange, IsSameCheckpoint, AreSame, IsInNewer, FindsOn};

use crate::finding::{OpenedSide, find};
use cg_base::{NoMemory, ReplicaId};
use cg_journal::{Bodies, SideRecords};
use cg_older::{newer_change, newer_checkpoint};
use std::alloc::Global;

/// What stands on the two sides, if they stand for a state of this replica.
pub(crate) fn find_on(
    alloc: Global,
    id: ReplicaId,
    a: SideRecords,
    b: SideRecords,
) -> Result<Option<OpenedSide>, NoMemory>
    ensures { IfOk result (FindsOn id (record { a = a; b = b })) }
{
    let newer_a = in_newer(alloc, a)?;
    let newer_b = in_newer(alloc, b)?;
    find(alloc, id, &newer_a, &newer_b)
}

// The bodies of a side in the newer format. None is copied where they are.
fn in_newer(alloc: Global, side: SideRecords) -> Result<Bodies, NoMemory>
    ensures { IfOk result (IsInNewer side) }
{
    let SideRecords { version, bodies } = side;
    if version == 1 {
        return translated(alloc, &bodies);
    }
    Ok(bodies)
}

// Records of the newer format that say the same.
fn translated(alloc: Global, bodies: &Bodies) -> Result<Bodies, NoMemory>
    ensures { IfOk result (AreSame bodies.now) }
{
    let mut newer = Bodies::empty(alloc);
    let Some(first) = bodies.get(0) else {
        return Ok(newer);
    };
    push_checkpoint(alloc, &mut newer, first)?;
    for i in 1..bodies.len() {
        let Some(body) = bodies.get(i) else {
            unreachable!();
        };
        push_change(alloc, &mut newer, body)?;
    }
    Ok(newer)
}

// What is no record of the older format becomes no bytes, which are no record either.
fn push_checkpoint(alloc: Global, newer: &mut Bodies, body: &[u8]) -> Result<(), NoMemory>
    ensures { OnOk result ((new : List ℕ) × IsSameCheckpoint body.now new × (newer.new ≡ newer.old ++ new ∷ [])) }
{
    match newer_checkpoint(alloc, body)? {
        Some(checkpoint) => newer.push(&checkpoint),
        None => newer.push(&[]),
    }
}

fn push_change(alloc: Global, newer: &mut Bodies, body: &[u8]) -> Result<(), NoMemory>
    ensures { OnOk result ((new : List ℕ) × IsSameChange body.now new × (newer.new ≡ newer.old ++ new ∷ [])) }
{
    match newer_change(alloc, body)? {
        Some(change) => newer.push(&change),
        None => newer.push(&[]),
    }
}
