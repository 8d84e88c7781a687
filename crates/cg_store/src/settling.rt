//! How a disk that was read goes over to the newer format.
ghost use Rattle.std.specs.Prelude.{◌≡◌, ℕ, ◌+◌, ◌<◌, ◌≤◌, suc, length, Some, IfOk, OnOk};
ghost use Rattle.cg_base.specs.declared.limits.TheConstants.{COUNT_LIMIT, LIST_LIMIT};
ghost use Rattle.cg_disk_records.specs.Checkpoint.{spelled_checkpoint};
ghost use Rattle.cg_disk_records.specs.Parts.{checkpoint_in};
ghost use Rattle.cg_journal.specs.Found.{Sides};
ghost use Rattle.cg_records.specs.Limits.{IsNumber};
ghost use Rattle.cg_store.specs.Stands.{OnDisk};
ghost use Rattle.cg_store.specs.Formats.{Standing, StandsFor};
ghost use Rattle.cg_store.specs.Opening.{IsSound};
ghost use Rattle.cg_store.specs.Settling.{IsAtHand, IsOfVersion, IsNewerOn, IsClearing, Clears, Settles, at_side};

use crate::finding::{OpenedSide, other};
use crate::records::checkpoint_record;
use cg_base::{NUMBER_LIMIT, NoMemory};
use cg_disk::{Disk, Side};
use cg_disk_records::{checkpoints_are_exact, what_is_held_agrees};
use cg_journal::{Journal, MigrateErr, MixedJournal};
use std::alloc::Global;

/// The journal of a disk whose sides are both of the newer format, the side in use, and its generation.
#[derive(Drop)]
pub(crate) struct Settled<D: Disk> {
    pub(crate) journal: Journal<D>,
    pub(crate) side: Side,
    pub(crate) generation: u64,
}

/// Lets a disk on which this was found go over to the newer format, where its sides are of these versions.
pub(crate) fn settle<D: Disk>(
    alloc: Global,
    journal: MixedJournal<D>,
    found: &OpenedSide,
    a: u8,
    b: u8,
) -> Result<Settled<D>, MigrateErr<D>>
    requires calls { (D.view journal).time + 11 ≤ COUNT_LIMIT }
    requires found { IsAtHand found.now a b (D.view journal) }
    ensures ends { (s : Standing) → StandsFor found.now.core.id (D.view journal).reads s →
        Settles D.view found.now.core.id s (D.view journal) result }
    ensures small { IfOk result (λ x. IsNumber x.generation) }
{
    let version = at_side(found.side, a, b);
    if version == 1 {
        return move_over(alloc, journal, found);
    }
    if at_side(other(found.side), a, b) != 2 {
        return clear_other(journal, found.side, found.generation);
    }
    Ok(Settled {
        journal: journal.into_journal(),
        side: found.side,
        generation: found.generation,
    })
}

// Puts a checkpoint of what was found on the other side, and clears the side that was in use.
fn move_over<D: Disk>(
    alloc: Global,
    journal: MixedJournal<D>,
    found: &OpenedSide,
) -> Result<Settled<D>, MigrateErr<D>>
    requires calls { (D.view journal).time + 11 ≤ COUNT_LIMIT }
    requires older { IsOfVersion found.now 1 (D.view journal) }
    ensures ends { (s : Standing) → StandsFor found.now.core.id (D.view journal).reads s →
        Settles D.view found.now.core.id s (D.view journal) result }
    ensures small { IfOk result (λ x. IsNumber x.generation) }
{
    let body = match moved_record(alloc, found) {
        Ok(body) => body,
        Err(_) => return Err(MigrateErr::NoMemory(journal.into_disk())),
    };
    let spare = other(found.side);
    match journal.renew(alloc, spare, &body) {
        Ok(journal) => clear_other(journal, spare, found.generation + 1),
        Err(fault) => Err(fault),
    }
}

// The checkpoint of what was found that is next.
fn moved_record(alloc: Global, found: &OpenedSide) -> Result<Vec<u8>, NoMemory>
    requires { IsSound found.now.core }
    ensures small { OnOk result (IsNumber (suc found.now.generation)) }
    ensures spelled { IfOk result (λ bytes. bytes.items ≡
        spelled_checkpoint (suc found.now.generation) found.now.core) }
    ensures saved { IfOk result (λ bytes. checkpoint_in found.now.core.id bytes.items ≡
        Some (record { generation = suc found.now.generation; content = found.now.core })) }
    ensures short { IfOk result (λ bytes. length bytes.items < LIST_LIMIT) }
{
    checkpoints_are_exact();
    what_is_held_agrees();
    // more checkpoints than any run makes
    if found.generation >= NUMBER_LIMIT - 1 {
        return Err(NoMemory);
    }
    checkpoint_record(alloc, found.generation + 1, &found.core)
}

// Clears the side that isn't in use. The one that is has the newer format.
fn clear_other<D: Disk>(
    journal: MixedJournal<D>,
    side: Side,
    generation: u64,
) -> Result<Settled<D>, MigrateErr<D>>
    requires calls { (D.view journal).time + 4 ≤ COUNT_LIMIT }
    requires newer { IsNewerOn side (D.view journal) }
    ensures clears { (id : ℕ) (earlier : ℕ) (was : Standing) (s : Sides) (u : OnDisk) →
        IsClearing id earlier was s u (D.view journal) → u.side ≡ side →
        Clears D.view id earlier was (D.view journal) result }
    ensures kept { IfOk result (λ x. (x.side ≡ side) × (x.generation ≡ generation)) }
{
    match journal.clear(other(side)) {
        Ok(journal) => Ok(Settled {
            journal: journal.into_journal(),
            side,
            generation,
        }),
        Err(fault) => Err(fault),
    }
}

fn at_side(side: Side, a: u8, b: u8) -> u8
    ensures { result ≡ at_side side a b }
{
    match side {
        Side::A => a,
        Side::B => b,
    }
}
