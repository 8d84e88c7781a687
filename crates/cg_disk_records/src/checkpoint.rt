ghost use Rattle.std.specs.Prelude.{◌≡◌, IfOk};
ghost use Rattle.cg_codec.specs.Reading.{whole};
ghost use Rattle.cg_codec.specs.Taking.{unread_of, TakesWithMemory, Decodes};
ghost use Rattle.cg_disk_records.specs.Reading.{kept_reading, checkpoint_reading};
ghost use Rattle.cg_disk_records.specs.Parts.{checkpoint_of, HasGeneration};
ghost use Rattle.cg_disk_records.specs.Laws.{GivesParts, FindsCheckpoint};

use crate::entries::take_entries;
use crate::lists::take_actions;
use crate::reached::take_reached;
use cg_action::ActionList;
use cg_base::{Cut, NoMemory, ReplicaId};
use cg_codec::{CodecFault, Fields};
use cg_db::Db;
use cg_members::Members;
use cg_records::{Stable, take_number, take_stable};
use std::alloc::Global;

/// How far the greens reach, and what they make of the members.
#[derive(Drop)]
pub struct Reached {
    /// The number of greens, discarded ones counted.
    pub count: u64,
    /// The number of greens that are discarded.
    pub white: u64,
    /// How far each creator's actions are green.
    pub cut: Cut,
    pub members: Members,
}

/// The actions that are kept.
#[derive(Drop)]
pub struct KeptActions {
    /// The greens behind the discarded ones, in order.
    pub greens: ActionList,
    /// The reds, by name.
    pub reds: ActionList,
    /// The replica's own actions that weren't delivered to it yet.
    pub own: ActionList,
}

/// The parts of a checkpoint.
#[derive(Drop)]
pub struct Checkpoint {
    /// From 1, one more with each checkpoint of a disk.
    pub generation: u64,
    pub stable: Stable,
    pub reached: Reached,
    /// What the greens make of the database.
    pub db: Db,
    pub kept: KeptActions,
}

impl Checkpoint {
    // the checkpoint, where it is this replica's
    fn of(self, id: ReplicaId) -> Option<Checkpoint>
        ensures { result ≡ checkpoint_of id self }
    {
        if self.agrees(id) { Some(self) } else { None }
    }
}

/// The parts of a checkpoint that all of the bytes spell. Where they spell none, the first fault from the left.
/// Whether the parts agree isn't asked.
pub fn decode_checkpoint(alloc: Global, bytes: &[u8]) -> Result<Checkpoint, CodecFault>
    ensures read { Decodes (λ p. p) (whole checkpoint_reading bytes.now) result }
    ensures exact { GivesParts bytes.now result }
{
    read_all(alloc, bytes)
}

/// The parts of the checkpoint of this replica that all of the bytes are, if they are one.
pub fn read_checkpoint(
    alloc: Global,
    id: ReplicaId,
    bytes: &[u8],
) -> Result<Option<Checkpoint>, NoMemory>
    ensures { IfOk result (FindsCheckpoint id bytes.now) }
{
    id.holds();
    match decode_checkpoint(alloc, bytes) {
        Ok(checkpoint) => Ok(checkpoint.of(id)),
        Err(fault) => match fault.number() {
            Some(_) => Ok(None),
            None => Err(NoMemory),
        },
    }
}

/// The generation of the checkpoint that the bytes are: it stands in front, and nothing behind it is read. Other bytes have
/// any number, or none.
pub fn generation_of(bytes: &[u8]) -> Option<u64>
    ensures { HasGeneration bytes.now result }
{
    let mut fields = Fields::new(bytes);
    match take_number(&mut fields) {
        Ok(generation) => Some(generation),
        Err(_) => None,
    }
}

fn read_all(alloc: Global, bytes: &[u8]) -> Result<Checkpoint, CodecFault>
    ensures { Decodes (λ p. p) (whole checkpoint_reading bytes.now) result }
{
    let mut fields = Fields::new(bytes);
    let checkpoint = take_checkpoint(alloc, &mut fields)?;
    fields.finish()?;
    Ok(checkpoint)
}

#[tactic(auto, unfolding(crate::specs::Reading::checkpoint_reading))]
fn take_checkpoint(alloc: Global, fields: &mut Fields<'_>) -> Result<Checkpoint, CodecFault>
    ensures { TakesWithMemory (λ p. p) checkpoint_reading (unread_of fields.old) (unread_of fields.new) result }
{
    let mut after = *fields;
    let generation = take_number(&mut after)?;
    let stable = take_stable(alloc, &mut after)?;
    let reached = take_reached(&mut after)?;
    let db = take_entries(alloc, &mut after)?;
    let kept = take_kept(alloc, &mut after)?;
    *fields = after;
    Ok(Checkpoint {
        generation,
        stable,
        reached,
        db,
        kept,
    })
}

#[tactic(auto, unfolding(crate::specs::Reading::kept_reading))]
fn take_kept(alloc: Global, fields: &mut Fields<'_>) -> Result<KeptActions, CodecFault>
    ensures { TakesWithMemory (λ k. k) kept_reading (unread_of fields.old) (unread_of fields.new) result }
{
    let mut after = *fields;
    let greens = take_actions(alloc, &mut after)?;
    let reds = take_actions(alloc, &mut after)?;
    let own = take_actions(alloc, &mut after)?;
    *fields = after;
    Ok(KeptActions { greens, reds, own })
}
