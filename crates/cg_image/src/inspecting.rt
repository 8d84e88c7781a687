//! What is seen in an image.
ghost use Rattle.std.specs.Prelude.{◌≡◌, ◌+◌, ◌≤◌, IfOk};
ghost use Rattle.cg_base.specs.declared.limits.TheConstants.{COUNT_LIMIT};
ghost use Rattle.cg_store.specs.Formats.{standing_on_disk};
ghost use Rattle.cg_image.specs.Calls.{IsUnarmed};
ghost use Rattle.cg_image.specs.Inspecting.{inspected, of_disk, entry_of_recovered};
ghost use Rattle.cg_image.specs.Told.{told_of};

use crate::take_image;
use cg_base::{NoMemory, ReplicaId, Row};
use cg_disk::Disk;
use cg_engine::{Engine, Recovered, Wreck};
use cg_group::Phase;
use cg_report::Entry;
use std::alloc::Global;

/// What bytes are.
#[derive(Drop)]
pub enum Inspected {
    /// They are no image.
    NotAnImage,
    /// On the disk stands no state of the replica.
    NotAStore,
    /// What a recovery of the replica prints: its line, its green actions and its database.
    Holds(Entry),
}

/// What is seen in an image, of either format: the replica that a recovery brings up from its disk. The image is only read.
pub fn inspect(alloc: Global, bytes: &[u8]) -> Result<Inspected, NoMemory>
    ensures { IfOk result (λ r. r ≡ told_of (inspected bytes.now)) }
{
    match take_image(alloc, bytes)? {
        None => Ok(Inspected::NotAnImage),
        Some(taken) => inspect_disk(alloc, taken.disk, taken.id),
    }
}

// What is seen of a disk on which nothing is armed.
fn inspect_disk<D: Disk + Drop>(
    alloc: Global,
    disk: D,
    id: ReplicaId,
) -> Result<Inspected, NoMemory>
    requires calls { (D.view disk).time + 16 ≤ COUNT_LIMIT }
    requires unarmed { IsUnarmed (D.view disk) }
    ensures { IfOk result (λ r. r ≡ told_of (of_disk (standing_on_disk id (D.view disk).reads))) }
{
    match Engine::recover(alloc, Wreck::new(alloc, disk, id)) {
        Recovered::Running { engine, green } => {
            drop(green);
            Ok(Inspected::Holds(entry_of(alloc, engine)?))
        }
        Recovered::NotAStore(wreck) => {
            drop(wreck);
            Ok(Inspected::NotAStore)
        }
        Recovered::Down(_) => unreachable!(),
        Recovered::NoMemory(wreck) => {
            drop(wreck);
            Err(NoMemory)
        }
    }
}

// What a recovery prints of the replica.
fn entry_of<D: Disk + Drop>(alloc: Global, engine: Engine<D>) -> Result<Entry, NoMemory>
    ensures { IfOk result (λ e. e ≡ entry_of_recovered engine.replica) }
{
    let mut line = engine.line(Phase::Alone)?;
    // named by what is held
    line.id = engine.core().id();
    let shown = engine.shows(alloc)?;
    let mut lines = Row::new(alloc);
    lines.push(line)?;
    Ok(Entry {
        made: Row::new(alloc),
        orders: Row::new(alloc),
        lines,
        replies: Row::new(alloc),
        shown,
    })
}
