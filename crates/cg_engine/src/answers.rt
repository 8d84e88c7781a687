use crate::{Engine, Wreck};
use cg_base::IdList;
use cg_disk::Disk;
use cg_store::Outputs;

/// What comes of starting a new replica.
#[derive(Drop)]
pub enum Started<D: Disk> {
    Running { engine: Engine<D> },
    /// A device call failed. The disk may be no store.
    Down(Wreck<D>),
    /// Memory was refused, and no device call failed. The disk may be no store.
    NoMemory(Wreck<D>),
}

/// What comes of an event.
#[derive(Drop)]
pub enum Handled<D: Disk> {
    Running { engine: Engine<D>, outputs: Outputs },
    /// A device call failed, and nothing is given out. The disk stands for the state before the event or behind it.
    Down(Wreck<D>),
    /// Memory was refused, no device call failed, and nothing is given out. The disk stands for the state before the
    /// event, or behind it where only the checkpoint was refused.
    NoMemory(Wreck<D>),
}

/// What comes of a replica that is to come up again.
#[derive(Drop)]
pub enum Recovered<D: Disk> {
    /// With the names of its last event that are green in the state that the disk stands for.
    Running { engine: Engine<D>, green: IdList },
    /// A device call failed.
    Down(Wreck<D>),
    /// The disk stands for no state of this replica.
    NotAStore(Wreck<D>),
    /// Memory was refused, and no device call failed.
    NoMemory(Wreck<D>),
}
