use crate::crashed_disk::CrashedDisk;
use cg_base::Bytes;
use cg_disk::ModelDisk;
use cg_engine::Engine;

/// Up with its engine, and the bytes that a crash in the armed device call leaves in places that weren't synced; or down.
#[derive(Drop)]
pub(crate) enum NodeState {
    Up {
        engine: Engine<ModelDisk>,
        fill: Bytes,
    },
    Down(CrashedDisk),
}
