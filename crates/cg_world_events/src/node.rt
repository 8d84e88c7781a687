ghost use Rattle.std.specs.Prelude.{◌≡◌, ◌≤◌, ◌+◌, IfOk};
ghost use Rattle.cg_base.specs.declared.limits.TheConstants.{COUNT_LIMIT};
ghost use Rattle.cg_store.specs.Formats.{Standing};
ghost use Rattle.cg_world_events.specs.Seen.{seen, up_seen, down_seen, FallsTo, fallen};
ghost use Rattle.cg_world_events.specs.declared.limits.TheConstants.{RECOVERY_CALLS};

use crate::crashed_disk::CrashedDisk;
use crate::node_state::NodeState;
use cg_base::{Bytes, NoMemory};
use cg_disk::{Disk, ModelDisk};
use cg_engine::{Engine, Wreck};
use std::marker::Model;

/// A replica with its disk: up, or down.
pub struct Node {
    pub(crate) life: NodeState,
}

impl Drop for Node {
    fn drop(self) {
        let Node { life: _ } = self;
    }
}

impl Model for Node {
    ghost use Rattle.cg_model.specs.World.{Node};
    ghost use Rattle.cg_world_events.specs.Seen.{seen};

    ghost Value = { Node };

    ghost view = { λ s. seen s.life };
}

impl Node {
    // A replica that is up, where a crash in an armed device call leaves these bytes.
    pub(crate) fn up(engine: Engine<ModelDisk>, fill: Bytes) -> Node
        ensures { result ≡ up_seen (⟦<ModelDisk as Disk>⟧.view) engine fill }
    {
        let life = NodeState::Up { engine, fill };
        Node { life }
    }

    // A replica that is down.
    pub(crate) fn down(resting: CrashedDisk) -> Node
        ensures { result ≡ down_seen (⟦<ModelDisk as Disk>⟧.view) resting }
    {
        let life = NodeState::Down(resting);
        Node { life }
    }

    // What it is.
    pub(crate) fn into_life(self) -> NodeState
        ensures { self ≡ seen result }
    {
        let Node { life } = self;
        life
    }

    // The wreck of a replica that is up has its crash, which leaves these bytes in places that weren't synced. It takes
    // memory for the bytes of the disk alone.
    pub(crate) fn from_wreck(wreck: Wreck<ModelDisk>, fill: &[u8]) -> Result<Node, NoMemory>
        requires falls { (s : Standing) × FallsTo (⟦<ModelDisk as Disk>⟧.view) wreck fill.now s }
        requires room { (⟦<ModelDisk as Disk>⟧.view wreck.disk).time + RECOVERY_CALLS ≤ COUNT_LIMIT }
        ensures { IfOk result (λ n. (s : Standing) →
            FallsTo (⟦<ModelDisk as Disk>⟧.view) wreck fill.now s → n ≡ fallen wreck s) }
    {
        let wreck = wreck.image(fill)?;
        Ok(Node::down(CrashedDisk::new(wreck)))
    }
}
