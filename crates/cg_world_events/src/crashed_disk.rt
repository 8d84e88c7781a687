ghost use Rattle.std.specs.Prelude.{◌≡◌, false, IfOk};
ghost use Rattle.cg_older.specs.Older.{has_weights};
ghost use Rattle.cg_older.specs.OldDisk.{old_disk};
ghost use Rattle.cg_world_events.specs.Seen.{disk_left, green_left};
ghost use Rattle.cg_world_events.specs.CrashedDisk.{IsCrashedDisk};

use cg_base::{NoMemory, ReplicaId};
use cg_disk::{Disk, ModelDisk};
use cg_engine::Wreck;
use std::alloc::Global;
use std::marker::Model;

/// A wreck whose disk stands for a state, with nothing unsynced on it and nothing armed. Clauses see the wreck.
pub(crate) struct CrashedDisk {
    wreck: Wreck<ModelDisk>,
}

impl Drop for CrashedDisk {
    fn drop(self) {
        let CrashedDisk { wreck: _ } = self;
    }
}

impl Model for CrashedDisk {
    ghost use Rattle.cg_disk.specs.declared.model_disk.ModelDisk.{ModelDisk};
    ghost use Rattle.cg_engine.specs.Engines.{Fallen};
    ghost use Rattle.cg_world_events.specs.CrashedDisk.{IsCrashedDisk};

    ghost Value = { Fallen ModelDisk };

    ghost view = { λ r. r.wreck };

    ghost invariant = { λ r. IsCrashedDisk (⟦<ModelDisk as Disk>⟧.view r.wreck.disk) r.wreck.id };
}

impl CrashedDisk {
    pub(crate) fn new(wreck: Wreck<ModelDisk>) -> CrashedDisk
        requires { IsCrashedDisk (⟦<ModelDisk as Disk>⟧.view wreck.disk) wreck.id }
        ensures { result ≡ wreck }
    {
        CrashedDisk { wreck }
    }

    pub(crate) fn into_wreck(self) -> Wreck<ModelDisk>
        ensures wreck { result ≡ self }
        ensures rests { IsCrashedDisk (⟦<ModelDisk as Disk>⟧.view self.disk) self.id }
    {
        let CrashedDisk { wreck } = self;
        wreck
    }

    // A weight above 1 stands on the disk.
    pub(crate) fn has_weights(&self) -> Result<bool, NoMemory>
        ensures { IfOk result (λ b. b ≡ has_weights (disk_left (⟦<ModelDisk as Disk>⟧.view) self.now).content) }
    {
        self.wreck.is_weighted()
    }

    // In place of the disk, on which no weight above 1 stands, there is a new one of the older format, which stands for the
    // same.
    pub(crate) fn downgraded(self, alloc: Global) -> Result<CrashedDisk, NoMemory>
        requires { has_weights (disk_left (⟦<ModelDisk as Disk>⟧.view) self).content ≡ false }
        ensures { IfOk result (λ r. (r.id ≡ self.id)
            × (disk_left (⟦<ModelDisk as Disk>⟧.view) r ≡ old_disk (disk_left (⟦<ModelDisk as Disk>⟧.view) self).content)
            × (green_left (⟦<ModelDisk as Disk>⟧.view) r ≡ green_left (⟦<ModelDisk as Disk>⟧.view) self)) }
    {
        let wreck = self.into_wreck().downgraded(alloc)?;
        Ok(CrashedDisk::new(wreck))
    }

    pub(crate) fn id(&self) -> ReplicaId
        ensures { result ≡ self.now.id }
    {
        self.wreck.id()
    }
}
