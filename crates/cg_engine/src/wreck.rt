ghost use Rattle.std.specs.Prelude.{◌≡◌, ◌≤◌, false, [], IfOk, IfSome};
ghost use Rattle.cg_older.specs.Older.{has_weights};
ghost use Rattle.cg_store.specs.Opening.{IsSound};
ghost use Rattle.cg_engine.specs.Standing.{content_on, is_weighted, IsStateOf, IsLight, IsOldDisk, IsDowngraded};

use cg_base::{IdList, NoMemory, ReplicaId, Row};
use cg_client::Core;
use cg_disk::{Disk, ModelDisk};
use cg_disk_records::what_is_held_agrees;
use cg_older::has_weights;
use cg_store::{OpenErr, Store};
use std::alloc::Global;
use std::marker::Model;

/// What the last event was to tell: so many greens stood before it, and these names it has newly made green.
#[derive(Drop)]
pub(crate) struct LastEvent {
    pub(crate) count: u64,
    pub(crate) green: IdList,
}

/// A replica that is down: its disk, whose it is, and the names that its last event had newly made green.
#[derive(Drop)]
pub struct Wreck<D: Disk> {
    disk: D,
    id: ReplicaId,
    last: LastEvent,
}

impl<D: Disk> Model for Wreck<D> {
    ghost use Rattle.cg_engine.specs.Engines.{Fallen};

    ghost Value = { Fallen D };

    ghost view = { λ w. record { disk = w.disk; id = w.id; count = w.last.count; green = w.last.green } };
}

impl<D: Disk> Wreck<D> {
    /// The disk of a replica, of which nothing is to be told. It takes no memory.
    pub fn new(alloc: Global, disk: D, id: ReplicaId) -> Wreck<D>
        ensures { result ≡ record { disk = disk; id = id; count = 0; green = [] } }
    {
        let last = LastEvent {
            count: 0,
            green: Row::new(alloc),
        };
        Wreck { disk, id, last }
    }

    pub(crate) fn of(disk: D, id: ReplicaId, last: LastEvent) -> Wreck<D>
        ensures { result ≡ record { disk = disk; id = id; count = last.count; green = last.green } }
    {
        Wreck { disk, id, last }
    }

    pub(crate) fn into_parts(self) -> (D, ReplicaId, LastEvent)
        ensures { result ≡ (self.disk, self.id, record { count = self.count; green = self.green }) }
    {
        let Wreck { disk, id, last } = self;
        (disk, id, last)
    }

    /// Whose disk it is. It takes no memory.
    pub fn id(&self) -> ReplicaId
        ensures { result ≡ self.now.id }
    {
        self.id
    }

    /// The disk. It takes no memory.
    pub fn into_disk(self) -> D
        ensures { result ≡ self.disk }
    {
        let Wreck { disk, .. } = self;
        disk
    }
}

// A new disk of the older format.
fn old_disk(alloc: Global, core: &Core) -> Result<ModelDisk, NoMemory>
    requires sound { IsSound core.now }
    requires light { has_weights core.now ≡ false }
    ensures { IfOk result (λ disk. IsOldDisk core.now.id core.now (⟦<ModelDisk as Disk>⟧.view disk)) }
{
    what_is_held_agrees();
    match Store::create_old(ModelDisk::new(alloc), core) {
        Ok(disk) => Ok(disk),
        Err(_) => Err(NoMemory),
    }
}

/// A disk in memory: a stop that is armed on it, a crash, what it stands for, and another one in its place.
impl Wreck<ModelDisk> {
    ghost use Rattle.cg_disk.specs.Crashes.{Arms, IsCrashed};
    ghost use Rattle.cg_disk.specs.State.{Stops};
    ghost use Rattle.cg_engine.specs.Answers.{IsStill};

    /// The disk after a crash, with these bytes in the places that weren't synced.
    pub fn image(self, fill: &[u8]) -> Result<Wreck<ModelDisk>, NoMemory>
        ensures crash { IfOk result (λ w. IsCrashed
            fill.now (⟦<ModelDisk as Disk>⟧.view self.disk) (⟦<ModelDisk as Disk>⟧.view w.disk)) }
        ensures rest { IfOk result (λ w. (w.id ≡ self.id) × (w.count ≡ self.count) × (w.green ≡ self.green)) }
    {
        let Wreck { disk, id, last } = self;
        let disk = disk.image(fill)?;
        Ok(Wreck { disk, id, last })
    }

    /// Arms a stop inside the nth next device call, n at least 1. It takes no memory.
    pub fn stop_at(&mut self, n: u64)
        requires { 1 ≤ n }
        ensures disk { Arms Stops n (⟦<ModelDisk as Disk>⟧.view self.old.disk) (⟦<ModelDisk as Disk>⟧.view self.new.disk) }
        ensures rest { IsStill self.old self.new }
    {
        self.disk.stop_at(n);
    }

    /// The device calls that its disk has made. It takes no memory.
    pub fn calls(&self) -> u64
        ensures { result ≡ (⟦<ModelDisk as Disk>⟧.view self.now.disk).time }
    {
        self.disk.calls()
    }

    /// The same with another disk. It takes no memory.
    pub fn with_disk(self, disk: ModelDisk) -> Wreck<ModelDisk>
        ensures { result ≡ record { disk = disk; id = self.id; count = self.count; green = self.green } }
    {
        let Wreck { disk: _, id, last } = self;
        Wreck { disk, id, last }
    }

    /// What the disk stands for as this replica's. A copy is opened, so that the disk stays as it is.
    pub fn standing(&self) -> Result<Option<Core>, NoMemory>
        ensures content { IfOk result (λ core. core ≡
            content_on self.now.id (⟦<ModelDisk as Disk>⟧.view self.now.disk).reads) }
        ensures state { IfOk result (λ core. IfSome core (IsStateOf self.now.id)) }
    {
        let copy = self.disk.copy()?;
        match Store::open(self.disk.alloc(), copy, self.id) {
            Ok((store, core)) => {
                drop(store);
                Ok(Some(core))
            }
            Err(OpenErr::NotAStore(disk)) => {
                drop(disk);
                Ok(None)
            }
            Err(_) => Err(NoMemory),
        }
    }

    /// A weight above 1 stands in what the disk stands for.
    pub fn is_weighted(&self) -> Result<bool, NoMemory>
        ensures { IfOk result (λ b. b ≡ is_weighted self.now.id (⟦<ModelDisk as Disk>⟧.view self.now.disk).reads) }
    {
        let Some(core) = self.standing()? else {
            return Ok(false);
        };
        let weighted = has_weights(&core);
        drop(core);
        Ok(weighted)
    }

    /// The same with a new disk of the older format, which stands for the same state. No weight above 1 may stand in it.
    pub fn downgraded(self, alloc: Global) -> Result<Wreck<ModelDisk>, NoMemory>
        requires { IsLight self.id (⟦<ModelDisk as Disk>⟧.view self.disk).reads }
        ensures { IfOk result (λ w. IsDowngraded (⟦<ModelDisk as Disk>⟧.view) self w) }
    {
        let Some(core) = self.standing()? else {
            unreachable!()
        };
        let disk = old_disk(alloc, &core)?;
        drop(core);
        Ok(self.with_disk(disk))
    }
}
