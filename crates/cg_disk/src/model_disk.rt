//! A disk in memory.
ghost use Rattle.std.specs.Prelude.{◌≡◌, ◌+◌, ◌<◌, ◌≤◌, [], length, OnOk, OnErr};
ghost use Rattle.cg_base.specs.declared.limits.TheConstants.{COUNT_LIMIT, NUMBER_LIMIT};
ghost use Rattle.cg_disk.specs.Past.{last_call};

use crate::armed::Armed;
use crate::model_side::ModelSide;
use crate::past::Past;
use crate::{Disk, DiskFault, Side};
use cg_base::NoMemory;
use std::alloc::Global;

/// A disk in memory whose calls can be made to fail. Clauses see what a crash may have left at each moment since the last
/// `begin`; of the writes it keeps only those since the last sync, with the bytes that they wrote over.
#[derive(Drop)]
pub struct ModelDisk {
    alloc: Global,
    a: ModelSide,
    b: ModelSide,
    armed: Armed,
    calls: u64,
    faults: u64,
    begun: u64,
    past: Past,
    ghost counted: { (faults ≤ calls) × (begun ≤ calls) × (last_call past ≤ calls) },
}

impl ModelDisk {
    ghost use Rattle.cg_disk.specs.Model.{view_of, Settles, Counts, IsWritten, SameSides};
    ghost use Rattle.std.specs.Prelude.{IsErrOf};
    ghost use Rattle.cg_disk.specs.Calls.{Looks, Ends, HasImages};
    ghost use Rattle.cg_disk.specs.State.{looked, Fails, Stops};
    ghost use Rattle.cg_disk.specs.Crashes.{IsNew, Arms, Disarms, IsCopy, IsCrashed};
    ghost use Rattle.std.specs.Prelude.{IfOk};
    ghost use Rattle.cg_disk.specs.Sides.{bytes_of};

    /// Both sides empty, nothing armed.
    pub fn new(alloc: Global) -> ModelDisk
        ensures { IsNew (⟦<ModelDisk as Disk>⟧.view result) }
    {
        ModelDisk {
            alloc,
            a: ModelSide::new(alloc, Vec::new(alloc)),
            b: ModelSide::new(alloc, Vec::new(alloc)),
            armed: Armed::Nothing,
            calls: 0,
            faults: 0,
            begun: 0,
            past: Past::nothing(),
        }
    }

    /// Arms the nth next call, n at least 1, to fail once, in place of what was armed.
    pub fn fail_at(&mut self, n: u64)
        requires { 1 ≤ n }
        ensures { Arms Fails n (⟦<ModelDisk as Disk>⟧.view self.old) (⟦<ModelDisk as Disk>⟧.view self.new) }
    {
        self.armed = Armed::Failure(n - 1);
    }

    /// Arms a stop inside the nth next call, n at least 1, in place of what was armed. That call and each later one fail.
    pub fn stop_at(&mut self, n: u64)
        requires { 1 ≤ n }
        ensures { Arms Stops n (⟦<ModelDisk as Disk>⟧.view self.old) (⟦<ModelDisk as Disk>⟧.view self.new) }
    {
        self.armed = Armed::Stop(n - 1);
    }

    /// Nothing is armed any more.
    pub fn disarm(&mut self)
        ensures { Disarms (⟦<ModelDisk as Disk>⟧.view self.old) (⟦<ModelDisk as Disk>⟧.view self.new) }
    {
        self.armed = Armed::Nothing;
    }

    /// Another disk with the bytes that a read gives, all of them synced, with nothing armed.
    pub fn copy(&self) -> Result<ModelDisk, NoMemory>
        ensures { IfOk result (λ disk. IsCopy
            (⟦<ModelDisk as Disk>⟧.view self.now) (⟦<ModelDisk as Disk>⟧.view disk)) }
    {
        let alloc = self.alloc;
        let a = Vec::from_slice(alloc, &self.a.bytes)?;
        let b = Vec::from_slice(alloc, &self.b.bytes)?;
        Ok(ModelDisk {
            alloc,
            a: ModelSide::new(alloc, a),
            b: ModelSide::new(alloc, b),
            armed: Armed::Nothing,
            calls: 0,
            faults: 0,
            begun: 0,
            past: Past::nothing(),
        })
    }

    /// From where its memory is taken.
    pub fn alloc(&self) -> Global {
        self.alloc
    }

    /// The device calls made so far.
    pub fn calls(&self) -> u64
        ensures { result ≡ (⟦<ModelDisk as Disk>⟧.view self.now).time }
    {
        self.calls
    }

    /// The disk after a crash. The fill goes to the offsets that were written since the last sync, side A before
    /// side B, ascending on each; what is left of it isn't used. Where it ends old bytes stay, and an offset without one
    /// ends its side. On each side only the offsets from the lowest to the highest of those are gone through, and the bytes
    /// move.
    pub fn image(self, fill: &[u8]) -> Result<ModelDisk, NoMemory>
        ensures { IfOk result (λ disk. IsCrashed
            fill.now (⟦<ModelDisk as Disk>⟧.view self) (⟦<ModelDisk as Disk>⟧.view disk)) }
    {
        let ModelDisk {
            alloc,
            a,
            b,
            calls,
            faults,
            ..
        } = self;
        let used = a.unsynced_offsets().min(fill.len());
        let a = a.filled(alloc, fill)?;
        let b = b.filled(alloc, &fill[used..])?;
        Ok(ModelDisk {
            alloc,
            a: ModelSide::new(alloc, a),
            b: ModelSide::new(alloc, b),
            armed: Armed::Nothing,
            calls,
            faults,
            begun: calls,
            past: Past::nothing(),
        })
    }

    // Lets all writes count as synced from here on.
    fn settle(&mut self)
        ensures settles { Settles self.old self.new }
        ensures armed { self.new.armed ≡ self.old.armed }
        ensures calls { self.new.calls ≡ self.old.calls }
        ensures faults { self.new.faults ≡ self.old.faults }
    {
        self.past = self.past.with(self.calls, &self.a, &self.b);
        self.a.settle();
        self.b.settle();
    }

    // Counts a call, and strikes it where that is armed.
    fn count(&mut self) -> Result<(), DiskFault>
        requires { self.old.calls < COUNT_LIMIT }
        ensures { Counts self.old self.new result }
    {
        self.calls += 1;
        match self.armed {
            Armed::Nothing => Ok(()),
            Armed::Failure(0) => {
                self.armed = Armed::Nothing;
                self.faults += 1;
                self.settle();
                Err(DiskFault::Failed)
            }
            Armed::Failure(others) => {
                self.armed = Armed::Failure(others - 1);
                Ok(())
            }
            Armed::Stop(0) => {
                self.faults += 1;
                Err(DiskFault::Failed)
            }
            Armed::Stop(others) => {
                self.armed = Armed::Stop(others - 1);
                Ok(())
            }
        }
    }

    // A call that only looks.
    fn look(&mut self) -> Result<(), DiskFault>
        requires { self.old.calls < COUNT_LIMIT }
        ensures looks { Looks (view_of self.old) (view_of self.new) }
        ensures ends { Ends looked looked (view_of self.old) (view_of self.new) result }
        ensures images { HasImages (view_of self.new) }
        ensures no_memory { IsErrOf result DiskFault.NoMemory → ⊥ }
    {
        self.count()
    }

    // Writes to a side, without a call.
    fn put(&mut self, side: Side, offset: usize, bytes: &[u8]) -> Result<(), NoMemory>
        requires { offset ≤ length (bytes_of side (view_of self.old).reads) }
        ensures ok { OnOk result (IsWritten side offset bytes.now self.old self.new) }
        ensures err { OnErr result (SameSides self.old self.new) }
        ensures short { OnOk result (offset + length bytes.now < NUMBER_LIMIT) }
        ensures armed { self.new.armed ≡ self.old.armed }
        ensures calls { self.new.calls ≡ self.old.calls }
        ensures faults { self.new.faults ≡ self.old.faults }
    {
        match side {
            Side::A => self.a.write(self.alloc, offset, bytes),
            Side::B => self.b.write(self.alloc, offset, bytes),
        }
    }

    // What a read gives of a side.
    fn bytes(&self, side: Side) -> &[u8]
        ensures { result.now ≡ bytes_of side (view_of self.now).reads }
    {
        match side {
            Side::A => &self.a.bytes,
            Side::B => &self.b.bytes,
        }
    }
}

impl Disk for ModelDisk {
    ghost use Rattle.cg_disk.specs.Model.{view_of};
    ghost use Rattle.cg_disk.specs.Law.{is_view_of};

    ghost view = { view_of };

    ghost is_view = { is_view_of };

    fn size(&mut self, side: Side) -> Result<u64, DiskFault> {
        match self.look() {
            Ok(()) => Ok(self.bytes(side).len() as u64),
            Err(fault) => Err(fault),
        }
    }

    fn read(&mut self, side: Side, place: u64, buf: &mut [u8]) -> Result<(), DiskFault> {
        match self.look() {
            Ok(()) => {
                let from = place as usize;
                buf.copy_from_slice(&self.bytes(side)[from..from + buf.len()]);
                Ok(())
            }
            Err(fault) => Err(fault),
        }
    }

    fn write_at(&mut self, side: Side, place: u64, bytes: &[u8]) -> Result<(), DiskFault> {
        // A failed write writes nothing; one in which the disk stops may have written anything in its range.
        if self.armed.fails_next() {
            return self.count();
        }
        match self.put(side, place as usize, bytes) {
            Ok(()) => self.count(),
            Err(_) => Err(DiskFault::NoMemory),
        }
    }

    fn sync(&mut self) -> Result<(), DiskFault> {
        match self.count() {
            Ok(()) => {
                self.settle();
                Ok(())
            }
            Err(fault) => Err(fault),
        }
    }

    fn begin(&mut self) {
        self.past = Past::nothing();
        self.begun = self.calls;
    }
}
