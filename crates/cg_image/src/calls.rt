//! Calls of a disk on which nothing is armed: none of them is struck.
ghost use Rattle.std.specs.Prelude.{◌≡◌, ◌+◌, ◌<◌, [], length, take, drop, OnOk};
ghost use Rattle.cg_base.specs.declared.limits.TheConstants.{COUNT_LIMIT, NUMBER_LIMIT};
ghost use Rattle.cg_disk.specs.Sides.{bytes_of, with_bytes};
ghost use Rattle.cg_disk.specs.State.{synced, wrote};
ghost use Rattle.cg_disk.specs.View.{IsAtRest};
ghost use Rattle.cg_image.specs.Calls.{IsUnarmed, IsSeen, IsDone};

use cg_base::NoMemory;
use cg_disk::{Disk, DiskFault, Side};

/// The number of bytes on a side.
pub(crate) fn side_size<D: Disk>(disk: &mut D, side: Side) -> u64
    requires calls { (D.view disk.old).time < COUNT_LIMIT }
    requires unarmed { IsUnarmed (D.view disk.old) }
    ensures size { result ≡ length (bytes_of side (D.view disk.old).reads) }
    ensures short { result < NUMBER_LIMIT }
    ensures seen { IsSeen 1 (D.view disk.old) (D.view disk.new) }
{
    match disk.size(side) {
        Ok(size) => size,
        Err(_) => unreachable!(),
    }
}

/// All bytes of a side, of which the buffer has so many.
pub(crate) fn read_side<D: Disk>(disk: &mut D, side: Side, buffer: &mut [u8])
    requires calls { (D.view disk.old).time < COUNT_LIMIT }
    requires unarmed { IsUnarmed (D.view disk.old) }
    requires size { length buffer.old ≡ length (bytes_of side (D.view disk.old).reads) }
    ensures bytes { buffer.new ≡ bytes_of side (D.view disk.old).reads }
    ensures seen { IsSeen 1 (D.view disk.old) (D.view disk.new) }
{
    match disk.read(side, 0, buffer) {
        Ok(()) => (),
        Err(_) => unreachable!(),
    }
}

/// Writes all bytes of a side that is empty.
pub(crate) fn write_side<D: Disk>(disk: &mut D, side: Side, bytes: &[u8]) -> Result<(), NoMemory>
    requires calls { (D.view disk.old).time < COUNT_LIMIT }
    requires unarmed { IsUnarmed (D.view disk.old) }
    requires empty { bytes_of side (D.view disk.old).reads ≡ [] }
    ensures reads { OnOk result ((D.view disk.new).reads ≡ with_bytes side bytes.now (D.view disk.old).reads) }
    ensures done { OnOk result (IsDone (wrote side 0 bytes.now) (D.view disk.old) (D.view disk.new)) }
{
    match disk.write_at(side, 0, bytes) {
        Ok(()) => Ok(()),
        Err(DiskFault::NoMemory) => Err(NoMemory),
        Err(DiskFault::Failed) => unreachable!(),
    }
}

/// Syncs both sides.
pub(crate) fn sync_sides<D: Disk>(disk: &mut D)
    requires calls { (D.view disk.old).time < COUNT_LIMIT }
    requires unarmed { IsUnarmed (D.view disk.old) }
    ensures reads { (D.view disk.new).reads ≡ (D.view disk.old).reads }
    ensures rest { IsAtRest (D.view disk.new) }
    ensures done { IsDone synced (D.view disk.old) (D.view disk.new) }
{
    match disk.sync() {
        Ok(()) => (),
        Err(_) => unreachable!(),
    }
}
