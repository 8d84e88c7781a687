//! A write that is on the disk when it is done.
ghost use Rattle.std.specs.Prelude.{◌≡◌, ◌+◌, ◌<◌, ◌≤◌, length};
ghost use Rattle.cg_base.specs.declared.limits.TheConstants.{COUNT_LIMIT};
ghost use Rattle.cg_disk.specs.Sides.{bytes_of};
ghost use Rattle.cg_disk.specs.Writes.{TornSide};
ghost use Rattle.cg_disk.specs.View.{IsAtRest, LeavesOnly};
ghost use Rattle.cg_journal.specs.Put.{Puts};

use cg_disk::{Disk, DiskFault, Side};

/// Writes and syncs, two device calls.
pub fn put<D: Disk>(disk: &mut D, side: Side, offset: u64, bytes: &[u8]) -> Result<(), DiskFault>
    requires calls { (D.view disk.old).time + 2 ≤ COUNT_LIMIT }
    requires inside { offset ≤ length (bytes_of side (D.view disk.old).reads) }
    requires rest { IsAtRest (D.view disk.old) }
    ensures puts { Puts side offset bytes.now (D.view disk.old) (D.view disk.new) result }
    ensures moments { LeavesOnly (D.view disk.old) (D.view disk.new) (TornSide side
        offset (length bytes.now) (D.view disk.old).reads) }
{
    match disk.write_at(side, offset, bytes) {
        Ok(()) => disk.sync(),
        Err(fault) => Err(fault),
    }
}
