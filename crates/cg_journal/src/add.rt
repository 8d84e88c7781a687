//! A record added behind the closed gate at the end of a side.
ghost use Rattle.std.specs.Prelude.{◌≡◌, ℕ, ◌+◌, ◌-◌, ◌<◌, ◌≤◌, List, length};
ghost use Rattle.std.specs.Option.{option_map};
ghost use Rattle.cg_base.specs.declared.limits.TheConstants.{COUNT_LIMIT, LIST_LIMIT};
ghost use Rattle.cg_disk.specs.Sides.{bytes_of};
ghost use Rattle.cg_disk.specs.View.{IsAtRest, LeavesOnly};
ghost use Rattle.cg_journal.specs.Records.{HasRecords, framed, records, added};
ghost use Rattle.cg_journal.specs.Adds.{Adds, IsEither};

use crate::parse::OPEN;
use crate::put::put;
use cg_disk::{Disk, DiskFault, Side};

/// Adds the record that is spelled here to a side whose records end at this offset, in four device calls. It is written
/// whole behind its closed gate before the gate is opened.
pub fn add<D: Disk>(disk: &mut D, side: Side, end: u64, bytes: &[u8]) -> Result<(), DiskFault>
    requires calls { (D.view disk.old).time + 4 ≤ COUNT_LIMIT }
    requires begun { 9 ≤ end }
    requires inside { end ≤ length (bytes_of side (D.view disk.old).reads) }
    requires rest { IsAtRest (D.view disk.old) }

    ensures adds { (bodies : List (List ℕ)) (body : List ℕ) →
        HasRecords (bytes_of side (D.view disk.old).reads) end bodies → bytes.now ≡ framed body → length body < LIST_LIMIT
        → Adds side end bodies body (D.view disk.old) (D.view disk.new) result }

    // At each moment the disk stands for the records before, or for those with the new one.
    ensures moments { (bodies : List (List ℕ)) (body : List ℕ) →
        HasRecords (bytes_of side (D.view disk.old).reads) end bodies → bytes.now ≡ framed body → length body < LIST_LIMIT
        → LeavesOnly (D.view disk.old) (D.view disk.new)
        (IsEither (records (D.view disk.old).reads)
        (option_map (added side body) (records (D.view disk.old).reads))) }
{
    match put(disk, side, end, bytes) {
        Ok(()) => put(disk, side, end - 1, &[OPEN]),
        Err(fault) => Err(fault),
    }
}
