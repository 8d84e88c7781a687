//! A side closed at its first gate.
ghost use Rattle.std.specs.Prelude.{◌≡◌, ℕ, ◌+◌, ◌<◌, ◌≤◌, List, length};
ghost use Rattle.std.specs.Option.{option_map};
ghost use Rattle.cg_base.specs.declared.limits.TheConstants.{COUNT_LIMIT};
ghost use Rattle.cg_disk.specs.Sides.{bytes_of};
ghost use Rattle.cg_disk.specs.View.{IsAtRest, LeavesOnly};
ghost use Rattle.cg_journal.specs.Records.{HasRecords, records, emptied};
ghost use Rattle.cg_journal.specs.Adds.{IsEither};
ghost use Rattle.cg_journal.specs.Closes.{Closes};

use crate::parse::{CLOSED, EMPTY_END, GATE};
use crate::put::put;
use cg_disk::{Disk, DiskFault, Side};

/// Closes the first gate of a side whose records end at this offset, in two device calls. A closed gate isn't written
/// over, since a torn write could open it over a body that isn't whole.
pub fn close<D: Disk>(disk: &mut D, side: Side, end: u64) -> Result<(), DiskFault>
    requires calls { (D.view disk.old).time + 2 ≤ COUNT_LIMIT }
    requires begun { 9 ≤ end }
    requires inside { end ≤ length (bytes_of side (D.view disk.old).reads) }
    requires rest { IsAtRest (D.view disk.old) }

    ensures closes { (bodies : List (List ℕ)) → HasRecords (bytes_of side (D.view disk.old).reads) end bodies →
        Closes side (D.view disk.old) (D.view disk.new) result }

    // At each moment the side has the records before, or none.
    ensures moments { (bodies : List (List ℕ)) → HasRecords (bytes_of side (D.view disk.old).reads) end bodies
        → LeavesOnly (D.view disk.old) (D.view disk.new)
        (IsEither (records (D.view disk.old).reads) (option_map (emptied side) (records (D.view disk.old).reads))) }
{
    if end > EMPTY_END {
        put(disk, side, GATE, &[CLOSED])
    } else {
        put(disk, side, GATE, &[])
    }
}
