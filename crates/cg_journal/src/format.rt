//! Both sides without records.
ghost use Rattle.std.specs.Prelude.{◌≡◌, ◌+◌, ◌<◌, ◌≤◌};
ghost use Rattle.cg_base.specs.declared.limits.TheConstants.{COUNT_LIMIT};
ghost use Rattle.cg_journal.specs.Fresh.{FormatsSides, PutsFronts};

use cg_disk::{Disk, DiskFault, Side};

// The header, and a closed gate.
const FRESH: [u8; 9] = *b"CGRUITY2\0";

/// Writes the header and a closed gate on each side, and syncs.
pub fn format_sides<D: Disk>(disk: &mut D) -> Result<(), DiskFault>
    requires { (D.view disk.old).time + 3 ≤ COUNT_LIMIT }
    ensures { FormatsSides (D.view disk.old) (D.view disk.new) result }
{
    put_fronts(disk, &FRESH)
}

/// Writes these bytes at the front of each side, and syncs.
pub fn put_fronts<D: Disk>(disk: &mut D, front: &[u8]) -> Result<(), DiskFault>
    requires { (D.view disk.old).time + 3 ≤ COUNT_LIMIT }
    ensures { PutsFronts front.now (D.view disk.old) (D.view disk.new) result }
{
    match disk.write_at(Side::A, 0, front) {
        Ok(()) => match disk.write_at(Side::B, 0, front) {
            Ok(()) => disk.sync(),
            Err(fault) => Err(fault),
        },
        Err(fault) => Err(fault),
    }
}
