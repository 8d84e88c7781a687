//! A disk of the older format.
ghost use Rattle.std.specs.Prelude.{◌≡◌, ◌+◌, ◌<◌, ◌≤◌, List, ℕ, length};
ghost use Rattle.cg_base.specs.declared.limits.TheConstants.{COUNT_LIMIT, LIST_LIMIT};
ghost use Rattle.cg_journal.specs.OpensMixed.{MakesOld, MakesOldSides};
ghost use Rattle.cg_journal.specs.Records.{framed};

use crate::format::put_fronts;
use crate::framed::framed;
use crate::open::FormatErr;
use crate::parse::{EMPTY_END, GATE, OPEN};
use crate::put::put;
use cg_disk::{Disk, DiskFault, Side};
use std::alloc::Global;

// The header of the older format, and a closed gate.
const OLD_FRESH: [u8; 9] = *b"CGRUITY1\0";

/// Makes a disk of the older format with one record on side A, in seven device calls: on each side the header and a closed
/// gate, a sync, and the record as it is added. After an error the disk may be no journal.
pub fn make_old<D: Disk>(alloc: Global, mut disk: D, body: &[u8]) -> Result<D, FormatErr<D>>
    requires calls { (D.view disk).time + 7 ≤ COUNT_LIMIT }
    requires short { length body.now < LIST_LIMIT }
    ensures { MakesOld D.view body.now (D.view disk) result }
{
    let bytes = match framed(alloc, body) {
        Ok(bytes) => bytes,
        Err(_) => return Err(FormatErr::NoMemory(disk)),
    };
    match make_old_sides(&mut disk, &bytes) {
        Ok(()) => Ok(disk),
        Err(DiskFault::Failed) => Err(FormatErr::Lost(disk)),
        Err(DiskFault::NoMemory) => Err(FormatErr::NoMemory(disk)),
    }
}

// The same, with the record as it is spelled.
fn make_old_sides<D: Disk>(disk: &mut D, bytes: &[u8]) -> Result<(), DiskFault>
    requires { (D.view disk.old).time + 7 ≤ COUNT_LIMIT }
    ensures { (body : List ℕ) → bytes.now ≡ framed body → length body < LIST_LIMIT →
        MakesOldSides body (D.view disk.old) (D.view disk.new) result }
{
    match put_fronts(disk, &OLD_FRESH) {
        Ok(()) => match put(disk, Side::A, EMPTY_END, bytes) {
            Ok(()) => put(disk, Side::A, GATE, &[OPEN]),
            Err(fault) => Err(fault),
        },
        Err(fault) => Err(fault),
    }
}
