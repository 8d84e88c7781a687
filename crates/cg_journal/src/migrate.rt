//! A side goes over to the newer format.
ghost use Rattle.std.specs.Prelude.{◌≡◌, ◌≢◌, ℕ, ◌+◌, ◌<◌, ◌≤◌, List, length, get_or, OnOk};
ghost use Rattle.cg_base.specs.declared.limits.TheConstants.{COUNT_LIMIT, LIST_LIMIT};
ghost use Rattle.cg_disk.specs.Sides.{Image, bytes_of};
ghost use Rattle.cg_disk.specs.View.{IsAtRest, LeavesOnly};
ghost use Rattle.cg_journal.specs.Found.{Sides};
ghost use Rattle.cg_journal.specs.Heads.{gate_is_open};
ghost use Rattle.cg_journal.specs.Migrates.{IsShut, IsShutting, IsHeading, Shuts, Heads, PutsBehind, IsRenewedAt, RenewsSide, IsClearedAt, ClearsSide};
ghost use Rattle.cg_journal.specs.Records.{framed};
ghost use Rattle.cg_journal.specs.Renews.{MayGo, IsUnrenewed, IsRenewing};

use crate::parse::{CLOSED, EMPTY_END, GATE, HEADER, OPEN};
use crate::put::put;
use cg_disk::{Disk, DiskFault, Side};

/// Puts the record that is spelled here in place of all that a side has, in seven device calls.
pub fn renew_side<D: Disk>(
    disk: &mut D,
    side: Side,
    is_open: bool,
    bytes: &[u8],
) -> Result<(), DiskFault>
    requires calls { (D.view disk.old).time + 7 ≤ COUNT_LIMIT }
    requires long { 9 ≤ length (bytes_of side (D.view disk.old).reads) }
    requires gate { is_open ≡ gate_is_open (bytes_of side (D.view disk.old).reads) }
    requires rest { IsAtRest (D.view disk.old) }

    ensures side { (body : List ℕ) → bytes.now ≡ framed body → length body < LIST_LIMIT →
        OnOk result (IsRenewedAt side body (D.view disk.old) (D.view disk.new)) }
    ensures renews { (body : List ℕ) (s : Sides) → bytes.now ≡ framed body → length body < LIST_LIMIT →
        MayGo side s (D.view disk.old) → RenewsSide side body s (D.view disk.old) (D.view disk.new) result }
    ensures moments { (body : List ℕ) (s : Sides) → bytes.now ≡ framed body → length body < LIST_LIMIT →
        MayGo side s (D.view disk.old) → LeavesOnly (D.view disk.old) (D.view disk.new) (IsRenewing side body s) }
{
    match shut(disk, side, is_open) {
        Ok(()) => match head(disk, side, bytes) {
            Ok(()) => put(disk, side, GATE, &[OPEN]),
            Err(fault) => Err(fault),
        },
        Err(fault) => Err(fault),
    }
}

/// Takes all that a side has away, in four device calls.
pub fn clear_side<D: Disk>(disk: &mut D, side: Side, is_open: bool) -> Result<(), DiskFault>
    requires calls { (D.view disk.old).time + 4 ≤ COUNT_LIMIT }
    requires long { 9 ≤ length (bytes_of side (D.view disk.old).reads) }
    requires gate { is_open ≡ gate_is_open (bytes_of side (D.view disk.old).reads) }
    requires rest { IsAtRest (D.view disk.old) }

    ensures side { OnOk result (IsClearedAt side (D.view disk.old) (D.view disk.new)) }
    ensures clears { (s : Sides) → MayGo side s (D.view disk.old) →
        ClearsSide side s (D.view disk.old) (D.view disk.new) result }
    ensures moments { (s : Sides) → MayGo side s (D.view disk.old) →
        LeavesOnly (D.view disk.old) (D.view disk.new) (IsUnrenewed side s) }
{
    match shut(disk, side, is_open) {
        Ok(()) => put(disk, side, 0, &HEADER),
        Err(fault) => Err(fault),
    }
}

// Closes the first gate of a side, in two device calls. A closed gate isn't written over, since a torn write could open it
// over bytes that were never a record.
fn shut<D: Disk>(disk: &mut D, side: Side, is_open: bool) -> Result<(), DiskFault>
    requires calls { (D.view disk.old).time + 2 ≤ COUNT_LIMIT }
    requires long { 9 ≤ length (bytes_of side (D.view disk.old).reads) }
    requires gate { is_open ≡ gate_is_open (bytes_of side (D.view disk.old).reads) }
    requires rest { IsAtRest (D.view disk.old) }
    ensures shuts { Shuts side (D.view disk.old) (D.view disk.new) result }
    ensures moments { LeavesOnly (D.view disk.old) (D.view disk.new) (IsShutting side (D.view disk.old).reads) }
{
    if is_open {
        put(disk, side, GATE, &[CLOSED])
    } else {
        put(disk, side, GATE, &[])
    }
}

// Writes the header, and bytes behind the closed gate, in three device calls.
fn head<D: Disk>(disk: &mut D, side: Side, bytes: &[u8]) -> Result<(), DiskFault>
    requires calls { (D.view disk.old).time + 3 ≤ COUNT_LIMIT }
    requires long { 9 ≤ length (bytes_of side (D.view disk.old).reads) }
    requires shut { get_or (bytes_of side (D.view disk.old).reads) 8 0 ≢ 1 }
    requires rest { IsAtRest (D.view disk.old) }
    ensures heads { Heads side bytes.now (D.view disk.old) (D.view disk.new) result }
    ensures moments { LeavesOnly (D.view disk.old) (D.view disk.new) (IsShut side (D.view disk.old).reads) }
{
    match disk.write_at(side, 0, &HEADER) {
        Ok(()) => put_behind(disk, side, bytes),
        Err(fault) => Err(fault),
    }
}

// Writes bytes behind the closed gate, and syncs what was written, the header too, even where memory was refused.
fn put_behind<D: Disk>(disk: &mut D, side: Side, bytes: &[u8]) -> Result<(), DiskFault>
    requires calls { (D.view disk.old).time + 2 ≤ COUNT_LIMIT }
    requires long { 9 ≤ length (bytes_of side (D.view disk.old).reads) }
    ensures behind { (base : Image) → IsHeading side base (D.view disk.old) →
        PutsBehind side bytes.now base (D.view disk.old) (D.view disk.new) result }
    ensures moments { (base : Image) → IsHeading side base (D.view disk.old) →
        LeavesOnly (D.view disk.old) (D.view disk.new) (IsShut side base) }
{
    match disk.write_at(side, EMPTY_END, bytes) {
        Ok(()) => disk.sync(),
        Err(DiskFault::Failed) => Err(DiskFault::Failed),
        Err(DiskFault::NoMemory) => match disk.sync() {
            Ok(()) => Err(DiskFault::NoMemory),
            Err(fault) => Err(fault),
        },
    }
}
