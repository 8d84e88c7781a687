//! The bytes of both sides.
ghost use Rattle.std.specs.Prelude.{◌≡◌, ◌+◌, ◌<◌, ◌≤◌, length, IfOk};
ghost use Rattle.cg_base.specs.declared.limits.TheConstants.{COUNT_LIMIT};
ghost use Rattle.cg_disk.specs.Sides.{bytes_of};
ghost use Rattle.cg_disk.specs.View.{IsAtRest};
ghost use Rattle.cg_journal.specs.Reads.{Reads};

use cg_disk::{Disk, DiskFault, Side};
use std::alloc::Global;

/// Syncs and reads both sides, in five device calls: the sync, the sizes, and one read of each side.
pub fn load<D: Disk>(disk: &mut D, alloc: Global) -> Result<(Vec<u8>, Vec<u8>), DiskFault>
    requires { (D.view disk.old).time + 5 ≤ COUNT_LIMIT }
    ensures reads { Reads 5 (D.view disk.old) (D.view disk.new) result }
    ensures bytes { IfOk result (λ sides. (sides.0.items ≡ (D.view disk.old).reads.a)
        × (sides.1.items ≡ (D.view disk.old).reads.b)) }
{
    match synced(disk) {
        Ok(()) => both_sides(disk, alloc),
        Err(fault) => Err(fault),
    }
}

fn synced<D: Disk>(disk: &mut D) -> Result<(), DiskFault>
    requires { (D.view disk.old).time < COUNT_LIMIT }
    ensures reads { Reads 1 (D.view disk.old) (D.view disk.new) result }
{
    disk.sync()
}

fn both_sides<D: Disk>(disk: &mut D, alloc: Global) -> Result<(Vec<u8>, Vec<u8>), DiskFault>
    requires calls { (D.view disk.old).time + 4 ≤ COUNT_LIMIT }
    requires rest { IsAtRest (D.view disk.old) }
    ensures reads { Reads 4 (D.view disk.old) (D.view disk.new) result }
    ensures bytes { IfOk result (λ sides. (sides.0.items ≡ (D.view disk.old).reads.a)
        × (sides.1.items ≡ (D.view disk.old).reads.b)) }
{
    match sizes(disk) {
        Ok((a, b)) => contents(disk, alloc, a, b),
        Err(fault) => Err(fault),
    }
}

fn sizes<D: Disk>(disk: &mut D) -> Result<(u64, u64), DiskFault>
    requires calls { (D.view disk.old).time + 2 ≤ COUNT_LIMIT }
    requires rest { IsAtRest (D.view disk.old) }
    ensures reads { Reads 2 (D.view disk.old) (D.view disk.new) result }
    ensures sizes { IfOk result (λ sizes. (sizes.0 ≡ length (D.view disk.old).reads.a)
        × (sizes.1 ≡ length (D.view disk.old).reads.b)) }
{
    match size(disk, Side::A) {
        Ok(a) => match size(disk, Side::B) {
            Ok(b) => Ok((a, b)),
            Err(fault) => Err(fault),
        },
        Err(fault) => Err(fault),
    }
}

fn contents<D: Disk>(
    disk: &mut D,
    alloc: Global,
    a: u64,
    b: u64,
) -> Result<(Vec<u8>, Vec<u8>), DiskFault>
    requires calls { (D.view disk.old).time + 2 ≤ COUNT_LIMIT }
    requires rest { IsAtRest (D.view disk.old) }
    requires a { a ≡ length (D.view disk.old).reads.a }
    requires b { b ≡ length (D.view disk.old).reads.b }
    ensures reads { Reads 2 (D.view disk.old) (D.view disk.new) result }
    ensures bytes { IfOk result (λ sides. (sides.0.items ≡ (D.view disk.old).reads.a)
        × (sides.1.items ≡ (D.view disk.old).reads.b)) }
{
    match whole(disk, alloc, Side::A, a) {
        Ok(a) => match whole(disk, alloc, Side::B, b) {
            Ok(b) => Ok((a, b)),
            Err(fault) => Err(fault),
        },
        Err(fault) => Err(fault),
    }
}

fn size<D: Disk>(disk: &mut D, side: Side) -> Result<u64, DiskFault>
    requires calls { (D.view disk.old).time < COUNT_LIMIT }
    requires rest { IsAtRest (D.view disk.old) }
    ensures reads { Reads 1 (D.view disk.old) (D.view disk.new) result }
    ensures size { IfOk result (λ n. n ≡ length (bytes_of side (D.view disk.old).reads)) }
{
    disk.size(side)
}

// A whole side, of this size.
fn whole<D: Disk>(disk: &mut D, alloc: Global, side: Side, size: u64) -> Result<Vec<u8>, DiskFault>
    requires calls { (D.view disk.old).time < COUNT_LIMIT }
    requires rest { IsAtRest (D.view disk.old) }
    requires size { size ≡ length (bytes_of side (D.view disk.old).reads) }
    ensures reads { Reads 1 (D.view disk.old) (D.view disk.new) result }
    ensures bytes { IfOk result (λ bytes. bytes.items ≡ bytes_of side (D.view disk.old).reads) }
{
    let mut bytes = match vec![in alloc; 0u8; size as usize] {
        Ok(bytes) => bytes,
        Err(_) => return Err(DiskFault::NoMemory),
    };
    match disk.read(side, 0, &mut bytes) {
        Ok(()) => Ok(bytes),
        Err(fault) => Err(fault),
    }
}
