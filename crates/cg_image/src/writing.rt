//! The image of a disk, written.
ghost use Rattle.std.specs.Prelude.{◌≡◌, ◌+◌, ◌≤◌, ◌++◌, None, IfOk, IfSome, OnOk};
ghost use Rattle.cg_base.specs.declared.limits.TheConstants.{COUNT_LIMIT};
ghost use Rattle.cg_disk.specs.Sides.{bytes_of};
ghost use Rattle.cg_image.specs.Calls.{IsUnarmed, IsSeen};
ghost use Rattle.cg_image.specs.Images.{image_text, side_text};

use crate::calls::{read_side, side_size};
use cg_base::{Bytes, NoMemory, ReplicaId, Row};
use cg_codec::{put_u8, put_u64};
use cg_disk::{Disk, ModelDisk, Side};
use std::alloc::Global;

/// The image of a replica's disk on which nothing is armed, in four device calls.
pub fn image_bytes(alloc: Global, id: ReplicaId, disk: ModelDisk) -> Result<Bytes, NoMemory>
    requires unarmed { IfSome (⟦<ModelDisk as Disk>⟧.view disk).state (λ s. s.strike ≡ None) }
    requires calls { (⟦<ModelDisk as Disk>⟧.view disk).time + 4 ≤ COUNT_LIMIT }
    ensures { IfOk result (λ bytes. bytes ≡ image_text id (⟦<ModelDisk as Disk>⟧.view disk).reads) }
{
    let mut disk = disk;
    let mut bytes = Vec::new(alloc);
    put_u8(&mut bytes, id.get())?;
    put_side(&mut bytes, &mut disk, Side::A)?;
    put_side(&mut bytes, &mut disk, Side::B)?;
    Ok(Row::from_vec(bytes))
}

// Puts a side at the end, behind its length.
fn put_side<D: Disk>(out: &mut Vec<u8>, disk: &mut D, side: Side) -> Result<(), NoMemory>
    requires calls { (D.view disk.old).time + 2 ≤ COUNT_LIMIT }
    requires unarmed { IsUnarmed (D.view disk.old) }
    ensures bytes { OnOk result (out.new.items ≡ out.old.items ++ side_text (bytes_of side (D.view disk.old).reads)) }
    ensures seen { OnOk result (IsSeen 2 (D.view disk.old) (D.view disk.new)) }
{
    let size = side_size(disk, side);
    put_u64(out, size)?;
    let front = out.len();
    out.resize(front + size as usize, 0)?;
    read_side(disk, side, &mut out[front..]);
    Ok(())
}
