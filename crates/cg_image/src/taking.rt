//! The disk of an image.
ghost use Rattle.std.specs.Prelude.{◌≡◌, Some, None, IfOk, OnOk, MatchOption};
ghost use Rattle.cg_disk.specs.Crashes.{IsNew};
ghost use Rattle.cg_image.specs.Calls.{IsDiskOf};
ghost use Rattle.cg_image.specs.Images.{Imaged, image_in};

use crate::calls::{sync_sides, write_side};
use crate::parts::image_in;
use cg_base::{NoMemory, ReplicaId};
use cg_disk::{Disk, ModelDisk, Side};
use std::alloc::Global;

/// A replica, and its disk.
#[derive(Drop)]
pub struct ImagedDisk {
    pub id: ReplicaId,
    pub disk: ModelDisk,
}

/// The disk that bytes are an image of, where they are one: a new one, made in three device calls.
pub fn take_image(alloc: Global, bytes: &[u8]) -> Result<Option<ImagedDisk>, NoMemory>
    ensures { IfOk result (λ taken. MatchOption taken (image_in bytes.now ≡ None) (λ t. (i : Imaged)
        × (image_in bytes.now ≡ Some i) × (t.id ≡ i.id) × IsDiskOf i.image 3 (⟦<ModelDisk as Disk>⟧.view t.disk))) }
{
    match image_in(bytes) {
        None => Ok(None),
        Some(parts) => {
            let disk = disk_of(alloc, parts.a, parts.b)?;
            Ok(Some(ImagedDisk { id: parts.id, disk }))
        }
    }
}

// A new disk with these sides.
fn disk_of(alloc: Global, a: &[u8], b: &[u8]) -> Result<ModelDisk, NoMemory>
    ensures { IfOk result (λ disk. IsDiskOf
        (record { a = a.now; b = b.now }) 3 (⟦<ModelDisk as Disk>⟧.view disk)) }
{
    let mut disk = ModelDisk::new(alloc);
    fill(&mut disk, a, b)?;
    Ok(disk)
}

// Writes both sides of a new disk, and syncs them.
fn fill<D: Disk>(disk: &mut D, a: &[u8], b: &[u8]) -> Result<(), NoMemory>
    requires { IsNew (D.view disk.old) }
    ensures { OnOk result (IsDiskOf (record { a = a.now; b = b.now }) 3 (D.view disk.new)) }
{
    write_side(disk, Side::A, a)?;
    write_side(disk, Side::B, b)?;
    sync_sides(disk);
    Ok(())
}
