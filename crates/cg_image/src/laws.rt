ghost use Rattle.std.specs.Prelude.{◌≡◌, ℕ};
ghost use Rattle.cg_base.specs.Sets.{IsId};
ghost use Rattle.cg_client.specs.Replica.{Replica};
ghost use Rattle.cg_disk.specs.Sides.{Image};
ghost use Rattle.cg_disk_records.specs.Crash.{Disk, recovered};
ghost use Rattle.cg_report.specs.EntryText.{body_text};
ghost use Rattle.cg_store.specs.Images.{IsImageOf};
ghost use Rattle.cg_image.specs.Images.{ImagesAreRead, IsShort, image_text};
ghost use Rattle.cg_image.specs.Inspecting.{Holds, inspected, replica_text, entry_of_recovered};

/// An image that is written is read again as itself, and whatever is read is written so.
#[tactic(auto, using(crate::specs::ImageLaws::images_are_read))]
pub fn images_are_read()
    ensures { ImagesAreRead }
{}

/// What is seen in an image of a replica's disk is the replica that a recovery brings up from the disk.
pub fn images_show_their_replica()
    ensures { (p : ℕ) (disk : Disk) (image : Image) → IsId p → IsShort image → IsImageOf p disk image →
        inspected (image_text p image) ≡ Holds (recovered disk) }
{}

/// The text of what `inspect` tells of a replica is its line, with its greens and its database.
pub fn entries_tell_their_replica()
    ensures { (r : Replica) → body_text (entry_of_recovered r) ≡ replica_text r }
{}
