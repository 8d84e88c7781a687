//! The image of the disk that a replica has at the end of a schedule.
ghost use Rattle.std.specs.Prelude.{◌≡◌, ◌+◌, ◌<◌, Some};
ghost use Rattle.cg_base.specs.Sets.{IsId};
ghost use Rattle.cg_base.specs.declared.limits.TheConstants.{COUNT_LIMIT};
ghost use Rattle.cg_disk_records.specs.Crash.{Disk as DiskOf};
ghost use Rattle.cg_image.specs.Images.{image_text};
ghost use Rattle.cg_outcome.specs.declared.command.Command.TheVariants.{Image};
ghost use Rattle.cg_outcome.specs.declared.status.Status.TheVariants as status;
ghost use Rattle.cg_outcome.specs.Putting.{StopsWith};
ghost use Rattle.cg_outcome.specs.Status.{write_faults};
ghost use Rattle.cg_outcome.specs.Taking.{ReadCause, Runs};
ghost use Rattle.cg_run.specs.Imaging.{PutsImage};
ghost use Rattle.cg_run.specs.Performing.{seen};
ghost use Rattle.cg_world.specs.DiskOut.{HoldsDisk};

use crate::progress::Run;
use cg_base::{Bytes, NoMemory, ReplicaId};
use cg_disk::{Disk, ModelDisk};
use cg_image::image_bytes;
use cg_io::{Sink, Source};
use cg_outcome::{Companion, Report, Status, put_text};
use cg_world::World;
use std::alloc::Global;

fn put_bytes<K: Sink>(alloc: Global, output: &mut K, bytes: Bytes) -> Status
    requires { (K.view output.old).faults < COUNT_LIMIT }
    ensures { StopsWith bytes (Some status.Done) (K.view output.old) (K.view output.new) result }
{
    let put = put_text(alloc, output, bytes.as_slice());
    drop(bytes);
    match put {
        Ok(()) => Status::Done,
        Err(other) => other,
    }
}

// The image of a replica's disk.
fn put_disk<K: Sink>(alloc: Global, output: &mut K, id: ReplicaId, disk: ModelDisk) -> Status
    requires few_faults { (K.view output.old).faults < COUNT_LIMIT }
    requires holds { (held : DiskOf) × HoldsDisk id held (⟦<ModelDisk as Disk>⟧.view disk) }
    ensures { StopsWith (image_text id (⟦<ModelDisk as Disk>⟧.view disk).reads) (Some status.Done)
        (K.view output.old) (K.view output.new) result }
{
    match image_bytes(alloc, id, disk) {
        Ok(bytes) => put_bytes(alloc, output, bytes),
        Err(_) => Status::NoMemory,
    }
}

// The image of the disk that the replica has in this world.
fn put_image<K: Sink>(alloc: Global, output: &mut K, id: ReplicaId, world: World) -> Status
    requires { (K.view output.old).faults < COUNT_LIMIT }
    ensures { PutsImage id world.world (K.view output.old) (K.view output.new) result }
{
    match world.image(id) {
        Ok(Some(disk)) => put_disk(alloc, output, id, disk),
        Ok(None) => Status::Done,
        Err(_) => Status::NoMemory,
    }
}

// The same of the world that is left of a run.
fn put_left<K: Sink>(alloc: Global, output: &mut K, id: ReplicaId, run: Run) -> Status
    requires few_faults { (K.view output.old).faults < COUNT_LIMIT }
    ensures { PutsImage id (seen run).world (K.view output.old) (K.view output.new) result }
{
    match run.into_world() {
        Ok(world) => put_image(alloc, output, id, world),
        Err(NoMemory) => Status::NoMemory,
    }
}

// Replays the schedule that the input gives, and puts the image of the disk that the replica has at its end.
fn image_schedule<S: Source, K: Sink>(
    alloc: Global,
    input: &mut S,
    output: &mut K,
    id: ReplicaId,
) -> Status
    requires few_read_faults { (S.view input.old).faults < COUNT_LIMIT }
    requires few_write_faults { (K.view output.old).faults < COUNT_LIMIT }
    ensures ran { Runs (Some (Image id)) (S.view input.old) (S.view input.new) (K.view output.old)
        (K.view output.new) result }
    ensures read_fault { ReadCause (S.view input.old) (S.view input.new) result }
    ensures write_fault { (K.view output.new).faults ≡ (K.view output.old).faults + write_faults result }
{
    let Ok(mut run) = Run::new(alloc, Report::Imaged, Companion::Imaging(id)) else {
        return Status::NoMemory;
    };
    match run.replay(input, output) {
        Status::Done => put_left(alloc, output, id, run),
        other => {
            drop(run);
            other
        }
    }
}

/// The same of the replica of this number.
pub fn image_replica<S: Source, K: Sink>(
    alloc: Global,
    input: &mut S,
    output: &mut K,
    replica: u8,
) -> Status
    requires few_read_faults { (S.view input.old).faults < COUNT_LIMIT }
    requires few_write_faults { (K.view output.old).faults < COUNT_LIMIT }
    requires replica { IsId replica }
    ensures ran { Runs (Some (Image replica)) (S.view input.old) (S.view input.new) (K.view output.old)
        (K.view output.new) result }
    ensures read_fault { ReadCause (S.view input.old) (S.view input.new) result }
    ensures write_fault { (K.view output.new).faults ≡ (K.view output.old).faults + write_faults result }
{
    image_schedule(alloc, input, output, ReplicaId::known(replica))
}
