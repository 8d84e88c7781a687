use cg_base::{IdSet, ReplicaId, WeightSet};
use cg_client::Core;
use cg_disk::ModelDisk;
use cg_disk_records::what_is_held_agrees;
use cg_older::has_weights;
use cg_store::{OpenErr, Store};
use std::alloc::Global;
use std::test::Fail;

// a disk of the older format with what a new replica holds, the only server
fn old_disk(alloc: Global, id: ReplicaId) -> Result<ModelDisk, Fail> {
    let mut set = IdSet::empty();
    set.add(id);
    let servers = WeightSet::of(&set);
    what_is_held_agrees();
    let core = Core::fresh(alloc, id, &servers)?;
    if has_weights(&core) {
        drop(core);
        return Err("weights")?;
    }
    let created = Store::create_old(ModelDisk::new(alloc), &core);
    drop(core);

    // what was written is synced, so a crash leaves it
    Ok(created.ok().ok_or("no disk")?.image(b"")?)
}

// the disk behind an opening and a crash
fn opened(alloc: Global, disk: ModelDisk, id: ReplicaId) -> Result<ModelDisk, Fail> {
    if disk.calls() > 1000 {
        return Err("too many calls")?;
    }
    let (store, core) = Store::open(alloc, disk, id).ok().ok_or("no store")?;
    drop(core);
    Ok(store.into_disk().image(b"")?)
}

// the disk behind an opening that stops in one of its calls
fn torn(alloc: Global, disk: ModelDisk, id: ReplicaId, call: u64) -> Result<ModelDisk, Fail> {
    let mut disk = disk;
    if disk.calls() > 1000 || call == 0 {
        return Err("too many calls")?;
    }
    disk.stop_at(call);
    match Store::open(alloc, disk, id) {
        Err(OpenErr::Lost(disk)) => Ok(disk.image(b"")?),
        other => {
            drop(other);
            Err("not stopped")?
        }
    }
}

#[test]
fn a_disk_of_the_older_format_goes_over_to_the_newer_one(rt: HostRuntime) -> Result<(), Fail> {
    let one = ReplicaId::known(1);
    let disk = old_disk(rt.alloc(), one)?;
    assert!(rt; disk.calls() == 7);
    let disk = opened(rt.alloc(), disk, one)?;
    assert!(rt; disk.calls() == 23);
    let disk = opened(rt.alloc(), disk, one)?;
    assert!(rt; disk.calls() == 28);
    drop(disk);
    Ok(())
}

#[test]
fn a_side_whose_clearing_was_torn_is_cleared_again(rt: HostRuntime) -> Result<(), Fail> {
    let one = ReplicaId::known(1);
    let disk = torn(rt.alloc(), old_disk(rt.alloc(), one)?, one, 15)?;
    assert!(rt; disk.calls() == 22);
    let disk = opened(rt.alloc(), disk, one)?;
    assert!(rt; disk.calls() == 31);
    let disk = opened(rt.alloc(), disk, one)?;
    assert!(rt; disk.calls() == 36);
    drop(disk);
    Ok(())
}
