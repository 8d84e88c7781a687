use cg_base::{IdSet, ReplicaId, WeightSet};
use cg_client::Core;
use cg_disk::ModelDisk;
use cg_disk_records::what_is_held_agrees;
use cg_store::Store;
use std::test::Fail;

#[test]
fn a_replica_comes_up_with_what_its_disk_stands_for(rt: HostRuntime) -> Result<(), Fail> {
    let one = ReplicaId::known(1);
    let mut set = IdSet::empty();
    set.add(one);
    let servers = WeightSet::of(&set);
    what_is_held_agrees();
    let core = Core::fresh(rt.alloc(), one, &servers)?;
    let created = Store::create(ModelDisk::new(rt.alloc()), &core);
    drop(core);

    // what was written is synced, so a crash leaves it
    let left = created.ok().ok_or("no store")?.into_disk().image(b"")?;
    assert!(rt; left.calls() == 7);
    let (store, core) = Store::open(rt.alloc(), left, one).ok().ok_or("no store")?;
    drop(store);
    assert!(rt; core.prim().set == servers);
    drop(core);
    Ok(())
}
