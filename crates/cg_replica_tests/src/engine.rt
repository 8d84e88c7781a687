use cg_base::{IdSet, ReplicaId, WeightSet};
use cg_disk::ModelDisk;
use cg_engine::{Engine, Recovered, Started};
use cg_report::StateName;
use std::test::Fail;

#[test]
fn a_replica_comes_up_again_behind_a_crash(rt: HostRuntime) -> Result<(), Fail> {
    let one = ReplicaId::known(1);
    let mut set = IdSet::empty();
    set.add(one);
    let servers = WeightSet::of(&set);
    let disk = ModelDisk::new(rt.alloc());
    let Started::Running { engine } = Engine::start(rt.alloc(), disk, one, &servers) else {
        return Err("no engine")?;
    };

    // its disk is all that is left of it
    let left = engine.stop().image(b"")?;
    let Recovered::Running { engine, green } = Engine::recover(rt.alloc(), left) else {
        return Err("not up again")?;
    };
    assert!(rt; engine.calls() == 12 && green.as_slice().is_empty());
    assert!(rt; engine.state() == StateName::NonPrim);
    drop(engine);
    drop(green);
    Ok(())
}
