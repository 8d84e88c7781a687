use cg_base::{Cut, IdSet, ReplicaId, WeightSet};
use cg_knowledge::{Summary, decide};
use cg_records::{Primary, Yellow};
use std::alloc::Global;
use std::test::Fail;

fn summary(alloc: Global, id: ReplicaId, prim: Primary) -> Summary {
    Summary {
        id,
        conf: 3,
        prim,
        attempt_index: 0,
        vulnerable: None,
        yellow: Yellow::none(alloc),
        green_count: 0,
        green_cut: Cut::zero(),
        red_cut: Cut::zero(),
        left: IdSet::empty(),
    }
}

// a primary component whose members count once each
fn primary(index: u64, set: &IdSet) -> Primary {
    Primary {
        index,
        conf: index,
        set: WeightSet::of(set),
    }
}

#[test]
fn the_last_primary_component_says_who_goes_on(rt: HostRuntime) -> Result<(), Fail> {
    let alloc = rt.alloc();
    let (one, two) = (ReplicaId::known(1), ReplicaId::known(2));
    let mut set = IdSet::empty();
    set.add(two);
    set.add(ReplicaId::known(3));
    let second = primary(2, &set);
    set.add(one);
    let first = primary(1, &set);

    // 1 has missed the second one; 2 is half of it, with its least member
    let summaries = [summary(alloc, one, first), summary(alloc, two, second)];
    let verdict = decide(alloc, &summaries);
    drop(summaries);
    let verdict = verdict?;
    assert!(rt; verdict.prim == second);
    assert!(rt; verdict.quorum);
    drop(verdict);
    Ok(())
}
