use cg_base::{Cut, IdSet, ReplicaId, WeightSet};
use cg_knowledge::Summary;
use cg_plan::{Item, Part, Plan};
use cg_records::{Primary, Yellow};
use std::alloc::Global;
use std::test::Fail;

// what a replica tells that knows so many green actions, all of them its own
fn summary(alloc: Global, id: ReplicaId, green_count: u64) -> Summary {
    let mut cut = Cut::zero();
    cut.raise(ReplicaId::known(1), green_count);
    Summary {
        id,
        conf: 3,
        prim: Primary {
            index: 0,
            conf: 0,
            set: WeightSet::empty(),
        },
        attempt_index: 0,
        vulnerable: None,
        yellow: Yellow::none(alloc),
        green_count,
        green_cut: cut,
        red_cut: cut,
        left: IdSet::empty(),
    }
}

#[test]
fn what_a_member_lacks_is_sent_again(rt: HostRuntime) -> Result<(), Fail> {
    let alloc = rt.alloc();
    let (one, two) = (ReplicaId::known(1), ReplicaId::known(2));
    let summaries = [summary(alloc, one, 1), summary(alloc, two, 2)];
    let made = Plan::make(alloc, &summaries);
    drop(summaries);
    let mut plan = made?;
    assert!(rt; plan.turn(two) == Some(Part::Greens { from: 2, to: 2 }));

    let item = Item::Green { at: 2 };
    assert!(rt; plan.accept(one, &item).is_err());
    assert!(rt; plan.accept(two, &item).is_ok());
    assert!(rt; plan.done());
    Ok(())
}
