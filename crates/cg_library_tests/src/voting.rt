use cg_base::{IdSet, ReplicaId, WeightSet};
use cg_vote::quorum;

#[test]
fn half_goes_on_with_the_least_member(rt: HostRuntime) {
    let (one, two) = (ReplicaId::known(1), ReplicaId::known(2));
    let mut last = WeightSet::empty();
    last.put(one, 1);
    last.put(two, 1);
    let mut present = IdSet::empty();
    present.add(two);
    assert!(rt; !quorum(&last, &present));
    present.remove(two);
    present.add(one);
    assert!(rt; quorum(&last, &present));
}
