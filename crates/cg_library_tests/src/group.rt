use cg_base::{Bytes, IdSet, ReplicaId};
use cg_group::{Delivery, Group};
use std::alloc::Global;
use std::test::Fail;

// a replica that is up already stays where it is
fn add(group: &mut Group, p: ReplicaId) {
    if !group.is_up(p) {
        let _done = group.add(p);
    }
}

// a group of one configuration, with two members
fn pair(alloc: Global, one: ReplicaId, two: ReplicaId) -> Group {
    let mut both = IdSet::empty();
    both.add(one);
    both.add(two);
    let mut group = Group::new(alloc);
    add(&mut group, one);
    add(&mut group, two);
    let _handed = group.merge(both, IdSet::empty());
    group
}

#[test]
fn a_message_is_handed_out_once_all_have_it(rt: HostRuntime) -> Result<(), Fail> {
    let (one, two) = (ReplicaId::known(1), ReplicaId::known(2));
    let hello = Bytes::from_slice(rt.alloc(), b"hello")?;
    let mut group = pair(rt.alloc(), one, two);
    assert!(rt; group.send(one, hello) == Ok(true));
    assert!(rt; group.order(one) == Ok(1));
    assert!(rt; group.ready(one) == 0);

    assert!(rt; group.receive(two, 1) == Ok(()));
    assert!(rt; group.ready(one) == 1);
    let handed = group.deliver(one, 1);
    drop(group);
    assert!(rt; matches!(handed?.as_slice(), [Delivery::Message { place: 1, .. }]));
    Ok(())
}
