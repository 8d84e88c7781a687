use cg_base::{IdSet, ReplicaId, WeightSet};
use cg_encoded::DeliveredList;
use cg_engine::{Input, Replica};
use cg_group::Delivery;
use cg_report::StateName;
use std::test::Fail;

#[test]
fn a_new_configuration_begins_an_exchange(rt: HostRuntime) -> Result<(), Fail> {
    let one = ReplicaId::known(1);
    let mut set = IdSet::empty();
    set.add(one);
    let mut list = DeliveredList::new(rt.alloc());
    list.push(Delivery::Regular { conf: 1, set })?;

    let replica = Replica::fresh(rt.alloc(), one, &WeightSet::of(&set))?;
    let (replica, draft) = replica.step(Input::Deliver(list))?;
    assert!(rt; replica.state() == StateName::ExchangeStates);
    assert!(rt; draft.sent().len() == 1);
    draft.abandon();
    drop(replica);
    Ok(())
}
