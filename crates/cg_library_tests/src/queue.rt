ghost use Rattle.std.specs.Prelude.{◌≡◌, IfOk};

use cg_action::{Action, Kind, Shared};
use cg_base::{ActionId, NoMemory, ReplicaId};
use cg_queue::{Mark, Queue};
use std::alloc::Global;
use std::test::Fail;

// the creator asks to leave
fn action(alloc: Global, creator: ReplicaId, index: u64) -> Result<Action, NoMemory>
    ensures creator { IfOk result (λ a. a.id.creator ≡ creator) }
    ensures index { IfOk result (λ a. a.id.index ≡ index) }
{
    let kind = Shared::new(alloc, Kind::Leave(creator))?;
    Ok(Action {
        id: ActionId { creator, index },
        green_line: 0,
        kind,
    })
}

#[test]
fn actions_of_a_creator_are_marked_in_turn(rt: HostRuntime) -> Result<(), Fail> {
    let alloc = rt.alloc();
    let (one, two) = (ReplicaId::known(1), ReplicaId::known(2));
    let first = action(alloc, two, 1)?;
    let same = action(alloc, two, 1)?;
    let other = action(alloc, one, 1)?;
    let third = action(alloc, one, 3)?;
    let mut queue = Queue::new(alloc);
    assert!(rt; queue.mark_green(1, first) == Ok(Mark::Placed));
    assert!(rt; queue.mark_red(other) == Ok(Mark::Placed));
    assert!(rt; queue.mark_red(same) == Ok(Mark::Known));

    // 1:2 was not seen yet
    assert!(rt; queue.mark_red(third).is_err());
    assert!(rt; queue.green_count() == 1);
    assert!(rt; queue.red_cut().get(one) == 1);
    drop(queue);
    Ok(())
}
