ghost use Rattle.std.specs.Prelude.{◌≤◌, IfOk};
ghost use Rattle.cg_action.specs.ActionLimits.{IsAction};
ghost use Rattle.cg_base.specs.Lists.{Each};

use cg_action::{Action, ActionList, Cmd, CmdList, Kind, Shared};
use cg_base::{ActionId, NoMemory, ReplicaId};
use cg_db::Db;
use cg_disk::ModelDisk;
use cg_follow::{FollowErr, Follower};
use cg_text::Txt;
use std::alloc::{AllocGlobal, Global};
use std::process::Abort;
use std::test::Fail;

// one action, which adds 5 to "x"
fn raise(alloc: Global) -> Result<ActionList, NoMemory>
    ensures { IfOk result (λ list. Each IsAction list) }
{
    let key = Txt::new(alloc, "x")?;
    let mut cmds = CmdList::new(alloc);
    cmds.push(Cmd::Inc { key, by: 5 })?;
    let creator = ReplicaId::known(1);
    let kind = Shared::new(alloc, Kind::Update { cmds, query: None })?;
    let mut list = ActionList::new(alloc);
    list.push(Action {
        id: ActionId { creator, index: 1 },
        green_line: 0,
        kind,
    })?;
    Ok(list)
}

// the cursor of what opens again where the machine stops inside this call of a feed, and this fills what was under way
fn cursor_after(rt: &(impl Abort + AllocGlobal), call: u64, fill: &[u8]) -> Result<u64, Fail>
    requires some { 1 ≤ call }
    requires few { call ≤ 4 }
{
    let alloc = rt.alloc();
    let list = raise(alloc)?;
    let db = Db::new(alloc);
    let made = Follower::make(alloc, ModelDisk::new(alloc), 0, &db);
    drop(db);
    let mut follower = made
        .ok()
        .ok_or("no follower")?
        .feed(&list)
        .ok()
        .ok_or("no feed")?;
    assert!(rt; follower.cursor() == 1);
    assert!(rt; follower.calls() == 3 + 4 + 4);

    follower.stop_at(call);
    let Err(FollowErr::Lost(disk)) = follower.feed(&list) else {
        return Err("it went on".into());
    };
    let left = disk.image(fill)?;
    assert!(rt; left.calls() == 3 + 4 + 4 + call);
    let follower = Follower::open(alloc, left).ok().ok_or("no follower")?;
    Ok(follower.cursor())
}

#[test]
fn a_crash_leaves_the_follower_before_or_after(rt: HostRuntime) -> Result<(), Fail> {
    let before = cursor_after(&rt, 1, b"half of it")?;
    assert!(rt; before == 1);

    // the third call writes the byte by which the feed counts
    let after = cursor_after(&rt, 3, b"\x01")?;
    assert!(rt; after == 2);
    Ok(())
}
