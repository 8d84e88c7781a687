ghost use Rattle.std.specs.Prelude.{◌≡◌, ℕ, ◌<◌, length, fold, IfSome, OnOk, OnErr};
ghost use Rattle.cg_group.specs.Events.{order, order_all, receive, receive_all, gather};
ghost use Rattle.cg_group.specs.Logs.{RoomFor, RoomForAll, group_of, configurations_of};
ghost use Rattle.cg_group.specs.Rosters.{conf_of, waits_of, pending, regulars_of, IsRoster};

use crate::configuration_log::ConfigurationLog;
use crate::logs::{append_at, receive_all_at, receive_at, reserve_at};
use crate::member::Member;
use crate::roster::Roster;
use cg_base::{IdSet, NoMemory, ReplicaId};

/// The oldest message of a replica gets the next place of its configuration, where it has one. There is room for it.
pub(crate) fn order_oldest<M: Drop>(
    logs: &mut [ConfigurationLog<M>],
    roster: &mut Roster<M>,
    p: ReplicaId,
)
    requires { 0 < length (waits_of roster.old p) → RoomFor logs.old (conf_of roster.old p) 1 }
    ensures group { group_of logs.new roster.new ≡ order (group_of logs.old roster.old) p }
    ensures room { RoomForAll logs.old roster.old → RoomForAll logs.new roster.new }
{
    roster.holds();
    let conf = roster.regular_in(p);
    match roster.take_oldest(p) {
        Some(message) => append_at(logs, conf, p, message),
        None => {}
    }
}

/// A replica has received a place of its configuration.
pub(crate) fn receive_place<M>(
    logs: &mut [ConfigurationLog<M>],
    roster: &Roster<M>,
    p: ReplicaId,
    place: u64,
)
    ensures { group_of logs.new roster.now ≡ receive (group_of logs.old roster.now) p place }
{
    receive_at(logs, roster.regular_in(p), p, place);
}

// all messages of a replica get the next places of its configuration. There is room for all that wait
fn order_all<M: Drop>(logs: &mut [ConfigurationLog<M>], roster: &mut Roster<M>, p: ReplicaId)
    requires { RoomForAll logs.old roster.old }
    ensures group { group_of logs.new roster.new ≡ order_all (group_of logs.old roster.old) p }
    ensures room { RoomForAll logs.new roster.new }
{
    let count = roster.waiting(p);
    for _i in 0..count {
        order_oldest(logs, roster, p);
    }
}

// all messages of these replicas get places. There is room for all that wait
fn order_everything<M: Drop>(logs: &mut [ConfigurationLog<M>], roster: &mut Roster<M>, set: &IdSet)
    requires { RoomForAll logs.old roster.old }
    ensures { group_of logs.new roster.new ≡ fold order_all (group_of logs.old roster.old) set.now }
{
    for p in set.iter() {
        order_all(logs, roster, p);
    }
}

// how many messages wait for a place of the configuration, where a number is that large
fn pending<M>(members: &[Member<M>], conf: u64) -> Option<usize>
    ensures { IfSome result (λ n. n ≡ pending members.now conf) }
{
    let mut count: usize = 0;
    for member in members {
        if member.regular_in() == conf {
            count = count.checked_add(member.unordered())?;
        }
    }
    Some(count)
}

// makes room for the messages that wait for a place of the configuration
fn reserve_pending<M>(
    logs: &mut [ConfigurationLog<M>],
    members: &[Member<M>],
    conf: u64,
) -> Result<(), NoMemory>
    ensures same { configurations_of logs.new ≡ configurations_of logs.old }
    ensures kept { (k n : ℕ) → RoomFor logs.old k n → RoomFor logs.new k n }
    ensures room { OnOk result (RoomFor logs.new conf (pending members.now conf)) }
{
    match pending(members, conf) {
        Some(count) => reserve_at(logs, conf, count),
        None => Err(NoMemory),
    }
}

// makes room for all messages that wait, each configuration for its own
fn make_room<M>(logs: &mut [ConfigurationLog<M>], members: &[Member<M>]) -> Result<(), NoMemory>
    ensures same { configurations_of logs.new ≡ configurations_of logs.old }
    ensures room { OnOk result (RoomForAll logs.new members.now) }
{
    let mut last = 0;
    for member in members {
        if member.unordered() == 0 {
            continue;
        }
        let conf = member.regular_in();
        if conf != last {
            reserve_pending(logs, members, conf)?;
            last = conf;
        }
    }
    Ok(())
}

// each regular replica receives every place of its configuration
fn receive_everything<M>(logs: &mut [ConfigurationLog<M>], members: &[Member<M>])
    requires { IsRoster members.now }
    ensures { group_of logs.new members.now ≡
        fold receive_all (group_of logs.old members.now) (regulars_of members.now) }
{
    for member in members {
        receive_all_at(logs, member.regular_in(), member.id());
    }
}

/// Each regular replica orders all its messages, and then receives every place of its configuration.
pub(crate) fn gather<M: Drop>(
    logs: &mut [ConfigurationLog<M>],
    roster: &mut Roster<M>,
) -> Result<(), NoMemory>
    ensures ok { OnOk result (group_of logs.new roster.new ≡ gather (group_of logs.old roster.old)) }
    ensures err { OnErr result (group_of logs.new roster.new ≡ group_of logs.old roster.old) }
{
    make_room(logs, roster.as_slice())?;
    roster.holds();
    let senders = roster.senders();
    order_everything(logs, roster, &senders);
    roster.holds();
    receive_everything(logs, roster.as_slice());
    Ok(())
}
