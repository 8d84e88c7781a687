//! The events of followers in a world: which are admitted, and what they do.
ghost use Rattle.std.specs.Prelude.{◌≡◌, [], ◌∷◌, None, IfOk};
ghost use Rattle.cg_base.specs.Lists.{first_some};
ghost use Rattle.cg_follow.specs.declared.event.FollowEvent.TheVariants.{Follower as Make, Feed};
ghost use Rattle.cg_follower_list.specs.Followers.{changes_to, follower_down, follower_up, stopping, unknown_follower};
ghost use Rattle.cg_follower_list.specs.Turning.{noted};
ghost use Rattle.cg_items.specs.Followers.{discarded, follow_acts, follow_refusal, would_go_back};
ghost use Rattle.cg_model.specs.Admission.{takes_part};

use cg_base::{Bytes, NoMemory, ReplicaId, Row};
use cg_follow::FollowEvent;
use cg_follower_list::{FollowLine, FollowerList};
use cg_group::Reason;
use cg_world::World;
use std::alloc::Global;

/// The reason by which an event isn't admitted, if there is one. It takes no memory.
#[tactic(auto, unfolding(cg_items::specs::Followers::follow_refusal))]
pub fn follow_refusal(
    world: &World,
    followers: &FollowerList,
    event: &FollowEvent,
) -> Option<Reason>
    ensures { result ≡ follow_refusal world.now.world followers.now event.now }
{
    match event {
        FollowEvent::Follower { f, p } => make_refusal(world, followers, *f, *p),
        FollowEvent::Feed { p, f, count: _ } => feed_refusal(world, followers, *f, *p),
        FollowEvent::Stop {
            f,
            call: _,
            fill: _,
        } => up_test(followers, *f),
        FollowEvent::Recover(f) => down_test(followers, *f),
        FollowEvent::Weak { f, query: _ } => up_test(followers, *f),
    }
}

fn make_refusal(world: &World, followers: &FollowerList, f: u8, p: ReplicaId) -> Option<Reason>
    ensures { result ≡ first_some (takes_part world.now.world p ∷ would_go_back world.now.world followers.now f p ∷ []) }
{
    match world.takes_part(p) {
        Some(reason) => Some(reason),
        None => would_go_back(world, followers, f, p),
    }
}

fn would_go_back(world: &World, followers: &FollowerList, f: u8, p: ReplicaId) -> Option<Reason>
    ensures { result ≡ would_go_back world.now.world followers.now f p }
{
    match world.core(p) {
        Some(core) => followers.going_back(f, core.queue()),
        None => None,
    }
}

fn feed_refusal(world: &World, followers: &FollowerList, f: u8, p: ReplicaId) -> Option<Reason>
    ensures { result ≡ first_some (takes_part world.now.world p ∷ unknown_follower followers.now f
        ∷ follower_down followers.now f ∷ discarded world.now.world followers.now f p ∷ []) }
{
    if let Some(reason) = world.takes_part(p) {
        return Some(reason);
    }
    match up_test(followers, f) {
        Some(reason) => Some(reason),
        None => discarded(world, followers, f, p),
    }
}

fn discarded(world: &World, followers: &FollowerList, f: u8, p: ReplicaId) -> Option<Reason>
    requires { follower_down followers.now f ≡ None }
    ensures { result ≡ discarded world.now.world followers.now f p }
{
    match world.core(p) {
        Some(core) => followers.lacking(f, core.queue()),
        None => None,
    }
}

// the follower isn't there, or is down
fn up_test(followers: &FollowerList, f: u8) -> Option<Reason>
    ensures { result ≡ first_some (unknown_follower followers.now f ∷ follower_down followers.now f ∷ []) }
{
    match followers.unknown(f) {
        Some(reason) => Some(reason),
        None => followers.down(f),
    }
}

// the follower isn't there, or is up
fn down_test(followers: &FollowerList, f: u8) -> Option<Reason>
    ensures { result ≡ first_some (unknown_follower followers.now f ∷ follower_up followers.now f ∷ []) }
{
    match followers.unknown(f) {
        Some(reason) => Some(reason),
        None => followers.up(f),
    }
}

/// What an admitted event does: its line, where one is due. After want of memory the followers are of no more use.
#[tactic(auto, unfolding(cg_items::specs::Followers::follow_acts))]
pub fn follow_acts(
    alloc: Global,
    world: &World,
    followers: &mut FollowerList,
    event: &FollowEvent,
) -> Result<Option<FollowLine>, NoMemory>
    requires { follow_refusal world.now.world followers.old event.now ≡ None }
    ensures { IfOk result (λ line. noted followers.new line ≡ follow_acts world.now.world followers.old event.now) }
{
    match event {
        FollowEvent::Follower { f, p } => make(world, followers, *f, *p),
        FollowEvent::Feed { p, f, count } => feed(world, followers, *f, *p, *count),
        FollowEvent::Stop { f, call, fill } => stop(alloc, followers, *f, *call, fill),
        FollowEvent::Recover(f) => followers.recover(*f),
        FollowEvent::Weak { f, query } => followers.answer(*f, query),
    }
}

#[tactic(auto, unfolding(cg_items::specs::Followers::follow_acts))]
fn make(
    world: &World,
    followers: &mut FollowerList,
    f: u8,
    p: ReplicaId,
) -> Result<Option<FollowLine>, NoMemory>
    ensures { IfOk result (λ line. noted followers.new line ≡ follow_acts world.now.world followers.old (Make f p)) }
{
    match world.core(p) {
        Some(core) => followers.make(f, core.green_count(), core.db()),
        None => Ok(None),
    }
}

#[tactic(auto, unfolding(cg_items::specs::Followers::follow_acts))]
fn feed(
    world: &World,
    followers: &mut FollowerList,
    f: u8,
    p: ReplicaId,
    count: u64,
) -> Result<Option<FollowLine>, NoMemory>
    ensures { IfOk result (λ line. noted followers.new line ≡
        follow_acts world.now.world followers.old (Feed p f count)) }
{
    match world.core(p) {
        Some(core) => followers.feed(f, core.queue(), count),
        None => Ok(None),
    }
}

#[tactic(auto, unfolding(cg_items::specs::Followers::follow_acts))]
fn stop(
    alloc: Global,
    followers: &mut FollowerList,
    f: u8,
    call: u64,
    fill: &Bytes,
) -> Result<Option<FollowLine>, NoMemory>
    requires { follower_down followers.old f ≡ None }
    ensures { IfOk result (λ line. noted followers.new line ≡ changes_to followers.old f (stopping call fill.now)) }
{
    let fill = Row::from_slice(alloc, fill.as_slice())?;
    followers.stop(f, call, fill)
}
