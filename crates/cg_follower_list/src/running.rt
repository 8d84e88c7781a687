//! A follower that is up, with its disk.

ghost use Rattle.std.specs.Prelude.{◌≡◌, ◌≤◌, None, Some, IfOk, IfSome};
ghost use Rattle.cg_action.specs.ActionLimits.{IsAction};
ghost use Rattle.cg_disk_records.specs.Crash.{StopWith};
ghost use Rattle.cg_db.specs.Limits.{AreEntries};
ghost use Rattle.cg_disk.specs.Model.{state_of};
ghost use Rattle.cg_disk.specs.State.{left_by};
ghost use Rattle.cg_follow.specs.Followed.{Followed};
ghost use Rattle.cg_follow.specs.Stands.{Stands};
ghost use Rattle.cg_base.specs.Lists.{Each};
ghost use Rattle.cg_follower_list.specs.Followers.{after_feed};
ghost use Rattle.cg_follower_list.specs.Life.{Fallen};
ghost use Rattle.cg_follower_list.specs.Seen.{seen};

use crate::fallen_disk::FallenDisk;
use crate::follower_state::FollowerState;
use cg_action::{ActionList, Answer, Query};
use cg_base::{Bytes, COUNT_LIMIT, NoMemory, Row};
use cg_db::Db;
use cg_disk::{Disk, ModelDisk};
use cg_follow::{FollowErr, Follower};
use std::alloc::Global;
use std::marker::Model;

// The device calls of a feed.
const FEED_CALLS: u64 = 4;

/// A follower that is up, and the bytes that a crash in the armed device call leaves in places that weren't synced.
/// Clauses see what it has taken, and the strike that is armed.
pub(crate) struct Running {
    follower: Follower<ModelDisk>,
    fill: Bytes,
}

impl Drop for Running {
    fn drop(self) {
        let Running {
            follower: _,
            fill: _,
        } = self;
    }
}

impl Model for Running {
    ghost use Rattle.cg_follower_list.specs.Disks.{Running, armed_on};

    ghost Value = { Running };

    ghost view = { λ r. record {
      now = r.follower.now;
      armed = armed_on (⟦<ModelDisk as Disk>⟧.view r.follower.disk) r.fill;
    } };
}

// A crash leaves these bytes of the disk of a follower.
fn crash_follower(disk: ModelDisk, fill: &[u8]) -> Result<FollowerState, NoMemory>
    requires { (left : Followed) × Stands (left_by (state_of disk) fill.now) left }
    ensures { IfOk result (λ s. (left : Followed) → Stands (left_by (state_of disk) fill.now) left →
        seen s ≡ Fallen left) }
{
    let disk = disk.image(fill)?;
    Ok(FollowerState::Down(FallenDisk::new(disk)))
}

impl Running {
    ghost use Rattle.cg_db.specs.Find.{answer};

    // A follower on whose disk nothing is armed.
    pub(crate) fn new(alloc: Global, follower: Follower<ModelDisk>) -> Running
        requires { IfSome (⟦<ModelDisk as Disk>⟧.view follower.disk).state (λ s. s.strike ≡ None) }
        ensures { result ≡ record { now = follower.now; armed = None } }
    {
        let fill = Row::new(alloc);
        Running { follower, fill }
    }

    /// The follower with this cursor and these entries, on a new disk.
    pub(crate) fn make(alloc: Global, cursor: u64, db: &Db) -> Result<Running, NoMemory>
        requires { AreEntries db.now }
        ensures { IfOk result (λ r. r ≡ record { now = record { cursor = cursor; db = db.now }; armed = None }) }
    {
        if cursor >= COUNT_LIMIT {
            return Err(NoMemory);
        }
        match Follower::make(alloc, ModelDisk::new(alloc), cursor, db) {
            Ok(follower) => Ok(Running::new(alloc, follower)),
            Err(FollowErr::Lost(_)) => unreachable!(),
            Err(FollowErr::NoMemory(_)) => Err(NoMemory),
        }
    }

    /// It takes these actions, or is struck while it does. `NoMemory` too where its disk has made so many calls that
    /// those of a feed might go past 2^62.
    pub(crate) fn feed(self, list: &ActionList) -> Result<FollowerState, NoMemory>
        requires { Each IsAction list.now }
        ensures { IfOk result (λ s. seen s ≡ after_feed list.now self.armed self.now) }
    {
        let Running { mut follower, fill } = self;
        if follower.calls() > COUNT_LIMIT - FEED_CALLS {
            return Err(NoMemory);
        }
        follower.begin();
        match follower.feed(list) {
            Ok(follower) => Ok(FollowerState::Up(Running { follower, fill })),
            Err(FollowErr::Lost(disk)) => crash_follower(disk, fill.as_slice()),
            Err(FollowErr::NoMemory(_)) => Err(NoMemory),
        }
    }

    /// A crash now.
    pub(crate) fn crash(self) -> Result<FallenDisk, NoMemory>
        ensures { IfOk result (λ left. left ≡ self.now) }
    {
        let Running { follower, fill: _ } = self;
        let disk = follower.into_disk().image(&[])?;
        Ok(FallenDisk::new(disk))
    }

    /// Arms a crash in the device call of this number, from 1 for the next one, with the bytes that it leaves in places
    /// that weren't synced.
    pub(crate) fn stop_at(&mut self, call: u64, fill: Bytes)
        requires { 1 ≤ call }
        ensures { self.new ≡ record {
          now = self.old.now;
          armed = Some (record { call = call; fault = StopWith fill });
        } }
    {
        self.follower.stop_at(call);
        self.fill = fill;
    }

    pub(crate) fn cursor(&self) -> u64
        ensures { result ≡ self.now.now.cursor }
    {
        self.follower.cursor()
    }

    pub(crate) fn answer(&self, q: &Query) -> Result<Answer, NoMemory>
        ensures { IfOk result (λ found. found ≡ answer self.now.now.db q.now) }
    {
        self.follower.answer(q)
    }
}
