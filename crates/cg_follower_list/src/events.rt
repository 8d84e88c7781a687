//! What events make of the followers. Where memory is refused the follower of the event may be gone.

ghost use Rattle.std.specs.Prelude.{◌≡◌, None, IfOk};
ghost use Rattle.std.specs.Option.{option_to_list};
ghost use Rattle.cg_action.specs.ActionLimits.{IsAction};
ghost use Rattle.cg_db.specs.Limits.{AreEntries};
ghost use Rattle.cg_base.specs.Lists.{Each};
ghost use Rattle.cg_follower_list.specs.Life.{Up};
ghost use Rattle.cg_follower_list.specs.Followers.{answers, becomes, changes_to, feeding, follower_down, follower_up, stopping, taken_by};
ghost use Rattle.cg_follower_list.specs.Seen.{seen};
ghost use Rattle.cg_follower_list.specs.Turning.{noted};

use crate::follower_state::FollowerState;
use crate::running::Running;
use crate::slot::Slot;
use crate::{FollowLine, FollowerList};
use cg_action::Query;
use cg_base::{Bytes, NoMemory};
use cg_db::Db;
use cg_queue::Queue;

impl FollowerList {
    /// The follower of a number is up with this cursor and these entries, on a new disk on which nothing is armed. A
    /// cursor of 2^62 or more is refused as want of memory.
    pub fn make(&mut self, f: u8, cursor: u64, db: &Db) -> Result<Option<FollowLine>, NoMemory>
        requires { AreEntries db.now }
        ensures { IfOk result (λ line.
            becomes self.old f (Up (record { cursor = cursor; db = db.now }) None) ≡ noted self.new line) }
    {
        let running = Running::make(self.alloc(), cursor, db)?;
        self.turn(f, FollowerState::Up(running))
    }

    // The follower of a number stands so from now on.
    fn turn(&mut self, f: u8, state: FollowerState) -> Result<Option<FollowLine>, NoMemory>
        ensures { IfOk result (λ line. becomes self.old f (seen state) ≡ noted self.new line) }
    {
        match self.take(f) {
            Some(slot) => {
                let (slot, line) = slot.turn(state);
                self.add(slot)?;
                Ok(line)
            }
            None => {
                let (slot, line) = Slot::new(f, state);
                self.add(slot)?;
                Ok(Some(line))
            }
        }
    }

    /// The follower takes so many of the queue's next greens, or all that are left where these are fewer. Where an armed
    /// strike falls into its four device calls, it is down. `NoMemory` also comes where those calls might go past 2^62.
    pub fn feed(&mut self, f: u8, q: &Queue, count: u64) -> Result<Option<FollowLine>, NoMemory>
        requires { Each IsAction q.now.greens }
        ensures { IfOk result (λ line. changes_to self.old f (feeding q.now count) ≡ noted self.new line) }
    {
        let Some(slot) = self.take(f) else {
            return Ok(None);
        };
        let (slot, line) = slot.feed(self.alloc(), q, count)?;
        self.add(slot)?;
        Ok(line)
    }

    /// A crash of a follower that is up, now for 0, or inside the device call of this number, with the bytes that it
    /// leaves in places that weren't synced.
    pub fn stop(&mut self, f: u8, call: u64, fill: Bytes) -> Result<Option<FollowLine>, NoMemory>
        requires { follower_down self.old f ≡ None }
        ensures { IfOk result (λ line. changes_to self.old f (stopping call fill) ≡ noted self.new line) }
    {
        let Some(slot) = self.take(f) else {
            return Ok(None);
        };
        let (slot, line) = slot.stop(call, fill)?;
        self.add(slot)?;
        Ok(line)
    }

    /// A follower that is down comes up from its disk. `NoMemory` also comes where the disk has made so many calls that
    /// those of an opening might go past 2^62.
    pub fn recover(&mut self, f: u8) -> Result<Option<FollowLine>, NoMemory>
        requires { follower_up self.old f ≡ None }
        ensures { IfOk result (λ line. changes_to self.old f (λ life. Up (taken_by life) None) ≡ noted self.new line) }
    {
        let Some(slot) = self.take(f) else {
            return Ok(None);
        };
        let (slot, line) = slot.recover(self.alloc())?;
        self.add(slot)?;
        Ok(line)
    }

    /// What a follower that is up answers.
    pub fn answer(&self, f: u8, q: &Query) -> Result<Option<FollowLine>, NoMemory>
        requires { follower_down self.now f ≡ None }
        ensures { IfOk result (λ line. option_to_list line ≡ answers self.now f q.now) }
    {
        let Some(slot) = self.find(f) else {
            return Ok(None);
        };
        let answer = slot.answer(q)?;
        Ok(Some(FollowLine::Weak { f, answer }))
    }
}
