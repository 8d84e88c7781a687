//! The tests of events of followers, each with its reason. None of them takes memory.

ghost use Rattle.std.specs.Prelude.{◌≡◌, None, option_and_then};
ghost use Rattle.cg_follower_list.specs.Followers.{follower_at, life_at, unknown_follower, follower_down, follower_up, goes_back, lacks};

use crate::FollowerList;
use crate::slot::Slot;
use cg_group::Reason;
use cg_queue::Queue;

impl FollowerList {
    /// The reason against an event of a follower that has to be there, where it wasn't made.
    pub fn unknown(&self, f: u8) -> Option<Reason>
        ensures { result ≡ unknown_follower self.now f }
    {
        match self.find(f) {
            Some(_) => None,
            None => Some(Reason::UnknownFollower(f)),
        }
    }

    /// The reason against an event of a follower that has to be up, where it is down.
    pub fn down(&self, f: u8) -> Option<Reason>
        ensures { result ≡ follower_down self.now f }
    {
        let slot = self.find(f)?;
        if slot.is_up() {
            return None;
        }
        Some(Reason::FollowerDown(f))
    }

    /// The reason against an event of a follower that has to be down, where it is up.
    pub fn up(&self, f: u8) -> Option<Reason>
        ensures { result ≡ follower_up self.now f }
    {
        let slot = self.find(f)?;
        if !slot.is_up() {
            return None;
        }
        Some(Reason::FollowerUp(f))
    }

    /// The reason against an event that makes the follower as this queue has its greens, where it was shown further than
    /// these reach.
    pub fn going_back(&self, f: u8, q: &Queue) -> Option<Reason>
        ensures { result ≡ option_and_then (goes_back q.now) (follower_at self.now f) }
    {
        let shown = self.find(f)?.shown();
        if q.green_count() < shown {
            return Some(Reason::WouldGoBack(shown));
        }
        None
    }

    /// The reason against an event that feeds the follower from this queue, where the queue has discarded actions that the
    /// follower would have to take.
    pub fn lacking(&self, f: u8, q: &Queue) -> Option<Reason>
        requires { follower_down self.now f ≡ None }
        ensures { result ≡ option_and_then (lacks q.now) (life_at self.now f) }
    {
        let white = q.white_count();
        if self.find(f)?.cursor()? < white {
            return Some(Reason::Discarded(white));
        }
        None
    }
}
