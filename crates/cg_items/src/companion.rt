use cg_base::ReplicaId;
use cg_follow::FollowEvent;
use cg_follower_list::{FollowLine, FollowerList};
use cg_made_rows::{MadeRows, RelaxedEvent, RelaxedLine};
use cg_session::SessionEvent;
use cg_session_list::{SessionLine, SessionList};

/// What a command keeps beside the world.
pub enum Companion {
    /// Nothing: the schedule is replayed alone.
    Alone,
    /// The followers that were made.
    Followers(FollowerList),
    /// The actions that were made.
    Relaxed(MadeRows),
    /// The sessions that are open.
    Sessions(SessionList),
    /// Nothing: logs are read, and no schedule.
    Comparing,
    /// Nothing: at the end the disk of this replica is wanted.
    Imaging(ReplicaId),
}

impl Drop for Companion {
    fn drop(self) {
        match self {
            Companion::Alone => {}
            Companion::Followers(_) => {}
            Companion::Relaxed(_) => {}
            Companion::Sessions(_) => {}
            Companion::Comparing => {}
            Companion::Imaging(_) => {}
        }
    }
}

/// An event of a command's own, beside those of a schedule.
pub enum Further {
    Follow(FollowEvent),
    Relaxed(RelaxedEvent),
    Session(SessionEvent),
}

impl Drop for Further {
    fn drop(self) {
        match self {
            Further::Follow(_) => {}
            Further::Relaxed(_) => {}
            Further::Session(_) => {}
        }
    }
}

/// A line that stands behind those of the world's step.
pub enum FurtherLine {
    Follow(FollowLine),
    Relaxed(RelaxedLine),
    Session(SessionLine),
}

impl Drop for FurtherLine {
    fn drop(self) {
        match self {
            FurtherLine::Follow(_) => {}
            FurtherLine::Relaxed(_) => {}
            FurtherLine::Session(_) => {}
        }
    }
}
