use cg_action::Query;
use cg_base::{Bytes, ReplicaId};

/// An event of the follower `f`, a number from 1 to 32.
pub enum FollowEvent {
    /// The follower is made, or made anew, of what the replica has green.
    Follower { f: u8, p: ReplicaId },
    /// The follower takes so many of the replica's next green actions.
    Feed { p: ReplicaId, f: u8, count: u64 },
    /// The follower's disk stops in the device call of this number, counted from the next one as 1, or at once for 0.
    /// `fill` decides what is left of bytes that were not synced.
    Stop { f: u8, call: u64, fill: Bytes },
    /// The follower comes back from its disk.
    Recover(u8),
    /// A client asks the follower.
    Weak { f: u8, query: Query },
}

impl Drop for FollowEvent {
    fn drop(self) {
        match self {
            FollowEvent::Follower { f: _, p: _ } => {}
            FollowEvent::Feed {
                p: _,
                f: _,
                count: _,
            } => {}
            FollowEvent::Stop {
                f: _,
                call: _,
                fill: _,
            } => {}
            FollowEvent::Recover(_) => {}
            FollowEvent::Weak { f: _, query: _ } => {}
        }
    }
}
