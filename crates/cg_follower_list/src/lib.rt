//! The followers of a run, each with its disk, and the lines that speak of them.
//!
//! What an event makes of them is one equation over `specs/Followers.antt`: the followers behind it, and the line that
//! is due. A feed takes the replica's next greens one by one; neither the database nor what was taken before is copied.
#![tactic(auto)]

mod admission;
mod events;
mod fallen_disk;
mod follow_line;
mod follower_state;
mod followers;
mod greens;
mod print;
mod running;
mod slot;

pub use follow_line::FollowLine;
pub use followers::FollowerList;
