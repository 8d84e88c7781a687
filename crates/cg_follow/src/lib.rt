//! Followers: read-only copies of the database, each with a cursor into the global order and a disk of its own.
//!
//! The one contract: what a follower's disk stands for is a function of its bytes (`specs/Stands.antt`); at each moment
//! of a feed every image stands for the follower before it or behind it, after Ok for the latter, and after a fault the
//! byte at the record's gate decides. A feed costs what it takes: one record, and its actions applied to the database
//! in place. `read_follow` reads a line of followers (`specs/Line.antt`), and `follow_lines_are_exact` says which lines
//! those are. Which actions are fed, and by whom, is left to the layers above.
#![tactic(auto)]

mod errors;
mod event;
mod finding;
mod follower;
mod laws;
mod reader;
mod records;
mod taken;
mod word;

pub use errors::{FollowErr, FollowOpen};
pub use event::FollowEvent;
pub use follower::Follower;
pub use laws::{follow_lines_are_exact, followers_are_exact, followers_stay_followers};
pub use reader::read_follow;
