//! Members: which replicas are servers, with their lines and weights, and which have left.
//!
//! A `Members` is what a sequence of green actions makes of the servers of the start: `members_of` in
//! `specs/Servers.antt` folds the sequence, and each call here is one case of that fold's step. So a replica's members
//! are a function of its green actions, and whoever has the same green actions has the same members. No call takes
//! memory. Which actions become green, and in which order, is left to the layers above.
#![tactic(auto)]

mod laws;
mod members;
mod server;
mod server_set;

pub use laws::{lines_never_fall, members_follow_greens, servers_stay_apart};
pub use members::Members;
pub use server::Server;
pub use server_set::{ServerIter, ServerSet};
