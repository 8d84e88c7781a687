//! What the items of every run agree on: sessions, followers, relaxed queries, and the logs that its steps show.
//!
//! Laws alone, each of any run, whichever command it was; what they say is stated beside the items themselves (`cg_items`).
//! Each follows from what the run's steps agree on: a session reads prefixes of the one order that never get shorter, and
//! holds all that it wrote and was told of; a follower is a prefix of that order; a relaxed query shows what the known
//! actions make; the logs are parts of the one order.
#![tactic(auto)]

mod followers;
mod logs;
mod relaxed;
mod sessions;

pub use followers::followers_agree;
pub use logs::shown_logs_agree;
pub use relaxed::relaxed_agree;
pub use sessions::sessions_agree;
