//! Logs of replicas, place by place: whether they are parts of one order.
//!
//! A log is a part of an order: names of actions, and how many places stand before them. `join_logs` tells what logs
//! come to together, and `IsTold` (`specs/Orders.antt`) says in words of lists alone what that means: they agree
//! exactly where some order without repeats has each log as a part, and what is told of them is what all such orders
//! share; else two logs differ at a place, or a name stands at two. `read_log_line` reads a line that spells a log. To
//! take lines and to put the answer is left to the layers above.
#![tactic(auto)]

mod display;
mod join;
mod laws;
mod log;
mod log_line;
mod reader;
mod seen;

pub use join::join_logs;
pub use laws::{joins_are_told, logs_of_one_order_agree};
pub use log::{CoveredList, Joined, Log, LogList};
pub use log_line::LogLine;
pub use reader::read_log_line;
