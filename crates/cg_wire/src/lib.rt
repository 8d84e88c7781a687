//! Messages between replicas, in bytes: actions, summaries, the items of a retransmission plan, and the word that a
//! member is ready to install a primary component.
//!
//! Each message has one spelling (`specs/Bytes.antt`), and `specs/Limits.antt` says which messages there are: each of
//! these is read again as it was written, and nothing else is read. Where bytes spell no message, the fault is the first
//! from the left. What a message does is left to the layers above.
#![tactic(auto)]

mod boxed_summary;
mod laws;
mod message;
mod reading;
mod writing;

pub use boxed_summary::BoxedSummary;
pub use laws::{messages_are_exact, messages_stand_apart};
pub use message::Msg;
pub use reading::{decode, read_message};
pub use writing::encode;
