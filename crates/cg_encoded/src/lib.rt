//! A message in bytes, as the group carries it and hands it over.
//!
//! The one contract: an encoded message is made from its message, spelled once, and a group of encoded messages is a
//! group of messages in every clause. It keeps the message that it was made from beside the bytes, and all copies share
//! both: so the replicas to which it is handed see the bytes, and none of them reads these again.
#![tactic(auto)]

mod delivered_msg;
mod encoded_msg;
mod opening;

pub use delivered_msg::DeliveredMsg;
pub use encoded_msg::EncodedMsg;
pub use opening::{DeliveredList, open_all};
