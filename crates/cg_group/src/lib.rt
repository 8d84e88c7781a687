//! The group layer: configurations, ordered messages, deliveries, partitions and merges.
//!
//! The one contract: each call does what the rules of extended virtual synchrony say. Clause `ok` names its function of
//! `specs/Events.antt`, and clause `answer` the first reason of `specs/Refusals.antt` by which it is refused. What follows
//! for any list of calls is `virtually_synchronous`: agreement on the order and on what each configuration has handed out.
//! Which bytes a message has, and what comes of it, is left to the layers above.
//!
//! A message gets a place in its configuration, and is handed out once all members have received it, as in
//! `crates/cg_library_tests/src/group.rt`:
//!
//! ```rust
//! fn a_message_is_handed_out_once_all_have_it(rt: HostRuntime) -> Result<(), Fail> {
//!     let (one, two) = (ReplicaId::known(1), ReplicaId::known(2));
//!     let hello = Bytes::from_slice(rt.alloc(), b"hello")?;
//!     let mut group = pair(rt.alloc(), one, two);
//!     assert!(rt; group.send(one, hello) == Ok(true));
//!     assert!(rt; group.order(one) == Ok(1));
//!     assert!(rt; group.ready(one) == 0);
//!
//!     assert!(rt; group.receive(two, 1) == Ok(()));
//!     assert!(rt; group.ready(one) == 1);
//!     let handed = group.deliver(one, 1);
//!     drop(group);
//!     assert!(rt; matches!(handed?.as_slice(), [Delivery::Message { place: 1, .. }]));
//!     Ok(())
//! }
//! ```
#![tactic(auto)]

mod configuration_log;
mod deliver;
mod deliveries;
mod delivery;
mod error;
mod gathering;
mod group;
mod law;
mod logs;
mod member;
mod merging;
mod order;
mod ordered_message;
mod parting;
mod phase;
mod place;
mod reason;
mod receipts;
mod receive;
mod refusals;
mod roster;
mod try_clone;

pub use delivery::{Delivery, DeliveryList, Handed, HandedList};
pub use error::GroupErr;
pub use group::Group;
pub use law::virtually_synchronous;
pub use phase::Phase;
pub use reason::Reason;
pub use try_clone::TryClone;
