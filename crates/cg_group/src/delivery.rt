use cg_base::{Bytes, IdSet, ReplicaId, Row};

/// What is handed to a replica. The group's messages are bytes.
#[derive(Drop)]
pub enum Delivery<M = Bytes> {
    /// A message at its place in the configuration, from 1, with its sender.
    Message {
        place: u64,
        from: ReplicaId,
        bytes: M,
    },
    /// The configuration is left, together with the set.
    Transitional {
        conf: u64,
        set: IdSet,
    },
    /// A new configuration, and its members.
    Regular {
        conf: u64,
        set: IdSet,
    },
}

/// What is handed to one replica in one event.
#[derive(Drop)]
pub struct Handed<M = Bytes> {
    pub to: ReplicaId,
    pub list: Row<Delivery<M>>,
}

/// Deliveries, in order.
pub type DeliveryList = Row<Delivery>;

/// What is handed out in one event, ascending by replica.
pub type HandedList = Row<Handed>;
