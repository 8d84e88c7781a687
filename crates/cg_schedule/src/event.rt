use cg_action::{CmdList, Query};
use cg_base::{Bytes, IdSet, ReplicaId, WeightSet};

/// One event of a schedule.
#[derive(PartialEq, Eq)]
pub enum Event {
    /// These replicas begin, each alone, as the servers of one database.
    Start(WeightSet),
    /// These replicas, all regular in one configuration, come into its transitional phase together.
    Split(IdSet),
    /// A new configuration of these replicas is made.
    Merge(IdSet),
    /// A client asks the replica to run at most 16 commands, and then to answer the query.
    Request {
        p: ReplicaId,
        cmds: CmdList,
        query: Option<Query>,
    },
    /// A client asks the replica for the answer of its green actions.
    Weak {
        p: ReplicaId,
        query: Query,
    },
    /// A client asks the replica for the answer of all actions that it knows.
    Dirty {
        p: ReplicaId,
        query: Query,
    },
    /// The oldest unordered message of the replica gets the next place in its configuration.
    Order(ReplicaId),
    /// The replica comes back from its disk.
    Recover(ReplicaId),
    /// The replica comes back from its disk, unless it crashes in the device call of this number, counted from the next one
    /// as 1. `fill` decides what is left of bytes that were not synced.
    RecoverStopped {
        p: ReplicaId,
        call: u64,
        fill: Bytes,
    },
    /// In place of the replica's disk there is one of the older format, which stands for the same state.
    Downgrade(ReplicaId),
    /// The replica shows its green actions and its database.
    Show(ReplicaId),
    /// The global order is shown.
    ShowOrder,
    /// Each regular replica orders all that it sent, and then each receives all that it lacks.
    Gather,
    /// The schedule ends.
    End,
    /// The replica receives the message at the place, counted from 1.
    Receive {
        p: ReplicaId,
        place: u64,
    },
    /// The replica is handed so many of the next messages.
    Deliver {
        p: ReplicaId,
        count: u64,
    },
    /// So many passes: a gather, and then each replica is handed what is ready for it.
    Rounds(u64),
    /// The replica crashes in the device call of this number, counted from the next one as 1, or at once for 0.
    /// `fill` decides what is left of bytes that were not synced.
    Stop {
        p: ReplicaId,
        call: u64,
        fill: Bytes,
    },
    /// The device call of this number, counted from the next one as 1, fails once.
    Fail {
        p: ReplicaId,
        call: u64,
    },
    /// The replica creates the join of a new server with this weight.
    Join {
        p: ReplicaId,
        joiner: ReplicaId,
        weight: u8,
    },
    /// The replica creates the leave of a server.
    Leave {
        p: ReplicaId,
        server: ReplicaId,
    },
    /// The joiner is handed so many of the next pieces of the replica's snapshot.
    Transfer {
        p: ReplicaId,
        joiner: ReplicaId,
        pieces: u64,
    },
}

impl Drop for Event {
    fn drop(self) {
        match self {
            Event::Start(_) => {}
            Event::Split(_) => {}
            Event::Merge(_) => {}
            Event::Request {
                p: _,
                cmds: _,
                query: _,
            } => {}
            Event::Weak { p: _, query: _ } => {}
            Event::Dirty { p: _, query: _ } => {}
            Event::Order(_) => {}
            Event::Recover(_) => {}
            Event::RecoverStopped {
                p: _,
                call: _,
                fill: _,
            } => {}
            Event::Downgrade(_) => {}
            Event::Show(_) => {}
            Event::ShowOrder => {}
            Event::Gather => {}
            Event::End => {}
            Event::Receive { p: _, place: _ } => {}
            Event::Deliver { p: _, count: _ } => {}
            Event::Rounds(_) => {}
            Event::Stop {
                p: _,
                call: _,
                fill: _,
            } => {}
            Event::Fail { p: _, call: _ } => {}
            Event::Join {
                p: _,
                joiner: _,
                weight: _,
            } => {}
            Event::Leave { p: _, server: _ } => {}
            Event::Transfer {
                p: _,
                joiner: _,
                pieces: _,
            } => {}
        }
    }
}
