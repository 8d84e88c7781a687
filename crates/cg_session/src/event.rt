use cg_action::{CmdList, Query};
use cg_base::ReplicaId;

/// An event of the session `s`, a number from 1 to 32.
pub enum SessionEvent {
    /// The session is opened.
    Begin(u8),
    /// The session asks the replica to run at most 16 commands, and then to answer the query.
    Write {
        s: u8,
        p: ReplicaId,
        cmds: CmdList,
        query: Option<Query>,
    },
    /// The session asks the replica for the answer of its green actions.
    Weak {
        s: u8,
        p: ReplicaId,
        query: Query,
    },
}

impl Drop for SessionEvent {
    fn drop(self) {
        match self {
            SessionEvent::Begin(_) => {}
            SessionEvent::Write {
                s: _,
                p: _,
                cmds: _,
                query: _,
            } => {}
            SessionEvent::Weak {
                s: _,
                p: _,
                query: _,
            } => {}
        }
    }
}
