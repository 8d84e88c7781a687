use cg_base::ReplicaId;
use cg_text::Txt;

/// An event that asks for a key of the relaxed database: of one replica, or of two together.
pub enum RelaxedEvent {
    One {
        p: ReplicaId,
        key: Txt,
    },
    Both {
        p: ReplicaId,
        q: ReplicaId,
        key: Txt,
    },
}

impl Drop for RelaxedEvent {
    fn drop(self) {
        match self {
            RelaxedEvent::One { p: _, key: _ } => {}
            RelaxedEvent::Both { p: _, q: _, key: _ } => {}
        }
    }
}
