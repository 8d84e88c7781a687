use cg_base::ReplicaId;
use cg_relaxed::Cell;

/// A line that shows a key of the relaxed database: of what one replica knows, or of what two know together.
pub enum RelaxedLine {
    One {
        p: ReplicaId,
        cell: Cell,
    },
    Both {
        p: ReplicaId,
        q: ReplicaId,
        cell: Cell,
    },
}

impl Drop for RelaxedLine {
    fn drop(self) {
        match self {
            RelaxedLine::One { p: _, cell: _ } => {}
            RelaxedLine::Both {
                p: _,
                q: _,
                cell: _,
            } => {}
        }
    }
}
