use cg_action::Answer;
use cg_base::ActionId;

/// A line that speaks of the session `s`.
pub enum SessionLine {
    /// The session wrote the action.
    Wrote { s: u8, id: ActionId },
    /// The session has seen the reply to an action of its own, at this place.
    At { s: u8, place: u64 },
    /// The replica's position is below the one that the session has seen.
    Behind { s: u8, have: u64, want: u64 },
    /// What the replica's green actions answer, and its position.
    Answered { s: u8, answer: Answer, at: u64 },
}

impl Drop for SessionLine {
    fn drop(self) {
        match self {
            SessionLine::Wrote { s: _, id: _ } => {}
            SessionLine::At { s: _, place: _ } => {}
            SessionLine::Behind {
                s: _,
                have: _,
                want: _,
            } => {}
            SessionLine::Answered {
                s: _,
                answer: _,
                at: _,
            } => {}
        }
    }
}
