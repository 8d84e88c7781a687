use cg_action::Answer;

/// A line that speaks of the follower `f`.
pub enum FollowLine {
    /// It is up, and has come so far.
    At { f: u8, cursor: u64 },
    /// It is down.
    Down(u8),
    /// What it answers.
    Weak { f: u8, answer: Answer },
}

impl Drop for FollowLine {
    fn drop(self) {
        match self {
            FollowLine::At { f: _, cursor: _ } => {}
            FollowLine::Down(_) => {}
            FollowLine::Weak { f: _, answer: _ } => {}
        }
    }
}
