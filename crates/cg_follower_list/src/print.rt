//! The text of a line of followers.

ghost use Rattle.std.specs.Prelude.{Some};
ghost use Rattle.cg_follower_list.specs.Print.{follow_text};

use crate::FollowLine;
use std::fmt;
use std::fmt::{Display, Formatter, Write};

/// The line, without its end.
impl Display for FollowLine {
    ghost output = { λ line. Some (follow_text line) };

    fn fmt<W: Write>(&self, f: &mut Formatter<W>) -> fmt::Result {
        match self {
            FollowLine::At { f: number, cursor } => write!(f, "follower {number} {cursor}"),
            FollowLine::Down(number) => write!(f, "follower {number} down"),
            FollowLine::Weak { f: number, answer } => write!(f, "fweak {number} {answer}"),
        }
    }
}
