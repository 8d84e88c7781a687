ghost use Rattle.cg_session.specs.Laws.{ExactLines, NeverFalls, PrintedAreRead};

use cg_schedule::{lines_are_exact, parts_are_exact, printed_lines_are_read};
use cg_text::{numbers_are_exact, tokens_are_exact};

/// A line reads as an event of a session exactly where its tokens are those of the event's printed line, and the event
/// is within the limits.
pub fn session_lines_are_exact()
    ensures { ExactLines }
{
    numbers_are_exact();
    tokens_are_exact();
    parts_are_exact();
}

/// What is printed of an event of a session within the limits is read again as that event.
pub fn printed_session_lines_are_read()
    ensures { PrintedAreRead }
{
    numbers_are_exact();
    tokens_are_exact();
    parts_are_exact();
    lines_are_exact();
    printed_lines_are_read();
}

/// What a session has seen never falls: it reads no state older than one that it has read, or than an own action that
/// it was told of.
pub fn tokens_never_fall()
    ensures { NeverFalls }
{}
