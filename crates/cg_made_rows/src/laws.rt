ghost use Rattle.cg_made_rows.specs.Laws.{ExactLines};

use cg_text::{numbers_are_exact, quoted_texts_are_exact, tokens_are_exact};

/// A line reads as an event that asks for the relaxed database exactly where its tokens are those of the event's line,
/// and the event is within the limits.
pub fn relaxed_lines_are_exact()
    ensures { ExactLines }
{
    numbers_are_exact();
    quoted_texts_are_exact();
    tokens_are_exact();
}
