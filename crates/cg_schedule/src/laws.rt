ghost use Rattle.std.specs.Prelude.{◌≡◌, ◌↔◌, ℕ, List, ◌∷◌, Ok};
ghost use Rattle.cg_text.specs.Tokens.{tokens};
ghost use Rattle.cg_schedule.specs.declared.event.Event.{Event};
ghost use Rattle.cg_schedule.specs.declared.reader_state.ReaderState.{ReaderState};
ghost use Rattle.cg_schedule.specs.Limits.{IsEvent};
ghost use Rattle.cg_schedule.specs.Laws.{MayStand, ReadsAs, Reads};
ghost use Rattle.cg_schedule.specs.Line.{word_text, event_word, event_reading};
ghost use Rattle.cg_schedule.specs.Print.{line_of};
ghost use Rattle.cg_schedule.specs.Reading.{whole};

use cg_text::{numbers_are_exact, quoted_texts_are_exact, tokens_are_exact};

/// A line reads as an event exactly where its tokens are those of the event's printed line, the event is within
/// the limits and may stand there. So two lines that read as events read as one event exactly where they have
/// the same tokens.
pub fn lines_are_exact()
    ensures event { (state : ReaderState) (line : List ℕ) (e : Event) → (Reads state line e) ↔ (ReadsAs state line e) }
    ensures same_event { (state there : ReaderState) (line other : List ℕ) (e f : Event) → Reads state line e →
        Reads there other f → (e ≡ f) ↔ (tokens line ≡ tokens other) }
{
    numbers_are_exact();
    quoted_texts_are_exact();
    tokens_are_exact();
}

/// What is printed of an event within the limits is read again as that event, wherever it may stand.
pub fn printed_lines_are_read()
    ensures { (state : ReaderState) (e : Event) → IsEvent e → MayStand state e → Reads state (line_of e) e }
{
    numbers_are_exact();
    quoted_texts_are_exact();
    tokens_are_exact();
}

/// The parts behind a word are read as an event exactly where they are those of its printed line, and the event is
/// within the limits. A command that has lines of its own with the same parts takes its law from this one.
pub fn parts_are_exact()
    ensures { (e : Event) (parts : List (List ℕ)) → (whole (event_reading (event_word e)) parts ≡ Ok e)
        ↔ (IsEvent e × (tokens (line_of e) ≡ word_text (event_word e) ∷ parts)) }
{
    numbers_are_exact();
    quoted_texts_are_exact();
    tokens_are_exact();
}
