use crate::{Event, Word};

/// What stood before a line.
#[derive(Clone, Copy, Debug, PartialEq, Eq)]
pub struct ReaderState {
    /// A line before was `start`.
    pub started: bool,
    /// A line before was `end`.
    pub ended: bool,
}

impl ReaderState {
    ghost use Rattle.std.specs.Prelude.{◌≡◌};
    ghost use Rattle.cg_schedule.specs.Line.{first_state, state_after, fits};

    /// The state of the first line.
    pub fn first() -> ReaderState
        ensures { result ≡ first_state }
    {
        ReaderState {
            started: false,
            ended: false,
        }
    }

    /// The word may stand here: `start` first, and once, and nothing behind `end`.
    pub fn fits(&self, word: Word) -> bool
        ensures { result ≡ fits self.now word }
    {
        !self.ended && word.is_start() != self.started
    }

    /// The state behind a line with this event.
    pub fn after(self, event: &Event) -> ReaderState
        ensures { result ≡ state_after self event.now }
    {
        match event {
            Event::Start(_) => ReaderState {
                started: true,
                ended: self.ended,
            },
            Event::End => ReaderState {
                started: self.started,
                ended: true,
            },
            _ => self,
        }
    }
}
