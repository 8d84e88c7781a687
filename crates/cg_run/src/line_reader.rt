//! The reader of a run's lines.
ghost use Rattle.std.specs.Prelude.{◌≡◌, MatchResult};
ghost use Rattle.cg_schedule.specs.Fault.{Gives};
ghost use Rattle.cg_schedule.specs.Line.{first_state, state_after, opening, event_reading};
ghost use Rattle.cg_schedule.specs.Reading.{whole};
ghost use Rattle.cg_schedule.specs.declared.event.Event.TheVariants.{End};
ghost use Rattle.cg_run.specs.Ending.{behind_end};

use cg_schedule::{Event, LineFault, Reader, ReaderState, SyntaxReason, Word};
use cg_text::Words;
use std::alloc::Global;
use std::marker::Model;

/// The reader of a run's lines: those of a schedule, or logs, of which it knows whether their end was read. Clauses see
/// what stood before the next line.
pub struct LineReader {
    reader: Reader,
    logs_ended: bool,
}

impl Drop for LineReader {
    fn drop(self) {
        let LineReader {
            reader: _,
            logs_ended: _,
        } = self;
    }
}

impl Model for LineReader {
    ghost use Rattle.cg_schedule.specs.declared.reader_state.ReaderState.{ReaderState};
    ghost use Rattle.cg_run.specs.Ending.{with_logs};

    ghost Value = { ReaderState };

    ghost view = { λ r. with_logs r.logs_ended r.reader };
}

impl LineReader {
    /// Before the first line.
    pub fn new() -> LineReader
        ensures { result ≡ first_state }
    {
        LineReader {
            reader: Reader::new(),
            logs_ended: false,
        }
    }

    /// What stood before the next line.
    pub fn state(&self) -> ReaderState
        ensures { result ≡ self.now }
    {
        let ReaderState { started, ended } = self.reader.state();
        ReaderState {
            started,
            ended: self.logs_ended || ended,
        }
    }

    /// The event word with which a line of a schedule begins, and the tokens behind it, or None where it is passed over.
    #[tactic(auto, using(crate::proofs::EndedReading::opening_ended))]
    pub fn begin_line<'a>(&self, line: &'a [u8]) -> Result<Option<(Word, Words<'a>)>, LineFault>
        ensures { result ≡ opening self.now line.now }
    {
        if self.logs_ended {
            return behind_end(self.reader.begin_line(line));
        }
        self.reader.begin_line(line)
    }

    /// The event of a word that may stand where it does, from the tokens behind it.
    pub fn finish_line(
        &mut self,
        alloc: Global,
        word: Word,
        words: Words,
    ) -> Result<Event, LineFault>
        ensures event { Gives (whole (event_reading word) words.entry) result }
        ensures state { MatchResult result (λ event. self.new ≡ state_after self.old event) (λ _. self.new ≡ self.old) }
    {
        self.reader.finish_line(alloc, word, words)
    }

    /// The end of logs was read.
    pub fn end_logs(&mut self)
        ensures { self.new ≡ state_after self.old End }
    {
        self.logs_ended = true;
    }
}

// nothing may stand behind the end
fn behind_end(
    begun: Result<Option<(Word, Words)>, LineFault>,
) -> Result<Option<(Word, Words)>, LineFault>
    ensures { result ≡ behind_end begun.entry }
{
    match begun {
        Ok(Some(_)) => Err(LineFault::Syntax(SyntaxReason::Misplaced)),
        Ok(None) => Ok(None),
        Err(fault) => Err(fault),
    }
}
