ghost use Rattle.std.specs.Prelude.{◌≡◌, ◌<◌, ◌+◌, ◌≤◌, true, false, length, IfOk, OnOk, Ok};
ghost use Rattle.cg_outcome.specs.declared.limits.TheConstants.{INPUT_BYTES, LINES, LINE_BYTES};
ghost use Rattle.cg_base.specs.declared.limits.TheConstants.{COUNT_LIMIT};
ghost use Rattle.cg_schedule.specs.declared.event.Event.{Event};
ghost use Rattle.cg_schedule.specs.Line.{event_reading};
ghost use Rattle.cg_schedule.specs.Reading.{whole};
ghost use Rattle.cg_outcome.specs.Outcome.{line_outcome, whole_line};
ghost use Rattle.cg_outcome.specs.FurtherLaws.{StandsFor};
ghost use Rattle.cg_outcome.specs.LineLaws.{is_comparing, IsPlain};
ghost use Rattle.cg_outcome.specs.Produced.{one_further};
ghost use Rattle.cg_outcome.specs.Rounds.{happened};
ghost use Rattle.cg_outcome.specs.Calls.{word_outcome};
ghost use Rattle.cg_outcome.specs.UnderWay.{HasBegun, IsUnderWay};
ghost use Rattle.cg_run.specs.Next.{MayHappen, IsNext};
ghost use Rattle.cg_run.specs.Performing.{place, seen, Performs};

use crate::further::read_in_place;
use crate::progress::Run;
use cg_io::Sink;
use cg_outcome::{Companion, Further, Status, passed_limit, without_return};
use cg_schedule::{Event, Word, lines_are_exact};
use cg_session::session_lines_are_exact;
use cg_text::Words;

impl Run {
    // The event of a line, which the reader has read.
    fn carry_out<K: Sink>(&mut self, output: &mut K, event: Event) -> Result<(), Status>
        requires few_faults { (K.view output.old).faults < COUNT_LIMIT }
        requires started { (seen self.old).reader.started ≡ true }
        requires happens { MayHappen (seen self.old).world event }
        ensures performs { Performs self.old.report (happened self.old.line event (seen self.old))
            (K.view output.old) (K.view output.new) self.new result }
        ensures begun { OnOk result (HasBegun (seen self.new)) }
        ensures placed { place self.new ≡ place self.old }
    {
        self.perform(output, &event)
    }

    // A line that begins with the word, before these tokens.
    #[tactic(auto, unfolding(cg_outcome::specs::Calls::word_outcome))]
    fn finish_line<K: Sink>(
        &mut self,
        output: &mut K,
        word: Word,
        words: Words,
    ) -> Result<(), Status>
        requires few_faults { (K.view output.old).faults < COUNT_LIMIT }
        requires reads { (event : Event) → whole (event_reading word) words ≡ Ok event → IsNext (seen self.old) event }
        ensures performs { Performs self.old.report (word_outcome self.old.line word words.entry (seen self.old))
            (K.view output.old) (K.view output.new) self.new result }
        ensures begun { OnOk result (HasBegun (seen self.new)) }
        ensures placed { place self.new ≡ place self.old }
    {
        match self.reader.finish_line(self.alloc, word, words) {
            Ok(event) => self.carry_out(output, event),
            Err(fault) => Err(self.refuse_line(output, fault)),
        }
    }

    // A line of a schedule, without its end, which isn't one of the command's own events.
    #[tactic(auto, unfolding(cg_outcome::specs::Outcome::line_outcome))]
    fn begin_event<K: Sink>(&mut self, output: &mut K, text: &[u8]) -> Result<(), Status>
        requires few_faults { (K.view output.old).faults < COUNT_LIMIT }
        requires under_way { IsUnderWay (seen self.old) }
        requires schedule { is_comparing (seen self.old).companion ≡ false }
        requires plain { IsPlain text.now (seen self.old) }
        ensures performs { Performs self.old.report (line_outcome self.old.line text.now (seen self.old))
            (K.view output.old) (K.view output.new) self.new result }
        ensures under_way { OnOk result (IsUnderWay (seen self.new)) }
        ensures placed { place self.new ≡ place self.old }
    {
        lines_are_exact();
        match self.reader.begin_line(text) {
            Ok(None) => Ok(()),
            Ok(Some((word, words))) => self.finish_line(output, word, words),
            Err(fault) => Err(self.refuse_line(output, fault)),
        }
    }

    // One of the command's own events, which is let go.
    fn carry_further<K: Sink>(&mut self, output: &mut K, event: Further) -> Result<(), Status>
        requires few_faults { (K.view output.old).faults < COUNT_LIMIT }
        requires begun { HasBegun (seen self.old) }
        requires stands { StandsFor (seen self.old).world event }
        ensures performs { Performs self.old.report (one_further self.old.line event (seen self.old))
            (K.view output.old) (K.view output.new) self.new result }
        ensures begun { OnOk result (HasBegun (seen self.new)) }
        ensures placed { place self.new ≡ place self.old }
    {
        self.perform_further(output, &event)
    }

    // A line, without its end, where the command has events of its own.
    fn begin_further<K: Sink>(&mut self, output: &mut K, text: &[u8]) -> Result<(), Status>
        requires few_faults { (K.view output.old).faults < COUNT_LIMIT }
        requires under_way { IsUnderWay (seen self.old) }
        requires schedule { is_comparing (seen self.old).companion ≡ false }
        ensures performs { Performs self.old.report (line_outcome self.old.line text.now (seen self.old))
            (K.view output.old) (K.view output.new) self.new result }
        ensures under_way { OnOk result (IsUnderWay (seen self.new)) }
        ensures placed { place self.new ≡ place self.old }
    {
        lines_are_exact();
        session_lines_are_exact();
        match read_in_place(self.alloc, &self.companion, self.reader.state(), text) {
            Ok(None) => self.begin_event(output, text),
            Ok(Some(event)) => self.carry_further(output, event),
            Err(fault) => Err(self.refuse_line(output, fault)),
        }
    }

    /// A line, without its end.
    pub fn begin_line<K: Sink>(&mut self, output: &mut K, text: &[u8]) -> Result<(), Status>
        requires few_faults { (K.view output.old).faults < COUNT_LIMIT }
        requires under_way { IsUnderWay (seen self.old) }
        ensures performs { Performs self.old.report (line_outcome self.old.line text.now (seen self.old))
            (K.view output.old) (K.view output.new) self.new result }
        ensures under_way { OnOk result (IsUnderWay (seen self.new)) }
        ensures placed { place self.new ≡ place self.old }
    {
        match &self.companion {
            Companion::Alone => self.begin_event(output, text),
            Companion::Imaging(_) => self.begin_event(output, text),
            Companion::Comparing => self.begin_log(output, text),
            _ => self.begin_further(output, text),
        }
    }

    /// A line that has its end.
    pub fn whole_line<K: Sink>(&mut self, output: &mut K, text: &[u8]) -> Result<(), Status>
        requires few_faults { (K.view output.old).faults < COUNT_LIMIT }
        requires within { self.old.at ≤ INPUT_BYTES }
        requires under_way { IsUnderWay (seen self.old) }
        ensures performs { Performs self.old.report (whole_line self.old.line self.old.at text.now (seen self.old))
            (K.view output.old) (K.view output.new) self.new result }
        ensures within { IfOk result (λ _. (length text.now ≤ LINE_BYTES)
            × (self.old.at + length text.now + 1 ≤ INPUT_BYTES) × (self.old.line ≤ LINES)) }
        ensures under_way { OnOk result (IsUnderWay (seen self.new)) }
        ensures placed { place self.new ≡ place self.old }
    {
        match passed_limit(self.line, text.len(), self.at + text.len() + 1) {
            Some(what) => {
                let status = Status::Limit {
                    line: self.line,
                    what,
                };
                Err(self.end(output, status, self.line))
            }
            None => self.begin_line(output, without_return(text)),
        }
    }
}
